//! The element types of a document type: their models, exceptions and omitted tags, by name and by
//! number (ISO 8879 11.2).
//!
//! It stands on names, groups, automata, name tables and the forms of declarations. The layers
//! above use that the table is the list of the declarations that were added, and that a declaration
//! is refused exactly by the first reason that holds.
#![tactic(auto)]

mod adding;
mod content;
mod elements;
mod folding;
mod judging;
mod laws;
mod naming;
mod places;
mod row;

pub use content::{Content, Exceptions};
pub use elements::Elements;
pub use laws::found_is_declared;
pub use sgml_decl_forms as decl_forms;
pub use sgml_decl_forms::decl_lexemes as decl_lexemes;
