//! The attribute lists of a document type (ISO 8879 11.3): each is made by one declaration, for all
//! element types that it names.
//!
//! It stands on texts, the syntax, names and their hashes, attribute values and the forms of
//! declarations. The layers above use that the list of an element type is that of the one
//! declaration that names it, and that a declaration is refused exactly for the first reason that
//! holds.
#![tactic(auto)]

mod interpreting;
mod laws;
mod list;
mod rows;
mod table;
mod twice;

pub use laws::each_type_has_the_list_of_one_declaration;
pub use list::{AttributeList, Definitions};
pub use sgml_attr as attr;
pub use table::Lists;
