//! The SGML declaration (ISO 8879 clause 13), as far as this profile has it.
//!
//! A table has what may stand where, what it tells, and what is due next; the code goes through a declaration by it, a
//! byte at a time. Stands on texts and syntaxes. The layers above use `read_sgml_declaration`, whose contract says which
//! texts begin with a declaration, what its syntax is, and where a text stops being the front of one.
#![tactic(auto)]

mod declaration;
mod due;
mod feature;
mod heard;
mod item;
mod keyword;
mod laws;
mod reading;
mod row;
mod rows;
mod settling;

pub use declaration::read_sgml_declaration;
pub use feature::{DeclError, Feature};
pub use laws::{a_text_begins_with_one_declaration, reading_tells_declarations, rows_begin_apart};
