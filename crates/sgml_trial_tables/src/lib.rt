//! Declarations that trial programs of document types add to the tables, and what is answered to them in a word.
//!
//! Stands on the tables of a document type and on the lexemes of declarations.
#![tactic(auto)]

mod adding;

pub use adding::{add, told};
