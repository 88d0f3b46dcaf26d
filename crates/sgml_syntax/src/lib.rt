//! The concrete syntax and the features of a document (ISO 8879 clause 13).
//!
//! It stands on `sgml_text`. The layers above read their quantities, names and features from it.
#![tactic(auto)]

mod syntax;

pub use syntax::{Quantities, Syntax, implied};
