//! What the events of a parser say in the words of reading: names for numbers, and each data character
//! by itself.
//!
//! It stands on events and document types. Lines and identifiers are defined over what is said, and
//! take names, attribute definitions and texts by number from here.
#![tactic(auto)]

mod attributes;
mod tables;

pub use attributes::{defined_values, start_definitions};
pub use tables::{definitions, element_name, entity_name, sdata_text};
