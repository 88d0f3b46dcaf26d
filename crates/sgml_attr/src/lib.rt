//! Attribute values: how a literal is read, which specification each attribute has, and what value
//! it has (ISO 8879 7.9, 11.3).
//!
//! It stands on texts, the syntax, entities and units. The layers above use that `value_of` gives
//! the value, or the first reason that holds against it.
#![tactic(auto)]

mod currents;
mod definition;
mod error;
mod giving;
mod index;
mod laws;
mod literal;
mod matching;
mod rows;
mod tokens;
mod value;
mod values;

pub use currents::Currents;
pub use definition::{Declared, Default, Definition, Spec};
pub use error::AttrError;
pub use giving::{judge_default, value_given, value_of, value_spelled};
pub use laws::{one_matching_fits, parts_stand_between_spaces};
pub use literal::{are_apart, are_plain, interpret_literal};
pub use matching::{attribute_named, attribute_with_member, match_specs};
pub use sgml_text::{Unit, Units};
pub use value::AttrValue;
pub use values::Values;
