//! The parts of a declaration (ISO 8879 10, 11), of the start of a marked section, of the end of a
//! document type and of a literal of a tag: what stands at a place in its mode, which lexemes may
//! come next by its form, and where its own text ends.
//!
//! It stands on texts, delimiters and units. Lexemes are read from these parts.
#![tactic(auto)]

mod bytes;
mod ends;
mod form;
mod laws;
mod literal;
mod part;
mod signs;
mod words;

pub use bytes::begins_name;
pub use ends::{Construct, before, construct_end};
pub use form::{Form, Grouped, LiteralKind, Owner};
pub use laws::{end_is_within, end_stays};
pub use part::{Here, Opened, Part, PartFault, read_part};
pub use sgml_delim as delim;
pub use signs::after_sign;
pub use words::{
    after_literal, after_name, after_reserved, after_token, is_complete, is_in_group, literal_kind,
    may_refer,
};
