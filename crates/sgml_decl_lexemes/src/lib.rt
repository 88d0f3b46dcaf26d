//! The lexemes of a declaration (ISO 8879 10, 11): what is left of it without separators, comments
//! and parameter references. One reader reads also the start of a marked section (10.4), the end of a
//! document type (11.1) and a literal of a tag (7.9.3).
//!
//! It stands on the parts of a declaration, on entities and on their stack of texts; and on names,
//! attribute values and status keywords, for what is too long before a reference. The tables of a
//! document type are made from lexemes.
#![tactic(auto)]

mod calls;
mod fault;
mod laws;
mod lengths;
mod lexeme;
mod plain;
mod progress;
mod quiet;
mod reader;
mod reading;
mod source;
mod start;
mod top;
mod wholeness;

pub use calls::{
    lexemes, literal, scanned_lexemes, scanned_section_start, section_start, subset_end,
};
pub use fault::{Fault, LexError, Reached};
pub use laws::{
    alike_is_read, alike_stacks_are_alike, answer_is, asked_stands_at_start, decided_stays,
    left_counts, one_answer, others_are_left, plain_literals, plain_starts, read_ends_with_text,
    read_is, read_stands_on_top, turns_are_enough, unread_counts,
};
pub use lexeme::{Lexeme, Lexemes};
pub use reader::begins;
pub use sgml_attr as attr;
pub use sgml_entity as entity;
pub use top::{text_at, unread};
pub use wholeness::reaches_end;
