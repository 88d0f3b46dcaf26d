//! Steps of reading the instance where marked sections start and end, where a map is used, and where the
//! text of an entity ends (ISO 8879 9.4, 10.4, 11.6).
//!
//! It stands on `sgml_content_steps`, which says what a step is, on `sgml_declared` for status keywords, and on
//! lexemes and forms of declarations. The parser uses that each call takes the piece that stands next, or
//! tells why none does, and that an error leaves all as it was.
#![tactic(auto)]

mod ends;
mod lexing;
mod misplaced;
mod saying;
mod starts;
mod uses;

pub use ends::{take_section_end, take_text_end};
pub use misplaced::take_misplaced;
pub use starts::take_section_start;
pub use uses::take_use;
