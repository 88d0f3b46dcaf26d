//! The line format of a parsed document: its lines as values, written and read.
//!
//! It stands on texts, sinks and names. The layers above use that `write_lines` writes exactly
//! `spell_lines` of the lines, and that `read_lines` reads exactly the grammar.
#![tactic(auto)]

mod attributes;
mod escapes;
mod held;
mod line;
mod marks;
mod read;
mod short;
mod words;
mod write;

pub use escapes::all_plain;
pub use held::{Held, flush, put, put_byte, put_plain, put_short_line, put_unseen, put_whole_line};
pub use line::{Apart, EscUnit, Escaped, Line};
pub use read::{LinesError, one_reading, read_lines, round_trip};
pub use short::Short;
pub use write::write_lines;
