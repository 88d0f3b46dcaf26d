//! What the steps of reading the instance of a document share (ISO 8879 7.2, 7.3.1, 7.6, 8, 9): what stands at a
//! place, a token that is a piece or why none does; the mode in which it is scanned; what a step takes and tells, or
//! why it takes nothing; and the tags that are left out before a visible piece, judged with the piece before
//! anything is taken, and taken with it.
//!
//! It stands on `sgml_scan`, on the open elements and what stands inside them, and on the values of starts. The
//! steps for comments and instructions are here; those for other pieces stand in crates above it. The parser goes
//! from step to step.
#![tactic(auto)]

mod allowed;
mod content;
mod found;
mod judging;
mod laws;
mod mode;
mod plain;
mod run;
mod run_telling;
mod scanned;
mod starting;
mod taking;
mod telling;

pub use allowed::judged_may_stand;
pub use content::{Content, advance, rest_at};
pub use found::{Found, look};
pub use judging::{judge, judge_plain};
pub use laws::{
    characters_are_pieces, ends_are_pieces, instance_begins, markup_is_pieces, tags_are_pieces,
};
pub use plain::{take_comment, take_instruction};
pub use run::Run;
pub use scanned::{innermost, scan_state};
pub use sgml_infer as infer;
pub use taking::take_run;
pub use telling::{make_room, place_of, tell};
