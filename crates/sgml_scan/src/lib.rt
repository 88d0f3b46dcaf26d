//! The token that stands at a place of a text, in content and in the prolog (ISO 8879 9.6).
//!
//! It stands on `sgml_delim` and `sgml_shortref`, which tell what begins a token, and on
//! `sgml_markup`, which tells where it ends. The parser uses that the token is the one of its place,
//! that it stays whatever follows, and that a step is counted for each of its bytes.
#![tactic(auto)]

mod classes;
mod laws;
mod lone;
mod plain_text;
mod scanning;
mod starts;
mod state;
mod stretches;
mod tags;

pub use classes::Class;
pub use laws::{
    characters_stay, decided_is_tested, decided_is_told, decided_stays, delimiter_is_longest,
    ended_is_decided, need_more_is_undecided, scanned_stretch_is_one, token_is_within, token_stays,
    tokens_are_one,
};
pub use lone::{lone_end, lone_start};
pub use plain_text::text_length;
pub use scanning::scan;
pub use starts::{StartTag, start_tag};
pub use state::{ScanState, Scanned, Token};
pub use tags::{next_part, parts_walk, tag_parts};
