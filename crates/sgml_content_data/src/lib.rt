//! Data characters and separators of content (ISO 8879 7.6, 7.6.1, 9.5): what a separator is where it stands,
//! and the steps that take characters, record ends and starts, and references to characters.
//!
//! It stands on the steps of content and on the run of tags that are left out before a piece. A stretch of
//! data is one turn: behind a data character that brought no tags the next ones stand for the same reason, and
//! behind one that brought some they do where they are scanned as it was.
//! The parser asks what stands at a place, and takes its characters with these steps.
#![tactic(auto)]

mod around;
mod begun;
mod characters;
mod front;
mod laws;
mod passing;
mod plain;
mod quick;
mod role;
mod separators;
mod taking;
mod telling;
mod tokens;

pub use around::{Around, has_text, look_around};
pub use characters::{take_characters, try_characters};
pub use laws::characters_go_on;
pub use quick::{try_begun_text, try_plain_text};
pub use tokens::{
    take_character_reference, take_function_reference, take_record_end, take_record_start,
    try_record_end, try_record_start,
};
