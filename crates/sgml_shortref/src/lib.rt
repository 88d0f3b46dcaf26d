//! Short references: which string a text begins with, and the maps that give entities to strings
//! (ISO 8879 9.6.4, 9.6.5, 11.5).
//!
//! It stands on `sgml_text`. Scanning asks it where a map is in force.
#![tactic(auto)]

mod laws;
mod maps;
mod matching;

pub use laws::{longest_is_told, matched_is_told};
pub use maps::{Map, Maps};
pub use matching::{Matched, Next, begins_string, longest};
