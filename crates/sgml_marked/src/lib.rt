//! Marked sections: what their status keywords say, and which sections are open (ISO 8879 10.4).
//!
//! It stands on `sgml_text`. A reader tells it each start and end of a section, and each end of an
//! entity.
#![tactic(auto)]

mod laws;
mod sections;
mod status;

pub use laws::{equal_sections_are_the_same, first_unknown_keyword_is_told, last_of_level_ends};
pub use sections::{Section, SectionError, Sections};
pub use status::{Status, is_keyword, status_of};
