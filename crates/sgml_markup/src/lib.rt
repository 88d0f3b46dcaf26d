//! The markup of a text that a delimiter begins: where it ends, and whether its bytes are of a
//! form (ISO 8879 7.4 to 7.9, 8, 9.4, 10.1 to 10.4).
//!
//! It stands on `sgml_delim`, and allocates nothing. Scanning asks it once a delimiter was
//! recognised. What parameter references may bring, inside declarations, section starts and the end
//! of the document type, is judged where they are replaced.
#![tactic(auto)]

mod beginning;
mod ends;
mod judging;
mod kinds;
mod laws;
mod literals;
mod plain;
mod quick;
mod references;
mod tags;
mod walk;

pub use beginning::markup_of;
pub use ends::end_of;
pub use judging::{before, judge};
pub use kinds::{Form, Markup, Part, PartKind, TagState, TagStep, TokenKind};
pub use laws::{
    comments_by_grammar, declarations_end_by_grammar, end_stays, tags_by_grammar,
    tags_end_by_grammar,
};
pub use plain::{bare_end, behind_separators, literal_end, name_end, specifications_begin};
pub use quick::{quick_rest, short_name};
pub use tags::{begins_slash, begins_tagc, unclosed};
pub use walk::{
    NextSpecification, TagWalk, lone_name, next_part, next_specification, tag_part, tag_walk,
    walk_at,
};
