//! One step of reading the prolog of a document: the pieces that stand next are taken, or it is told why
//! none is (ISO 8879 7.1, 9.6, 10, 11, 13).
//!
//! First what stands at a place: its token, which is a piece, or why none does (`look`, over `sgml_scan`).
//! Then steps over `sgml_declared` and `sgml_sources`. The reader of the prolog goes from step to step.
#![tactic(auto)]

mod ends;
mod found;
mod kept;
mod keyword;
mod misplaced_sgml;
mod naming;
mod passing;
mod plain;
mod references;
mod refused;
mod sections;
mod sort;
mod stage;
mod stepping;

pub use ends::{is_section_open, take_section_end, take_text_end, texts_on};
pub use found::{Found, is_in_document, look};
pub use kept::Kept;
pub use keyword::keyword_of;
pub use misplaced_sgml::sgml_reason;
pub use naming::referred;
pub use passing::pass_separators;
pub use plain::{
    own_text, read_over, take_comment, take_instruction, take_separators, take_skipped,
};
pub use references::{Said, go_back, open_after, take_reference};
pub use refused::refuse_misfit;
pub use sections::{begin_section, is_in_ignored, take_ignored_start};
pub use sgml_decl_lexemes::unread;
pub use sort::{Sort, is_ignored, sort_in};
pub use stage::{Stage, begun, is_before};
pub use stepping::{Stop, Turn, stop_of};
