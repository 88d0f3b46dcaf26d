//! The prolog of a document, read: the SGML declaration, the document type declaration with its internal
//! and external subset, and what stands between them (ISO 8879 7.1, 11.1, 13).
//!
//! First steps beside those of `sgml_prolog_steps`: before the document type the SGML declaration, the head,
//! and a declaration that isn't the head; in it declarations, starts of marked sections and its end. A reader
//! is given texts from outside, by number, and goes from step to step up to what is told: an instruction, a
//! text that is wanted, that more is needed, or the end of the document type. The parser uses that what is
//! answered is what reads of the input, piece by piece, or why reading stops; and that a reader reads on with
//! the text that it wanted, if that is the one in its file (`wanted_text_reads_on`).
#![tactic(auto)]

mod answer;
mod declaration;
mod declared_syntax;
mod head;
mod keyword;
mod laws;
mod misplaced;
mod prolog;
mod read_prolog;
mod reading;
mod section_start;
mod sgml_declaration;
mod stepping;
mod subset_end;

pub use answer::{PrologError, PrologStep};
pub use declared_syntax::read_sgml;
pub use laws::{more_texts_read_on, steps_are_read, wanted_text_reads_on};
pub use prolog::Prolog;
pub use read_prolog::ReadProlog;
