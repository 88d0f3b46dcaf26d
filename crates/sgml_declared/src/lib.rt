//! The texts that a document is read from, the files in which they are, and how they are opened on the
//! stack of texts; the declarations of a document type, read at its top and taken into the tables; status
//! keywords of a marked section; the end of a document type.
//!
//! It stands on catalogs, on the lexemes and forms of declarations, and on the tables of a document type.
//! The readers of the prolog and of content use that what is taken is what is spelled there, or why it
//! isn't, and which file is to be fetched first.
#![tactic(auto)]

mod adding;
mod declaration;
mod error;
mod files;
mod head;
mod laws;
mod noted;
mod opening;
mod options;
mod placing;
mod reading;
mod section;
mod subset;
mod subset_end;

pub use declaration::take_declaration;
pub use error::TakeError;
pub use head::{Head, misplaced_declaration, take_head};
pub use laws::{each_store_is_outside, references_are_opened, wanted_texts_are_missing};
pub use noted::Noted;
pub use opening::{OpenError, open};
pub use options::Options;
pub use placing::placed;
pub use reading::take_error;
pub use section::section_status;
pub use sgml_dtd as dtd;
pub use subset::ExternalSubset;
pub use subset_end::take_subset_end;
