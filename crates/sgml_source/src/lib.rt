//! A document in a store, read through a parser: what the store gives of it is fed, the texts that the parser wants are
//! fetched, and what is told next of the document is answered.
//!
//! It stands on the store and on the parser. The conversion of a document uses that what is told is what reads of the input
//! that the file is, with the files of the store, or why reading stops, with its place.
#![tactic(auto)]

mod batches;
mod error;
mod laws;
mod source;
mod supplying;
mod told;
mod turning;

pub use batches::told_many;
pub use error::SourceError;
pub use laws::each_file_is_input;
pub use sgml_parse::{Options, Parser, Position};
pub use source::{MOST_BYTES, Phase, Source};
pub use told::{Paused, Told};
pub use turning::told_next;
