//! One document as its lines, or with all its tags: read from a store, parsed, and written to a sink.
//!
//! It stands on the document in its store, on the writer of events and on identifiers. The command uses that what was written is exactly the
//! lines of what reads of the input, up to its end or to the place where reading stops.
#![tactic(auto)]

mod answer;
mod beginning;
mod conversion;
mod document;
mod full;
mod instance;
mod laws;
mod whole;
mod writing;

pub use answer::{Failure, Outcome};
pub use conversion::convert;
pub use full::convert_full;
pub use laws::{each_input_has_an_end, lines_are_those_of_events, one_answer};
pub use sgml_source::{MOST_BYTES, Options, Position};
