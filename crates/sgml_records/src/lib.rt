//! Which record ends of a document are data, and where (ISO 8879 7.6.1).
//!
//! `RecordState` is kept for each open element and is told each item of its content. It answers at
//! each what is put out there. It stands on nothing.
#![tactic(auto)]

mod laws;
mod record_state;

pub use laws::{each_end_is_kept_or_ignored, puts_are_the_kept_ends, search_is_the_standards};
pub use record_state::{Put, RecordState};
