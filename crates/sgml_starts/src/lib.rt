//! The values of the attributes of a start: of a start-tag, or of an element that starts without one
//! (ISO 8879 7.9, 11.3).
//!
//! It stands on the parts of tags, on literals, attribute values and the tables of a document type.
//! The layer above uses that `start_values` gives each attribute its value and refuses a start by the
//! first reason that holds, in the order of its specifications and then of its definitions.
#![tactic(auto)]

mod error;
mod filling;
mod flags;
mod judging;
mod listed;
mod matching;
mod reading;
mod setting;
mod starts;
mod taking;

pub use error::StartError;
pub use starts::{StartValues, start_values};
