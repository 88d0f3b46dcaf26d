//! What a parser tells of a document: its events.
//!
//! It stands on texts and attribute values. The parser and what writes its events use that contracts
//! see an event as what it says, and data as its units however they are kept.
#![tactic(auto)]

mod event;
mod stretch;

pub use event::{Event, Events};
pub use stretch::{Parts, Stretch};
