//! The lines of a parser's events, written one event after another.
//!
//! It stands on events, on lines and on what reading says of both. The layers above use that what was
//! written is exactly the lines of the events, and that no event takes memory.
#![tactic(auto)]

mod declared;
mod defining;
mod laws;
mod marks;
mod names;
mod pen;
mod texts;
mod values;
mod whole;
mod writer;

pub use declared::{are_events_of, is_event_of};
pub use laws::{lines_are_read_back, lines_are_those_of_reading};
pub use whole::{EventsError, write_events};
pub use writer::Writer;
