//! Reading the instance of a document (ISO 8879 7.2): a reader goes from step to step of content and tells the
//! events that were read one after another, or the text that is to be given, or why nothing more is read.
//!
//! It stands on the steps of content and begins with what was kept of the prolog. The parser uses that what is
//! answered is what reads of the input, move by move, or why reading stops; and that a reader reads on where texts
//! were gained.
#![tactic(auto)]

mod answer;
mod batches;
mod beginning;
mod instance;
mod laws;
mod preparing;
mod quick;
mod reading;
mod step;
mod stepping;

pub use answer::{InstanceError, InstancePause, InstanceStep};
pub use instance::Instance;
pub use laws::{instance_begins, more_texts_read_on, steps_are_read};
pub use stepping::Turn;
