//! Full documents: every tag written, with every attribute that has a value, for tools that infer nothing.
//!
//! It stands on events and on what a document type says of their numbers. The layers above use that exactly the
//! definition's bytes are written.
#![tactic(auto)]

mod events;
mod full;
mod inside;
mod spelling;
mod tags;

pub use full::{FullError, write_full};
pub use inside::Inside;
