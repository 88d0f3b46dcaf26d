//! One thread reads the chunks of a board in order while workers scan ahead.
//!
//! The reader and the workers are run by nested calls of `join`, and share nothing but the board. Whatever the number
//! of workers, the chunks and the schedule, the answer is that of one thread: `scan_all` says so.
#![tactic(auto)]

mod reading;
mod running;
#[cfg(test)]
mod tests;
mod working;

pub use reading::{Entries, Reader, read_all};
pub use running::{read_beside, scan_all};
pub use working::work;
