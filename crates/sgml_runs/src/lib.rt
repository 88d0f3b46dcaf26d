//! The board on which threads leave the runs of tokens that they scanned ahead.
//!
//! A text is cut into chunks. Threads claim chunks, scan them, and post what they found; the one committing reader
//! takes posted runs, or scans for itself where none is posted. Contracts see what each caller's `Pass` has claimed,
//! posted, found and taken. The scan is handed in by `Scan`. It stands on `sgml_text` and the atomic table.
#![tactic(auto)]

mod board;
mod expected;
mod pass;
mod rule;
mod run;
mod scan;
mod view;

pub use board::Board;
pub use pass::Pass;
pub use run::{Chunk, Entry, Run};
pub use scan::Scan;
