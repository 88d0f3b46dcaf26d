//! The generated book, converted and counted: how many elements, lines and bytes are written for it.
//!
//! It stands on the book and on the conversion of a document to its lines. The command uses that the counts are exactly those of
//! the lines that would be written.
#![tactic(auto)]

mod answer;
mod checking;
mod counts;
mod laws;
mod tally;

pub use answer::Checked;
pub use checking::selfcheck;
pub use laws::one_check;
pub use sgml_conversion as conversion;
