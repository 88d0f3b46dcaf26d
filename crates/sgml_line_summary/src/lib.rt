//! The summary of a file of lines: how many lines and elements it has.
//!
//! It stands on texts, stores and lines. The command uses that the answer is exactly that of the file.
#![tactic(auto)]

mod answer;
mod counts;
mod laws;
mod places;
mod summarizing;

pub use answer::{Failure, Summarized};
pub use laws::{bad_line_begins_its_line, each_file_is_summarized, one_summary};
pub use summarizing::summarize;
