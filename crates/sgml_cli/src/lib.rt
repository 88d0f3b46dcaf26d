//! The command.
//!
//! It stands on the words of the command, on its settings, on the conversion of a document to its lines, on the summaries of lines and
//! of the generated book, and on the outside. `run` is all that a program calls; `run_within` is the same within another limit of
//! texts, which a test can lower.
#![tactic(auto)]

mod asked;
mod converting;
mod counted;
mod counting;
mod logging;
mod nowhere;
mod running;
mod status;

pub use running::{
    answer_of_outcome, answers_read_back, each_run_has_an_outcome, one_outcome, run, run_within,
};
pub use status::Status;
