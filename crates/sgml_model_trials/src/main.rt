//! Tries content models by the cases of a file: `FILE` prints the answer to each of its lines. What it
//! must print was worked out by hand; `tools/model_words.py`, which knows nothing of the crates, says
//! the same of words.
#![tactic(auto)]

mod automata;
mod cases;
mod groups;
mod residuals;
mod writing;

use crate::cases::{GREATEST, Models};
use sgml_trials::answer_files;

fn main(rt: HostRuntime) {
    answer_files(&rt, &mut Models { limits: GREATEST });
}
