//! Tries the open elements by the cases of a file: `FILE` prints what is inferred in small documents.
//! What it must print was made by `tools/inference_cases.py`, which knows nothing of the crates.
#![tactic(auto)]

mod answers;
mod cases;
mod declarations;

use crate::cases::Documents;
use sgml_trials::answer_files;

fn main(rt: HostRuntime) {
    answer_files(&rt, &mut Documents { head: None });
}
