//! Tries lines, records, stores, sinks and the generated book by the cases of a file: `FILE` prints
//! an answer a line.
#![tactic(auto)]

mod cases;
mod lines;
mod outside;
mod spelled;

use sgml_trials::answer_files;

fn main(rt: HostRuntime) {
    answer_files(&rt, &mut cases::Lines);
}
