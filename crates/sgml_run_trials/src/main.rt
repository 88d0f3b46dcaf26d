//! Tries the command by the cases of files, each run in memory. What it must print was worked out by hand from the standard
//! and the profile, or is the answer of a slow reading of the definitions that was written apart.
#![tactic(auto)]

mod cases;
mod faults;
mod fronts;
mod lines;
mod running;
mod spelled;
mod telling;

use crate::cases::answers_to;
use crate::lines::Lines;
use sgml_io::{StdSink, write_whole};
use sgml_trials::answer_files;

fn main(rt: HostRuntime) {
    let alloc = rt.alloc();
    let mut lines = Lines::new(alloc);
    answer_files(&rt, &mut lines);
    let Ok(answers) = answers_to(&rt, alloc, &lines.lines) else {
        return;
    };
    let Ok(mut out) = StdSink::new(alloc, rt.stdout()) else {
        return;
    };
    if write_whole(&mut out, &answers).is_ok() {
        let _ = out.flush();
    }
}
