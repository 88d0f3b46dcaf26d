//! Tries the reader of the prolog by the cases of files. What it must print was worked out by hand from the standard
//! and the profile, or is the answer of a slow reading of the definitions that was written apart.
#![tactic(auto)]

mod cases;
mod reading;
mod telling;

use crate::cases::Prologs;
use sgml_trials::answer_files;

fn main(rt: HostRuntime) {
    answer_files(&rt, &mut Prologs::new(rt.alloc()));
}
