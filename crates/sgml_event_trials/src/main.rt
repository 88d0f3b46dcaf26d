//! Tries the values of starts, the lines of events and identifiers by the cases of files: `FILE ..` prints
//! the answer to each of their lines. What it must print was worked out by hand.
#![tactic(auto)]

mod cases;
mod events;
mod identifiers;
mod lines;
mod settings;
mod starts;
mod writing;

use crate::cases::Cases;
use sgml_trials::answer_files;

fn main(rt: HostRuntime) {
    if let Ok(mut cases) = Cases::new(rt.alloc()) {
        answer_files(&rt, &mut cases);
    }
}
