//! Tries the tables of a document type by the cases of a file: `FILE` prints the answer to each of
//! its lines. What it must print was worked out by hand.
#![tactic(auto)]

mod asking;
mod cases;
mod writing;

use crate::cases::Tables;
use sgml_trials::answer_files;

fn main(rt: HostRuntime) {
    if let Ok(mut tables) = Tables::new(rt.alloc()) {
        answer_files(&rt, &mut tables);
    }
}
