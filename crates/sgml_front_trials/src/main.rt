//! Tries what stands in front of a document by the cases of a file: the words of the command, the SGML declaration and
//! the catalog. What it must print was worked out by hand from the standard, TR9401 and the profile.
#![tactic(auto)]

mod cases;
mod catalogs;
mod command;
mod declarations;

use crate::cases::Front;
use sgml_trials::answer_files;

fn main(rt: HostRuntime) {
    answer_files(
        &rt,
        &mut Front {
            named: Vec::new(rt.alloc()),
        },
    );
}
