//! Tries names, sections, records, delimiters, markup and tokens by the cases of files: `FILE..`
//! prints the answer to each of their lines. What it must print was worked out by hand.
#![tactic(auto)]

mod cases;
mod delims;
mod markup;
mod names;
mod reading;
mod records;
mod sections;
mod settings;
mod texts;
mod tokens;
mod units;
mod writing;

use sgml_trials::answer_files;

fn main(rt: HostRuntime) {
    answer_files(&rt, &mut cases::Tokens);
}
