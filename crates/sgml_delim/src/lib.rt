//! Delimiters and modes, which delimiter stands at a place, and where a declaration ends (ISO 8879
//! 9.6, 10).
//!
//! It stands on `sgml_syntax`, and allocates nothing. Scanning asks it at each place where a
//! delimiter can begin, and whoever reads declarations asks it for their ends.
#![tactic(auto)]

mod delim;
mod ends;
mod laws;
mod recognising;
mod tables;

pub use delim::{Delim, Mode, Need, Recognised, Verdict};
pub use ends::{Ender, Inside, declaration_end, end_after, inside_after};
pub use laws::{
    declaration_end_stays, found_stands_in_the_text, longest_is_recognised, told_by_verdicts,
    told_stays,
};
pub use recognising::{delimiter_at, recognise};
pub use tables::{delims_of, string_of};
