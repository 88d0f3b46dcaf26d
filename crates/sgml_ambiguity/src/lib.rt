//! Whether a content model is ambiguous.
//!
//! It stands on `sgml_text`, `sgml_names`, `sgml_hashes` and `sgml_model`. The automaton uses that
//! `ambiguity` finds two tokens exactly where there are two.
#![tactic(auto)]

mod accumulated;
mod ambiguity;
mod cross;
mod firsts;
mod laws;
mod once;
mod scan;
mod token;

pub use ambiguity::{Ambiguity, ambiguity_of};
pub use laws::{last_tokens_once, pair_where_ambiguous};
pub use sgml_names as names;
