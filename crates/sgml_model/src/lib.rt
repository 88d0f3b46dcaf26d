//! Content models: groups as they are spelled, terms, what can come next and what must.
//!
//! It stands on `sgml_text`. `read_group` gives the model that tokens spell, and `Residual` what
//! is left of a model after some tokens.
#![tactic(auto)]

mod copy;
mod finished;
mod laws;
mod model;
mod outline;
mod read;
mod reader;
mod required;
mod residual;
mod take;
mod term;
mod token;

pub use finished::all_finished;
pub use laws::{read_is_spelled, required_is_taken, words_are_of_the_model};
pub use model::Model;
pub use read::{GroupError, read_group};
pub use required::first_required;
pub use residual::Residual;
pub use take::{is_name, is_text};
pub use term::Term;
pub use token::{GroupLimits, GroupToken, Which};
