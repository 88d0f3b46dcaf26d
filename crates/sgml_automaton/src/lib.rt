//! Automata of content models: a state is the last token and a bit for each member of an AND
//! group, and stands for what is left of the model.
//!
//! It stands on `sgml_text`, `sgml_model` and `sgml_ambiguity`. The layers above use that `step`,
//! `takes`, `finished` and `required` answer what the term that is left answers, and take no
//! memory.
#![tactic(auto)]

mod automaton;
mod building;
mod laws;
mod moves;
mod nexts;
mod place;
mod plan;
mod planning;
mod requiring;
mod room;
mod same;
mod state;

pub use automaton::Automaton;
pub use building::{BuildError, build};
pub use laws::{last_token_alone, last_token_and_bits};
pub use state::ModelState;
