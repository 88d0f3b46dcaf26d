//! The words of the command, as the command that they tell.
//!
//! Which words are of the command is a grammar (`Says`), with what their values tell (`Told`). `clap` takes the words
//! apart, and is proved to do so by that grammar; the values are judged here. Stands on texts and `clap`. Its users
//! need the command as a function of the words (`Uses`), which a law ties to the grammar, and the usage line (`Usage`).
#![tactic(auto)]

mod command;
mod laws;
mod limits;
mod mode;
mod number;
mod usage_line;
mod words;

pub use command::{Command, command_of};
pub use laws::words_are_of_the_grammar;
pub use limits::Limits;
pub use mode::Mode;
pub use usage_line::usage;
