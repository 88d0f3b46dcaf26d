//! The parser: from the bytes of a document to its events (ISO 8879). What it stands for that is fed storage bytes as they
//! come, is given the texts that it wants from outside, and goes on up to what is told next.
//!
//! It stands on the readers of the prolog and of the instance, of which it has the one whose part is being read. The
//! command uses that what `next` tells one by one, and `read` many at once, is what reads of the input, piece by piece, or
//! why reading stops, and that it reads on where it was fed, ended or supplied.
#![tactic(auto)]

mod answer;
mod going;
mod held;
mod laws;
mod locating;
mod missing;
mod noting;
mod parser;
mod position;
mod reading;
mod supplying;
mod wanting;

pub use answer::{ParseError, ParsePause, ParseStep, Supply, Wanted};
pub use laws::{answers_are_told, parser_is_given};
pub use parser::Parser;
pub use position::Position;
pub use sgml_declared::Options;
