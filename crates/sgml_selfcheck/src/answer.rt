// What is answered of the book.
use sgml_conversion::Position;
use sgml_text::{Refusal, Text};

/// How the book was read.
#[derive(Debug, Drop)]
pub enum Checked {
    /// It conforms, and this is the summary of its lines.
    Summary(Text),
    /// It is refused there, and this is the position of that place.
    Refused(Refusal, Position),
}
