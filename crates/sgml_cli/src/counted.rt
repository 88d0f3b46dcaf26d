// What is counted.
use sgml_text::{Refusal, Text};

/// What was counted of a file of lines or of the generated book, or why nothing was.
#[derive(Debug, Drop)]
pub enum Counted {
    /// The line that says the counts.
    Summary(Text),
    /// It is refused there: the name of the text, the line and the column.
    Refused {
        refusal: Refusal,
        name: Text,
        line: u64,
        column: u64,
    },
}
