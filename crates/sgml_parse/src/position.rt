// Where a place is in its text.
use sgml_text::Text;

/// A place by the name of its text, its line and its column.
#[derive(Debug, Drop)]
pub struct Position {
    /// The name of the text's file, or that of an internal entity behind `&` or `%`.
    pub name: Text,
    /// Counted from 1, as the column is.
    pub line: u64,
    pub column: u64,
}
