// What a step takes.

/// What a step has taken.
#[derive(Clone, Copy, Debug)]
pub enum Turn {
    /// Pieces.
    Went,
    /// The end of the document.
    Ended,
}
