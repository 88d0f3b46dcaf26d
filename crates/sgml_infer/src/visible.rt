// What is accepted, and what is answered.

/// A piece that is written, as far as the open elements are concerned.
#[derive(Clone, Copy, Debug, PartialEq, Eq)]
pub enum Visible {
    /// The start-tag of an element type, by its number.
    Start(u32),
    /// Content that is `#PCDATA`.
    Chars,
    /// The end-tag of an element type.
    EndTag(u32),
    /// An empty end-tag, which ends the innermost element (7.5.1.1).
    EndCurrent,
    /// NET, which ends the innermost element that enabled it (7.5.1.3).
    Net,
    /// The end of the document.
    EndDocument,
}

/// How many tags were left out before a visible piece.
#[derive(Clone, Copy, Debug, PartialEq, Eq)]
pub struct Chain {
    /// End-tags, which come first.
    pub ends: u32,
    pub starts: u32,
    /// The visible piece is the start of an element that an open one includes (11.2.5.1).
    pub included: bool,
}
