// The state in which a text is scanned, and what it begins with.
use sgml_delim::Mode;
use sgml_markup::{Form, TokenKind};
use sgml_text::Reason;

/// Where a text is scanned.
#[derive(Clone, Copy, Debug, PartialEq, Eq)]
pub struct ScanState {
    /// One of content, or of the prolog: Con, Rcd, Cdt, Rcs, Cds, Ign or Ds.
    pub mode: Mode,
    /// Whether NET is in force (7.4.1.3).
    pub net: bool,
    /// Whether a short reference map is in force (11.6); it counts in mode Con alone.
    pub maps: bool,
}

/// A token, with the number of its bytes.
#[derive(Clone, Copy, Debug, PartialEq, Eq)]
pub struct Token {
    pub kind: TokenKind,
    pub length: u64,
}

/// What a text begins with.
#[derive(Clone, Copy, Debug, PartialEq, Eq)]
pub enum Scanned {
    Token(Token),
    /// The text doesn't decide its first token, and more may follow.
    NeedMore,
    /// No token begins there, and why.
    BadToken(Reason),
}

/// What a delimiter begins.
#[derive(Clone, Copy)]
pub enum Opening {
    /// Markup with an end of its own.
    Markup(Form),
    /// A token of so many bytes.
    Whole(TokenKind, usize),
}
