// Kinds of tokens, forms of markup, and the parts of a tag.
use sgml_text::Reason;

/// What a token is.
#[derive(Clone, Copy, Debug, PartialEq, Eq)]
pub enum TokenKind {
    /// Characters that begin nothing else.
    Chars,
    /// A record end.
    Re,
    /// A record start.
    Rs,
    /// The short reference string of this number (9.4.6).
    ShortRef(u8),
    StartTag,
    /// `<>` (7.4.1.1).
    EmptyStart,
    EndTag,
    /// `</>` (7.5.1.1).
    EmptyEnd,
    /// A null end-tag (7.5.1.3).
    Net,
    /// A reference to a general entity (9.4.4).
    EntityRef,
    /// A reference to a character by its number (9.5).
    CharRef(u8),
    /// A reference to a function character by its name (9.5).
    FunctionRef(u8),
    /// A processing instruction (8).
    Pi,
    /// A comment declaration (10.3).
    Comment,
    /// The start of a marked section (10.4); in an ignored one `<![` alone.
    SectionStart,
    /// The end of a marked section, `]]>` (10.4).
    SectionEnd,
    /// Another declaration, up to its end; of a document type with a subset its head.
    Declaration,
    /// Separators in the prolog or a subset (10.5.3, 11.1).
    Separators,
    /// A reference to a parameter entity (9.4.4).
    ParameterRef,
    /// The end of a document type, from the end of its subset (11.1).
    SubsetEnd,
}

/// What begins with a delimiter and has an end of its own.
#[derive(Clone, Copy, Debug, PartialEq, Eq)]
pub enum Form {
    StartTag,
    EndTag,
    EntityReference,
    ParameterReference,
    CharacterReference,
    Instruction,
    CommentDeclaration,
    SectionStart,
    Declaration,
    SubsetEnd,
}

/// Markup of a form that a text begins with: the number of its bytes, and what it is or why its bytes
/// may not be.
#[derive(Clone, Copy, Debug, PartialEq, Eq)]
pub struct Markup {
    pub length: usize,
    pub judged: Result<TokenKind, Reason>,
}

/// What a part of a tag is.
#[derive(Clone, Copy, Debug, PartialEq, Eq)]
pub enum PartKind {
    ElementName,
    /// An attribute's name, before its value (7.9).
    AttributeName,
    /// A value without quotes, or a value alone (7.9.1.2, 7.9.3.1).
    Bare,
    /// A value between its quotes, which are left out (7.9.3).
    Quoted,
}

/// A part of a tag: the bytes from `from` up to `to`.
#[derive(Clone, Copy, Debug, PartialEq, Eq)]
pub struct Part {
    pub kind: PartKind,
    pub from: usize,
    pub to: usize,
}

/// Where a byte of a tag stands. Numbers are places where parts begin and end.
#[derive(Clone, Copy, Debug, PartialEq, Eq)]
pub enum TagState {
    ElementName(usize),
    /// In an end-tag after its name.
    Closing,
    /// Where a specification may begin.
    Ready,
    /// In a name or a value alone, and whether it is a name.
    Word(usize, bool),
    /// After such a word and separators.
    AfterWord(usize, usize, bool),
    /// After `=`.
    Value,
    /// In a value without quotes.
    Bare(usize),
    /// In a literal, with its quote.
    Literal(u8, usize),
    /// Of no form.
    Failed,
}

/// One byte of a tag: the part that ends before it, if one does, and where the next byte stands.
#[derive(Clone, Copy, Debug, PartialEq, Eq)]
pub struct TagStep {
    pub part: Option<Part>,
    pub next: TagState,
}
