// Rows of the table of words.
use crate::due::Due;
use crate::feature::Feature;
use crate::keyword::Keyword;

/// A keyword that ends a list of names with their numbers.
#[derive(Clone, Copy)]
pub enum ListEnd {
    /// `SCOPE`, after the capacities.
    Scope,
    /// `FEATURES`, after the quantities.
    Features,
}

/// What a literal has between its quotes.
#[derive(Clone, Copy)]
pub enum Content {
    Any,
    /// The name of the standard.
    Heading,
    /// Any of `-`, `.`, `_` and `:`.
    Marks,
    /// The same as the last literal of marks.
    SameMarks,
}

/// A word, or a literal, of an SGML declaration.
#[derive(Clone, Copy)]
pub enum Item {
    /// `<!SGML`, which begins the declaration.
    Opening,
    Word(Keyword),
    /// Digits.
    Number,
    /// A name of a list, or the keyword that ends the list.
    Name(ListEnd),
    Literal(Content),
    /// `>`.
    End,
}

/// What an item tells of the syntax.
#[derive(Clone, Copy)]
pub enum Tells {
    Nothing,
    /// The feature is out of scope.
    Out(Feature),
    Omittag(bool),
    Shorttag(bool),
    GeneralFold(bool),
    EntityFold(bool),
    Shortrefs(bool),
    /// What names begin with besides letters.
    StartMarks,
    /// What names go on with besides letters, digits, `-` and `.`.
    MoreMarks,
    QuantityName,
    QuantityNumber,
    /// The public identifier of the syntax.
    PublicSyntax,
    Appinfo,
}

/// What may stand at a place, what it tells, and what is due after it.
#[derive(Clone, Copy)]
pub struct Row {
    pub item: Item,
    pub tells: Tells,
    pub then: Due,
}
