// Content models as terms.
use sgml_text::Name;

/// A content model, or what is left of one. Numbers are those of its primitive tokens
/// (ISO 8879, 11.2.4).
#[derive(Drop)]
pub enum Term {
    /// Nothing more can come.
    Empty,
    /// An element token.
    Name(u32, Name),
    /// `#PCDATA`.
    Pcdata(u32),
    /// `,`: all, in order. A group of one is a sequence of one.
    Seq(Vec<Term>),
    /// `|`: one of them.
    Or(Vec<Term>),
    /// `&`: all, in any order.
    And(Vec<Term>),
    /// `?`
    Opt(Box<Term>),
    /// `+`
    Plus(Box<Term>),
    /// `*`
    Rep(Box<Term>),
    /// A begun member of an AND group, and the members left, in the group's order.
    Member(Box<Term>, Vec<Term>),
    /// A begun round of a repeated group, and the group.
    Round(Box<Term>, Box<Term>),
}
