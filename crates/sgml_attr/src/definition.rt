// What is declared of an attribute, and what a start-tag specifies.
use sgml_text::{Name, Names, Units};

/// A declared value (11.3.3).
#[derive(Debug, Drop)]
pub enum Declared {
    /// Character data.
    Cdata,
    /// The name of a general entity that is data.
    Entity,
    Entities,
    /// An identifier, which no other start-tag may have.
    Id,
    /// A reference to an identifier.
    Idref,
    Idrefs,
    Name,
    Names,
    /// A name token: name characters.
    Nmtoken,
    Nmtokens,
    /// Digits.
    Number,
    Numbers,
    /// A number token: a digit and then name characters.
    Nutoken,
    Nutokens,
    /// The name of a notation, one of these.
    Notation(Names),
    /// One of these name tokens.
    Group(Names),
}

/// A default value (11.3.4). Its units are those of the interpreted literal.
#[derive(Debug, Drop)]
pub enum Default {
    Value(Units),
    /// The only value that may be specified.
    Fixed(Units),
    Required,
    /// The value that was specified last for this attribute of this list.
    Current,
    /// None; an element with a specified value has no content.
    Conref,
    /// None.
    Implied,
}

/// The definition of an attribute (11.3). Its name and the names of its groups are folded as the
/// syntax folds general names.
#[derive(Debug, Drop)]
pub struct Definition {
    pub name: Name,
    pub declared: Declared,
    pub default: Default,
}

/// An attribute specification (7.9): a name as it is spelled, unless it was left out, and the units
/// of the literal or the value.
#[derive(Debug, Drop)]
pub struct Spec {
    pub name: Option<Name>,
    pub value: Units,
}
