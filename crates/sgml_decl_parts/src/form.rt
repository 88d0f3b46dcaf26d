// Where a declaration stands in its form.
use sgml_delim::Delim;
use sgml_text::Reason;

/// What an external identifier belongs to (10.1.6).
#[derive(Clone, Copy, Debug, PartialEq, Eq)]
pub enum Owner {
    Doctype,
    Entity,
    Notation,
}

/// What a flat group of names or tokens belongs to (10.1.3).
#[derive(Clone, Copy, Debug, PartialEq, Eq)]
pub enum Grouped {
    /// The element types that are declared.
    Elements,
    /// The element types of an attribute list.
    Lists,
    /// The notations of an attribute.
    Notations,
    /// The name tokens of an attribute.
    Tokens,
    Exclusions,
    Inclusions,
    /// The element types of a map.
    Mapped,
}

/// Which kind of literal may stand at a place.
#[derive(Clone, Copy, Debug, PartialEq, Eq)]
pub enum LiteralKind {
    NoLiteral,
    /// A parameter literal: parameter and character references are replaced (10.1.2).
    Parameter,
    /// A minimum or system literal, which holds no references (10.1.6, 10.1.7).
    Plain,
    /// An attribute value literal: general and character references are replaced (7.9.3).
    Value,
}

/// What is due in a declaration.
#[derive(Clone, Copy, Debug)]
pub enum Form {
    /// Nothing: no form goes on so.
    Broken,
    /// A construct that the profile leaves out begins so.
    LeftOut(Reason),
    /// A comment declaration: no parameter may follow (10.3).
    Comment,
    /// The keyword of the declaration.
    Keyword,
    /// The end alone.
    Whole,
    DoctypeName,
    /// The external identifier, the subset, or the end of a DOCTYPE.
    DoctypeNamed,
    ElementNames,
    /// The marks of omission, or the content (11.2.2).
    StartOmission,
    EndOmission,
    Content,
    /// More of a model group, with so many groups open.
    Model(u32),
    /// A mark, exceptions, or the end.
    AfterModel,
    /// The same after `+`, which may begin the inclusions.
    AfterModelPlus,
    /// Exceptions, or the end.
    AfterContent,
    /// The group of the exclusions.
    Exclusions,
    AfterExclusions,
    /// The group of the inclusions.
    Inclusions,
    ListNames,
    /// The name of an attribute.
    Attribute,
    AttributeOrEnd,
    /// The declared value of an attribute (11.3.3).
    Declared,
    /// The group of the notations of an attribute.
    Notations,
    /// The default of an attribute (11.3.4).
    Default,
    /// The value after `#FIXED`.
    Fixed,
    EntityName,
    ParameterName,
    EntityValue,
    /// The literal of data text or bracketed text (10.5.3, 10.5.4).
    EntityText,
    /// The notation of a data entity.
    DataNotation,
    NotationName,
    NotationNamed,
    /// After SYSTEM.
    System(Owner),
    /// After PUBLIC.
    Public(Owner),
    /// After the public identifier.
    PublicNamed(Owner),
    /// After a whole external identifier.
    External(Owner),
    MapName,
    /// A literal of a short reference map (11.5).
    MapLiteral,
    /// The entity of a short reference string.
    MapEntity,
    MapLiteralOrEnd,
    /// The map of a USEMAP (11.6).
    UsedMap,
    MapTargets,
    /// Status keywords, and the `[` that ends the start of a marked section (10.4.2).
    Statuses,
    /// More of a flat group: whether a name or token is due, and the connector so far.
    Group(Grouped, bool, Option<Delim>),
}
