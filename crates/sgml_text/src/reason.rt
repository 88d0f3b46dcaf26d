// Why a text is refused.
ghost use Rattle.std.specs.Prelude.{◌≡◌, Some};
ghost use Rattle.sgml_text.specs.Codes.{code_of};

use std::fmt;
use std::fmt::{Display, Formatter};

/// Why a text is refused, with the clause of ISO 8879 that is broken.
#[derive(Clone, Copy, Debug, PartialEq, Eq)]
pub enum Reason {
    /// A catalog is of no form. TR9401.
    BadCatalog,
    /// The store has no file of this name. Profile.
    Absent,
    /// An entity or external subset that resolves to no file is opened. 10.1.
    Unresolved,
    /// A file has more than 268,435,456 bytes. Profile.
    EntityTooLarge,
    /// Markup or data has a byte that is no SGML character. 13.1.
    NonSgml,
    /// The SGML declaration is of no form. 13.
    BadDeclaration,
    /// The feature DATATAG is used, which is left out. 13.5.
    DatatagOut,
    /// The feature RANK is used, which is left out. 13.5.
    RankOut,
    /// The feature LINK is used, which is left out. 13.5.
    LinkOut,
    /// The feature CONCUR is used, which is left out. 13.5.
    ConcurOut,
    /// The feature SUBDOC is used, which is left out. 13.5.
    SubdocOut,
    /// A counted quantity is 0 or passes the greatest that may be set. 13.4.
    QuantityOut,
    /// Another construct that the profile leaves out is used. Profile.
    OtherOut,
    /// Something else, or the end, comes before a document type declaration. 7.1.
    NoDoctype,
    /// A tag, declaration, literal, comment or instruction doesn't end in its entity. 9.4.
    Unclosed,
    /// A tag is of no form. 7.4, 7.5.
    TagSyntax,
    /// A declaration is of no form. 10, 11.
    DeclarationSyntax,
    /// A declaration of a form stands where it may not. 7.1, 7.6.
    DeclarationPlace,
    /// A character reference passes 255, or names no function character. 9.5.
    CharNumber,
    /// A name or token passes NAMELEN. 13.4.
    NameLength,
    /// The text of a processing instruction passes PILEN. 13.4.
    PiLength,
    /// An interpreted literal or attribute value passes LITLEN. 13.4.
    LiteralLimit,
    /// A referenced entity has no declaration. 9.4.
    Undeclared,
    /// An entity is referenced where its kind may not be. 9.4.
    EntityKind,
    /// An entity is referenced while it is open. 9.4.
    Recursive,
    /// More than ENTLVL entities would be open. 13.4.
    EntityLevel,
    /// The texts of opened entities pass the limit of the command. Profile.
    Expansion,
    /// A status keyword of a marked section is none of the five. 10.4.
    StatusUnknown,
    /// A marked section ends where none is open in this entity. 10.4.
    SectionNone,
    /// An entity or the subset ends where a marked section is open. 10.4.
    SectionOpen,
    /// The tokens of a model group form no group. 11.2.
    BadGroup,
    /// A model group passes GRPCNT, GRPGTCNT or GRPLVL. 13.4.
    GroupLimit,
    /// An element type has two declarations. 11.2.
    ElementTwice,
    /// A notation has two declarations. 11.4.
    NotationTwice,
    /// A short reference map has two declarations. 11.5.
    MapTwice,
    /// A content model is ambiguous. 11.2.4.3.
    Ambiguous,
    /// An element type has two attribute lists. 11.3.
    ListTwice,
    /// An attribute stands twice in a list. 11.3.
    AttributeTwice,
    /// A token stands twice in the groups of an attribute list. 11.3.
    TokenTwice,
    /// A list has two ID or two NOTATION attributes. 11.3.
    IdTwice,
    /// An ID attribute's default is neither #REQUIRED nor #IMPLIED. 11.3.
    IdDefault,
    /// The names and tokens of an attribute list pass ATTCNT. 13.4.
    AttrLimit,
    /// A literal of a map is no short reference string, or stands twice. 11.5.
    NotShortref,
    /// A short reference map that is used isn't declared. 11.6.
    MapUnknown,
    /// A notation that is used isn't declared. 11.4.
    NotationUnknown,
    /// The element type of a tag isn't declared. 7.8.
    Undefined,
    /// An end-tag is of no element that is open. 7.5.
    NotOpen,
    /// More than TAGLVL elements would be open. 13.4.
    TagLevel,
    /// An element whose start-tag is omitted would be empty. 7.3.1.1.
    EmptyInferred,
    /// An exclusion forbids what would be allowed here. 11.2.5.
    Excluded,
    /// The content model doesn't allow what stands here. 7.6, 11.2.
    NotAllowed,
    /// The tag that would be omitted may not be, by its declaration or by OMITTAG. 7.3.1.
    OmitUndeclared,
    /// A start-tag may not be omitted: a required attribute or declared content. 7.3.1.1.
    NotOmissible,
    /// An element ends before its content is complete. 7.3, 11.2.
    Unfinished,
    /// A specification names no attribute of the element. 7.9.
    UnknownAttribute,
    /// An attribute is specified twice. 7.9.
    Twice,
    /// An attribute value isn't of its declared value's tokens. 7.9.
    NotAToken,
    /// An attribute value's token isn't in its group. 7.9.
    NotInGroup,
    /// A specified value isn't the fixed one. 11.3.
    FixedDiffers,
    /// The value of an entity attribute names no data entity. 7.9.
    EntityUnknown,
    /// A required attribute has no specification. 11.3.
    Required,
    /// A current attribute was never specified. 11.3.
    NoCurrent,
    /// An ID value comes again. 7.9.
    Repeated,
    /// An IDREF value is the ID of no element. 7.9.
    Dangling,
    /// An instruction can't be written in a full document. Profile.
    PiNotSpelled,
    /// A line is of no form of the output. Profile.
    BadLine,
    /// This form isn't read yet. Profile.
    NotBuilt,
}

impl Reason {
    /// The reason as the log names it.
    pub fn code(self) -> &'static str
        ensures { result.now ≡ code_of self }
    {
        match self {
            Reason::BadCatalog => "BadCatalog",
            Reason::Absent => "Absent",
            Reason::Unresolved => "Unresolved",
            Reason::EntityTooLarge => "EntityTooLarge",
            Reason::NonSgml => "NonSgml",
            Reason::BadDeclaration => "BadDeclaration",
            Reason::DatatagOut => "DatatagOut",
            Reason::RankOut => "RankOut",
            Reason::LinkOut => "LinkOut",
            Reason::ConcurOut => "ConcurOut",
            Reason::SubdocOut => "SubdocOut",
            Reason::QuantityOut => "QuantityOut",
            Reason::OtherOut => "OtherOut",
            Reason::NoDoctype => "NoDoctype",
            Reason::Unclosed => "Unclosed",
            Reason::TagSyntax => "TagSyntax",
            Reason::DeclarationSyntax => "DeclarationSyntax",
            Reason::DeclarationPlace => "DeclarationPlace",
            Reason::CharNumber => "CharNumber",
            Reason::NameLength => "NameLength",
            Reason::PiLength => "PiLength",
            Reason::LiteralLimit => "LiteralLimit",
            Reason::Undeclared => "Undeclared",
            Reason::EntityKind => "EntityKind",
            Reason::Recursive => "Recursive",
            Reason::EntityLevel => "EntityLevel",
            Reason::Expansion => "Expansion",
            Reason::StatusUnknown => "StatusUnknown",
            Reason::SectionNone => "SectionNone",
            Reason::SectionOpen => "SectionOpen",
            Reason::BadGroup => "BadGroup",
            Reason::GroupLimit => "GroupLimit",
            Reason::ElementTwice => "ElementTwice",
            Reason::NotationTwice => "NotationTwice",
            Reason::MapTwice => "MapTwice",
            Reason::Ambiguous => "Ambiguous",
            Reason::ListTwice => "ListTwice",
            Reason::AttributeTwice => "AttributeTwice",
            Reason::TokenTwice => "TokenTwice",
            Reason::IdTwice => "IdTwice",
            Reason::IdDefault => "IdDefault",
            Reason::AttrLimit => "AttrLimit",
            Reason::NotShortref => "NotShortref",
            Reason::MapUnknown => "MapUnknown",
            Reason::NotationUnknown => "NotationUnknown",
            Reason::Undefined => "Undefined",
            Reason::NotOpen => "NotOpen",
            Reason::TagLevel => "TagLevel",
            Reason::EmptyInferred => "EmptyInferred",
            Reason::Excluded => "Excluded",
            Reason::NotAllowed => "NotAllowed",
            Reason::OmitUndeclared => "OmitUndeclared",
            Reason::NotOmissible => "NotOmissible",
            Reason::Unfinished => "Unfinished",
            Reason::UnknownAttribute => "UnknownAttribute",
            Reason::Twice => "Twice",
            Reason::NotAToken => "NotAToken",
            Reason::NotInGroup => "NotInGroup",
            Reason::FixedDiffers => "FixedDiffers",
            Reason::EntityUnknown => "EntityUnknown",
            Reason::Required => "Required",
            Reason::NoCurrent => "NoCurrent",
            Reason::Repeated => "Repeated",
            Reason::Dangling => "Dangling",
            Reason::PiNotSpelled => "PiNotSpelled",
            Reason::BadLine => "BadLine",
            Reason::NotBuilt => "NotBuilt",
        }
    }
}

impl Display for Reason {
    ghost output = { λ reason. Some (code_of reason) };

    fn fmt<W: fmt::Write>(&self, f: &mut Formatter<W>) -> fmt::Result {
        f.write_str(self.code())
    }
}
