// What is declared of an entity and of a notation.
use sgml_text::{DataKind, Name, Text};

/// General and parameter entities have names of their own (9.4.4).
#[derive(Clone, Copy, Debug, PartialEq, Eq)]
pub enum Space {
    General,
    Parameter,
}

/// An external identifier (10.1.6): the public identifier that was declared, and the system
/// identifier.
#[derive(Debug, Drop)]
pub struct External {
    pub public: Option<Text>,
    pub system: Option<Text>,
}

/// What an entity is replaced by (10.5).
#[derive(Debug, Drop)]
pub enum Body {
    /// SGML text. A bracketed text stands here with its delimiters: `<` and `>` for STARTTAG,
    /// `</` and `>` for ENDTAG, `<![` and `]]>` for MS, `<!` and `>` for MD.
    Sgml(Text),
    Cdata(Text),
    Sdata(Text),
    /// The text of a processing instruction.
    Pi(Text),
    /// SGML text in a file of its own.
    External(External),
    /// Data in a file of its own, in a notation.
    ExternalData {
        kind: DataKind,
        external: External,
        notation: Name,
    },
}

/// A declared entity (10.5).
#[derive(Debug, Drop)]
pub struct Entity {
    pub name: Name,
    pub space: Space,
    pub body: Body,
    /// The name of the file in which the declaration stands; relative identifiers begin there.
    pub base: Text,
}

/// A declared notation (11.4).
#[derive(Debug, Drop)]
pub struct Notation {
    pub name: Name,
    pub external: External,
}
