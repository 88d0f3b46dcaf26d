// What a reader of a prolog answers.
ghost use Rattle.std.specs.Prelude.{◌≡◌};
ghost use Rattle.sgml_prolog.specs.declared.answer.PrologError.TheVariants.{Memory};

use sgml_text::{Memory, Place, Refusal, Text};

/// What is read next.
#[derive(Debug, Drop)]
pub enum PrologStep {
    /// A processing instruction (8), with the entity whose text it is, where it is one's, and its place.
    Pi {
        text: Text,
        entity: Option<u32>,
        place: Place,
    },
    /// The text of this entity is to be given, which is in the file of this name: 1 is the external subset.
    Want {
        entity: u32,
        name: Text,
    },
    /// More of the document decides what stands next.
    More,
    /// The document type declaration and its external subset were read.
    Done,
}

/// Why nothing more is read. Each later call answers the same.
#[derive(Clone, Copy, Debug, PartialEq, Eq)]
pub enum PrologError {
    Refused(Refusal),
    /// No memory was there.
    Memory,
}

impl From<Memory> for PrologError {
    ghost from_gives = { λ _ e. e ≡ Memory };

    fn from(_: Memory) -> Self {
        PrologError::Memory
    }
}
