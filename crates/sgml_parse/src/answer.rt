// What a parser is given and answers.
ghost use Rattle.std.specs.Prelude.{◌≡◌};
ghost use Rattle.sgml_parse.specs.declared.answer.ParseError.TheVariants.{Memory};

use sgml_events::Event;
use sgml_text::{Memory, Refusal, Text};
use std::alloc::AllocError;

/// What is told next.
#[derive(Debug, Drop)]
pub enum ParseStep {
    Event(Event),
    /// The document type declaration and its external subset were read. It is told once.
    Prolog,
    /// The text of this entity is to be given, which is in the file of this name: 1 is the external subset.
    Want { entity: u32, name: Text },
    /// More of the document decides what stands next.
    More,
    /// The document was read to its end.
    Finished,
}

/// Where reading on pauses, once the events up to there were appended.
#[derive(Debug, Drop)]
pub enum ParsePause {
    /// The events are to be taken. The next call reads on.
    Going,
    /// The document type declaration and its external subset were read. It is told once.
    Prolog,
    /// The text of this entity is to be given, which is in the file of this name: 1 is the external subset.
    Want { entity: u32, name: Text },
    /// More of the document decides what stands next.
    More,
    /// The document was read to its end.
    Finished,
}

/// Why nothing more is read. Each later call answers the same.
#[derive(Clone, Copy, Debug, PartialEq, Eq)]
pub enum ParseError {
    Refused(Refusal),
    /// No memory was there.
    Memory,
}

impl From<Memory> for ParseError {
    ghost from_gives = { λ _ e. e ≡ Memory };

    fn from(_: Memory) -> Self {
        ParseError::Memory
    }
}

impl From<AllocError> for ParseError {
    ghost from_gives = { λ _ e. e ≡ Memory };

    fn from(_: AllocError) -> Self {
        ParseError::Memory
    }
}

/// What the store has under the name of a file.
#[derive(Debug, Drop)]
pub enum Supply {
    /// These storage bytes.
    Text(Text),
    /// No such file.
    Absent,
    /// More than a text may have.
    TooLarge,
}

/// A text that is to be given.
#[derive(Debug, Drop)]
pub struct Wanted {
    pub entity: u32,
    /// The name of its file.
    pub name: Text,
}
