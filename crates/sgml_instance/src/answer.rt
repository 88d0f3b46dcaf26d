// What a reader of the instance answers.
ghost use Rattle.std.specs.Prelude.{◌≡◌};
ghost use Rattle.sgml_instance.specs.declared.answer.InstanceError.TheVariants.{Memory};

use sgml_events::Event;
use sgml_text::{Memory, Refusal, Text};

/// What is read next.
#[derive(Debug, Drop)]
pub enum InstanceStep {
    Event(Event),
    /// The text of this entity is to be given, which is in the file of this name.
    Want { entity: u32, name: Text },
    /// More of the document decides what stands next.
    More,
    /// The document was read to its end.
    Finished,
}

/// Where reading on pauses, once the events up to there were appended.
#[derive(Debug, Drop)]
pub enum InstancePause {
    /// So many events stand there that they are to be taken. The next call reads on.
    Going,
    /// The text of this entity is to be given, which is in the file of this name.
    Want { entity: u32, name: Text },
    /// More of the document decides what stands next.
    More,
    /// The document was read to its end.
    Finished,
}

/// Why nothing more is read. Each later call answers the same.
#[derive(Clone, Copy, Debug, PartialEq, Eq)]
pub enum InstanceError {
    Refused(Refusal),
    /// No memory was there.
    Memory,
}

impl From<Memory> for InstanceError {
    ghost from_gives = { λ _ e. e ≡ Memory };

    fn from(_: Memory) -> Self {
        InstanceError::Memory
    }
}
