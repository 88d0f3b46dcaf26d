// One step.
ghost use Rattle.std.specs.Prelude.{◌≡◌};
ghost use Rattle.sgml_prolog_steps.specs.Steps.{stop_of};

use sgml_declared::TakeError;
use sgml_text::{Reason, Text};

/// What a step has taken.
#[derive(Debug, Drop)]
pub enum Turn {
    /// Pieces of which nothing is told.
    Silent,
    /// A processing instruction (8), of its own or that of an entity.
    Instruction { text: Text, entity: Option<u32> },
}

/// Why a step takes nothing.
#[derive(Debug, Drop)]
pub enum Stop {
    Refused(Reason),
    /// The file of this entity, of this name, is to be fetched first.
    Wanted { entity: u32, file: Text },
    /// More of the document decides what stands next.
    More,
    /// No memory was there.
    Memory,
}

/// Why a construct that was read isn't taken.
pub fn stop_of(error: TakeError) -> Stop
    ensures { result ≡ stop_of error }
{
    match error {
        TakeError::Refused(reason) => Stop::Refused(reason),
        TakeError::Wanted { entity, file } => Stop::Wanted { entity, file },
        TakeError::Memory => Stop::Memory,
    }
}
