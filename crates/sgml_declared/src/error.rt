// Why a declaration isn't taken.
ghost use Rattle.std.specs.Prelude.{◌≡◌};
ghost use Rattle.sgml_declared.specs.declared.error.TakeError.TheVariants.{Memory};

use sgml_text::{Memory, Reason, Text};

/// Why a declaration isn't taken, or another construct.
#[derive(Debug, Drop)]
pub enum TakeError {
    /// It is refused for this reason.
    Refused(Reason),
    /// The file of an entity, of this name, is to be fetched first. Number 1 is the external subset.
    Wanted { entity: u32, file: Text },
    /// No memory was there, or no number is left for what is declared.
    Memory,
}

impl From<Memory> for TakeError {
    ghost from_gives = { λ _ e. e ≡ Memory };

    fn from(_: Memory) -> Self {
        TakeError::Memory
    }
}
