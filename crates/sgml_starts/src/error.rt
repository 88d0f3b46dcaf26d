// Why a start has no values.
ghost use Rattle.std.specs.Prelude.{◌≡◌};
ghost use Rattle.sgml_starts.specs.declared.error.StartError.TheVariants.{Memory};
ghost use Rattle.sgml_starts.specs.Specified.{error_of};

use sgml_decl_lexemes::LexError;
use sgml_text::{Memory, Reason};
use std::alloc::{AllocError, AllocFailed};

/// Why a start has no values.
#[derive(Clone, Copy, Debug, PartialEq, Eq)]
pub enum StartError {
    /// A specification or an attribute without one is refused for this reason.
    Refused(Reason),
    /// A literal opens the text of this external entity, which wasn't given. It stands in the place
    /// of `Absent`, `Unresolved` and `EntityTooLarge`.
    Wanted(u32),
    /// No memory was there.
    Memory,
}

impl From<AllocError> for StartError {
    ghost from_gives = { λ _ e. e ≡ Memory };

    fn from(_: AllocError) -> Self {
        StartError::Memory
    }
}

impl<T: Drop> From<AllocFailed<T>> for StartError {
    ghost from_gives = { λ _ e. e ≡ Memory };

    fn from(_: AllocFailed<T>) -> Self {
        StartError::Memory
    }
}

impl From<Memory> for StartError {
    ghost from_gives = { λ _ e. e ≡ Memory };

    fn from(_: Memory) -> Self {
        StartError::Memory
    }
}

/// Why a literal can't be read. More of a literal's text is never wanted, since a tag is whole.
pub(crate) fn error_of(error: LexError) -> StartError
    ensures { result ≡ error_of error }
{
    match error {
        LexError::Refused(reason) => StartError::Refused(reason),
        LexError::Wanted(entity) => StartError::Wanted(entity),
        LexError::NeedMore => StartError::Memory,
        LexError::Memory => StartError::Memory,
    }
}
