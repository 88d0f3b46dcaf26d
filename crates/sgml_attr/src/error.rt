// Why there is no value.
ghost use Rattle.std.specs.Prelude.{◌≡◌};
ghost use Rattle.sgml_attr.specs.declared.error.AttrError.TheVariants.{Memory};

use sgml_text::Memory;
use std::alloc::{AllocError, AllocFailed};

/// Why an attribute specification or a value is refused.
#[derive(Clone, Copy, Debug, PartialEq, Eq)]
pub enum AttrError {
    Memory,
    /// A token passes NAMELEN (13.4.8).
    NameLength,
    /// An interpreted literal passes LITLEN (13.4.8).
    LiteralLimit,
    /// A NOTATION value names no declared notation (11.4).
    NotationUnknown,
    /// The specification of this number names no attribute (7.9).
    UnknownAttribute { spec: usize },
    /// The specification of this number names an attribute that an earlier one names (7.9).
    Twice { spec: usize },
    /// The value has another number of tokens than is declared, or one of another kind (7.9.4).
    NotAToken,
    /// The token isn't in the declared group (7.9.4).
    NotInGroup,
    /// A specified value isn't the fixed one (11.3.4).
    FixedDiffers,
    /// An ENTITY value names no data entity (7.9.4).
    EntityUnknown,
    /// A required attribute has no specification (11.3.4).
    Required,
    /// A current value was never specified (11.3.4).
    NoCurrent,
}

impl From<AllocError> for AttrError {
    ghost from_gives = { λ _ e. e ≡ Memory };

    fn from(_: AllocError) -> Self {
        AttrError::Memory
    }
}

impl<T: Drop> From<AllocFailed<T>> for AttrError {
    ghost from_gives = { λ _ e. e ≡ Memory };

    fn from(_: AllocFailed<T>) -> Self {
        AttrError::Memory
    }
}

impl From<Memory> for AttrError {
    ghost from_gives = { λ _ e. e ≡ Memory };

    fn from(_: Memory) -> Self {
        AttrError::Memory
    }
}
