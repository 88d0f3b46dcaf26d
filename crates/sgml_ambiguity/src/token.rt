ghost use Rattle.sgml_ambiguity.specs.declared.token.ScanError.TheVariants.{Memory};
ghost use Rattle.std.specs.Prelude.{◌≡◌};

use sgml_text::Name;
use std::alloc::{AllocError, AllocFailed};

/// A primitive token of a model: its number, and its name, or none for `#PCDATA`.
#[derive(Clone, Copy)]
pub struct Token<'a> {
    pub number: u32,
    pub name: Option<&'a Name>,
}

/// What the scan of a term gives.
#[derive(Drop)]
pub struct Part<'a> {
    pub done: bool,
    pub firsts: Vec<Token<'a>>,
    pub lasts: Vec<Token<'a>>,
}

#[derive(Drop)]
pub enum ScanError<'a> {
    Memory,
    Clash(Token<'a>, Token<'a>),
}

impl<'a> From<AllocError> for ScanError<'a> {
    ghost from_gives = { λ _ e. e ≡ Memory };

    fn from(_: AllocError) -> Self {
        ScanError::Memory
    }
}

impl<'a, T: Drop> From<AllocFailed<T>> for ScanError<'a> {
    ghost from_gives = { λ _ e. e ≡ Memory };

    fn from(_: AllocFailed<T>) -> Self {
        ScanError::Memory
    }
}

impl<'a> From<sgml_text::Memory> for ScanError<'a> {
    ghost from_gives = { λ _ e. e ≡ Memory };

    fn from(_: sgml_text::Memory) -> Self {
        ScanError::Memory
    }
}
