// The features that are left out, and the errors.
use sgml_text::{Memory, Name};

/// A feature that is out of scope.
#[derive(Clone, Copy, Debug, PartialEq, Eq)]
pub enum Feature {
    /// DATATAG is YES (13.5.1).
    Datatag,
    /// RANK is YES (13.5.1).
    Rank,
    /// SIMPLE, IMPLICIT or EXPLICIT is YES (13.5.2).
    Link,
    /// CONCUR is YES (13.5.3).
    Concur,
    /// SUBDOC is YES (13.5.3).
    Subdoc,
    /// Another public syntax than the reference and the core syntax, SWITCHES, or SCOPE INSTANCE (13.3, 13.4.1).
    Other,
}

/// Why an SGML declaration is refused.
#[derive(Debug, Drop)]
pub enum DeclError {
    /// No declaration goes on here: up to this place the text is the longest front that some declaration has.
    BadDeclaration { at: u64 },
    /// The first word or literal that puts the feature out of scope.
    FeatureOut { which: Feature, at: u64 },
    /// The number of a counted quantity, at its place, is 0 or past its greatest. A number past 2^64 - 1 is given as
    /// that.
    QuantityOut { name: Name, number: u64, at: u64 },
    Memory,
}

impl From<Memory> for DeclError {
    ghost use Rattle.std.specs.Prelude.{◌≡◌};
    ghost use Rattle.sgml_sgmldecl.specs.declared.feature.DeclError.TheVariants as errors;

    ghost from_gives = { λ _ e. e ≡ errors.Memory };

    fn from(_: Memory) -> Self {
        DeclError::Memory
    }
}
