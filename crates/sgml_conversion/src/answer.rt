// What is answered of a document.
ghost use Rattle.std.specs.Prelude.{◌≡◌};
ghost use Rattle.sgml_conversion.specs.Failing.{failure_of};

use sgml_source::{Position, SourceError};
use sgml_text::Refusal;

/// How a document was read to its end, or to where nothing more is read.
#[derive(Debug, Drop)]
pub enum Outcome {
    /// To its end, and its identifiers agree.
    Conforming,
    /// Up to there, with the position of that place; or to its end, and its identifiers don't agree there.
    Refused(Refusal, Position),
    /// There is no such file.
    Absent,
}

/// The same of a document that is there, before a position is looked up.
#[derive(Clone, Copy, Debug, PartialEq, Eq)]
pub(crate) enum Ending {
    Conforming,
    Refused(Refusal),
}

/// Why nothing more was read or written. The sink has taken a front of the lines.
#[derive(Clone, Copy, Debug, PartialEq, Eq)]
pub enum Failure {
    Store,
    Sink,
    /// No memory was there.
    Memory,
}

/// The same of a document that isn't read on.
pub(crate) fn failure_of(error: SourceError) -> Failure
    ensures { result ≡ failure_of error }
{
    match error {
        SourceError::Store => Failure::Store,
        SourceError::Memory => Failure::Memory,
    }
}
