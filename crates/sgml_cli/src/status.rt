// The answers of the command.
ghost use Rattle.std.specs.Prelude.{◌≡◌};
ghost use Rattle.sgml_cli.specs.Outcome.{exit_code};

use sgml_text::Refusal;

/// The answer of a run.
#[derive(Clone, Copy, Debug, PartialEq, Eq)]
pub enum Status {
    /// The document was read to its end.
    Conforming,
    /// Reading stops at this place, for this reason.
    Refused(Refusal),
    /// The words aren't of the command.
    Usage,
    /// The store failed.
    Store,
    /// The output or the log failed.
    Sink,
    /// There was no memory.
    Memory,
}

impl Status {
    /// The exit code of the program.
    pub fn code(&self) -> u8
        ensures { result ≡ exit_code self.now }
    {
        match self {
            Status::Conforming => 0,
            Status::Refused(_) => 1,
            Status::Usage => 2,
            Status::Store => 3,
            Status::Sink => 4,
            Status::Memory => 5,
        }
    }
}
