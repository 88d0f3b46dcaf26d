// What is answered of a file of lines.
ghost use Rattle.std.specs.Prelude.{◌≡◌, ◌≤◌, length};
ghost use Rattle.sgml_line_summary.specs.Summary.{refused_in};

use sgml_text::{Place, Reason, Refusal, Text, line_column};

/// What is answered of a file.
#[derive(Debug, Drop)]
pub enum Summarized {
    /// It is lines, and this is their summary.
    Summary(Text),
    /// It is refused there, at this line and column.
    Refused {
        refusal: Refusal,
        line: u64,
        column: u64,
    },
}

/// Why a file was not read.
#[derive(Clone, Copy, Debug, PartialEq, Eq)]
pub enum Failure {
    Store,
    /// No memory was there.
    Memory,
}

/// The refusal at a place in the text of a file.
pub(crate) fn refused_in(text: &[u8], at: u64, reason: Reason) -> Summarized
    requires { at ≤ length text.now }
    ensures { result ≡ refused_in text.now at reason }
{
    let (line, column) = line_column(text, at);
    Summarized::Refused {
        refusal: Refusal {
            place: Place { entity: 0, at },
            reason,
        },
        line,
        column,
    }
}
