// What the command is to do.
ghost use Rattle.std.specs.Prelude.{◌≡◌};
ghost use Rattle.clap.specs.Matches.{first_value, found_of};
ghost use Rattle.sgml_words.specs.Told.{mode_named, mode_told};

use crate::number::selfcheck_number;
use clap::ArgMatches;

/// What the command is to do.
#[derive(Clone, Copy, Debug, PartialEq, Eq)]
pub enum Mode {
    /// Write the lines of the document.
    Esis,
    /// Write the document with all its tags.
    Full,
    /// Write no line.
    Check,
    /// Read FILE as a file of lines.
    Lines,
    /// Read the made document of this number, 1 to 100,000.
    Selfcheck { number: u32 },
}

// The mode of this name, for this FILE.
fn mode_of(name: &str, file: &str) -> Option<Mode>
    ensures { result ≡ mode_named name.now file.now }
{
    match name {
        "esis" => Some(Mode::Esis),
        "full" => Some(Mode::Full),
        "check" => Some(Mode::Check),
        "lines" => Some(Mode::Lines),
        "selfcheck" => Some(Mode::Selfcheck {
            number: selfcheck_number(file)?,
        }),
        _ => None,
    }
}

/// The mode, for this FILE.
pub(crate) fn mode_given(matches: &ArgMatches<'_>, file: &str) -> Option<Mode>
    ensures { result ≡ mode_told file.now (first_value (found_of matches.now)) }
{
    match matches.get_str("mode") {
        Some(name) => mode_of(name, file),
        None => Some(Mode::Esis),
    }
}
