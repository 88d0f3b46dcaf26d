// The command.
ghost use Rattle.std.specs.Prelude.{◌≡◌, IfOk, codes, map, option_map, string_bytes};
ghost use Rattle.clap.specs.Matches.{first_value, found_of};
ghost use Rattle.sgml_words.specs.Told.{catalog_told, file_told, told};
ghost use Rattle.sgml_words.specs.Uses.{command_of as command_spelled};

use crate::limits::{Limits, limits_given};
use crate::mode::{Mode, mode_given};
use crate::words::matches_of;
use clap::ArgMatches;
use sgml_text::{Memory, Text};
use std::alloc::Global;

/// What the words of the command tell.
#[derive(Debug, Drop)]
pub struct Command {
    pub mode: Mode,
    /// The name of the catalog's file.
    pub catalog: Option<Text>,
    pub limits: Limits,
    /// FILE as it is spelled, for a selfcheck too.
    pub file: Text,
}

/// The command that the words behind the program's name tell. `None`: they are no command.
pub fn command_of(alloc: Global, words: &[String]) -> Result<Option<Command>, Memory>
    ensures { IfOk result (λ found. found ≡ command_spelled (map string_bytes words.now)) }
{
    match matches_of(alloc, words)? {
        Some(matches) => command_told(alloc, &matches),
        None => Ok(None),
    }
}

#[tactic(auto, unfolding(crate::specs::Told::told))]
fn command_told(alloc: Global, matches: &ArgMatches<'_>) -> Result<Option<Command>, Memory>
    ensures { IfOk result (λ found. found ≡ told (first_value (found_of matches.now))) }
{
    let Some(file) = file_given(matches) else {
        return Ok(None);
    };
    let Some(mode) = mode_given(matches, file) else {
        return Ok(None);
    };
    let Some(catalog) = catalog_given(alloc, matches)? else {
        return Ok(None);
    };
    let Some(limits) = limits_given(matches) else {
        return Ok(None);
    };
    Ok(Some(Command {
        mode,
        catalog,
        limits,
        file: Text::copied(alloc, file.as_bytes())?,
    }))
}

fn file_given<'a>(matches: &ArgMatches<'a>) -> Option<&'a str>
    ensures { option_map (λ s. s.now) result ≡ file_told (first_value (found_of matches.now)) }
{
    match matches.get_str("FILE") {
        Some(file) if !file.is_empty() => Some(file),
        _ => None,
    }
}

// `Some(None)`: no catalog is named. `None`: its name is empty.
fn catalog_given(alloc: Global, matches: &ArgMatches<'_>) -> Result<Option<Option<Text>>, Memory>
    ensures { IfOk result (λ found. found ≡ catalog_told (first_value (found_of matches.now))) }
{
    match matches.get_str("catalog") {
        None => Ok(Some(None)),
        Some("") => Ok(None),
        Some(text) => Ok(Some(Some(Text::copied(alloc, text.as_bytes())?))),
    }
}
