// The words as `clap` reads them.
ghost use Rattle.std.specs.Prelude.{◌≡◌, IfOk, IfSome, MatchOption, map, string_bytes, None, false};
ghost use Rattle.clap.specs.Walk.{rule_of};
ghost use Rattle.clap.specs.Simple.{app_of};
ghost use Rattle.sgml_words.specs.Clap.{Shows, command, file_arg, option_arg};
ghost use Rattle.sgml_words.specs.Uses.{given};

use clap::error::ErrorKind;
use clap::{Arg, ArgAction, ArgMatches, Command};
use sgml_text::Memory;
use std::alloc::{AllocError, Global};

fn option<'a>(alloc: Global, name: &'a str) -> Arg<'a>
    ensures rule { rule_of result ≡ option_arg name.entry.now }
    ensures local { result.global ≡ false }
{
    Arg::new(alloc, name).long(name).action(ArgAction::Set)
}

fn file<'a>(alloc: Global) -> Arg<'a>
    ensures rule { rule_of result ≡ file_arg }
    ensures local { result.global ≡ false }
{
    Arg::new(alloc, "FILE")
        .required(true)
        .action(ArgAction::Set)
}

fn sgmlesis<'a>(alloc: Global) -> Result<Command<'a>, AllocError>
    ensures { IfOk result (λ made. app_of made ≡ command) }
{
    Command::new(alloc, "sgmlesis")
        .no_binary_name(true)
        .disable_help_flag(true)
        .arg(option(alloc, "mode"))?
        .arg(option(alloc, "catalog"))?
        .arg(option(alloc, "piece"))?
        .arg(option(alloc, "expand"))?
        .arg(file(alloc))
}

/// What the words give. `None`: they aren't in their places, or one stands too often.
pub(crate) fn matches_of<'a>(
    alloc: Global,
    words: &'a [String],
) -> Result<Option<ArgMatches<'a>>, Memory>
    ensures { IfOk result (λ found. MatchOption found
        (given (map string_bytes words.now) ≡ None)
        (λ m. Shows m (given (map string_bytes words.now)))) }
{
    match sgmlesis(alloc)?.try_get_matches_from(words) {
        Ok(matches) => Ok(Some(matches)),
        Err(error) => {
            if error.kind() == ErrorKind::OutOfMemory {
                Err(Memory)
            } else {
                Ok(None)
            }
        }
    }
}
