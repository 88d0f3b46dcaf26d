// What a byte is where nothing else begins.
ghost use Rattle.std.specs.Prelude.{◌≡◌, MatchBool};
ghost use Rattle.sgml_scan.specs.declared.classes.Run.TheVariants.{Chars, Separators};
ghost use Rattle.sgml_scan.specs.Classes.{Tells, class_of, class_in_content, class_in_subset, class_in_ignored, is_data, run_kind};

use sgml_delim::Mode;
use sgml_markup::TokenKind;
use sgml_text::{is_separator, is_sgml_character};

/// What a stretch is of.
#[derive(Clone, Copy, Debug, PartialEq, Eq)]
pub enum Run {
    Chars,
    Separators,
}

/// What a byte is where no delimiter and no short reference string begins.
#[derive(Clone, Copy, Debug, PartialEq, Eq)]
pub enum Class {
    /// One of a stretch, which is a token.
    Stretch(Run),
    /// A token by itself.
    Single(TokenKind),
    /// No SGML character.
    NonSgml,
}

pub fn class_of(mode: Mode, b: u8) -> Class
    ensures { result ≡ class_of mode b }
{
    match mode {
        Mode::Ign => class_in_ignored(b),
        Mode::Ds => class_in_subset(b),
        _ => class_in_content(b),
    }
}

fn class_in_content(b: u8) -> Class
    ensures { result ≡ class_in_content b }
{
    if is_data(b) {
        Class::Stretch(Run::Chars)
    } else if b == b'\r' {
        Class::Single(TokenKind::Re)
    } else if b == b'\n' {
        Class::Single(TokenKind::Rs)
    } else {
        Class::NonSgml
    }
}

fn class_in_ignored(b: u8) -> Class
    ensures { result ≡ class_in_ignored b }
{
    if is_sgml_character(b) {
        Class::Stretch(Run::Chars)
    } else {
        Class::NonSgml
    }
}

fn class_in_subset(b: u8) -> Class
    ensures { result ≡ class_in_subset b }
{
    if is_separator(b) {
        Class::Stretch(Run::Separators)
    } else if is_sgml_character(b) {
        Class::Stretch(Run::Chars)
    } else {
        Class::NonSgml
    }
}

/// A character of data: an SGML character but RE and RS.
pub fn is_data(b: u8) -> bool
    ensures { result ≡ is_data b }
{
    if b <= 31 { b == b'\t' } else { b != 127 }
}

/// The kind of the token that a stretch is.
pub fn kind_of(run: Run) -> TokenKind
    ensures { result ≡ run_kind run }
{
    match run {
        Run::Chars => TokenKind::Chars,
        Run::Separators => TokenKind::Separators,
    }
}

pub fn same_run(one: Run, other: Run) -> bool
    ensures { Tells result (one ≡ other) }
{
    match one {
        Run::Chars => is_chars(other),
        Run::Separators => !is_chars(other),
    }
}

pub fn is_chars(run: Run) -> bool
    ensures { MatchBool result (run ≡ Chars) (run ≡ Separators) }
{
    match run {
        Run::Chars => true,
        Run::Separators => false,
    }
}
