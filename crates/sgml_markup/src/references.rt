// References to characters.
ghost use Rattle.std.specs.Prelude.{◌≡◌, ◌≤◌, ℕ, min, length};
ghost use Rattle.sgml_text.specs.NameCharacters.{is_name_character};
ghost use Rattle.sgml_text.specs.Characters.{is_digit};
ghost use Rattle.sgml_markup.specs.References.{run_of, number_of, begins_digit, cased, spells, function_named, by_function, by_number, character_of, too_long};

use crate::kinds::TokenKind;
use sgml_syntax::Syntax;
use sgml_text::{NameSet, Reason};

/// What a reference stands for whose text after its delimiter this is.
pub fn character_of(syntax: &Syntax, text: &[u8]) -> Result<TokenKind, Reason>
    ensures { result ≡ character_of syntax.now text.now }
{
    if begins_digit(text) {
        by_number(number_at(text))
    } else {
        by_function(function_at(syntax, text))
    }
}

fn begins_digit(text: &[u8]) -> bool
    ensures { result ≡ begins_digit text.now }
{
    match text {
        [] => false,
        [b, ..] => b.is_ascii_digit(),
    }
}

/// The number that the digits at the text's head spell, or 256 where it is more.
fn number_at(text: &[u8]) -> u32
    ensures { result ≡ min 256 (number_of (run_of is_digit text.now)) }
{
    let mut number: u32 = 0;
    'digits: for b in text {
        if !b.is_ascii_digit() {
            return number;
        }
        number = up_to_256(10 * number + u32::from(*b - b'0'));
    }
    number
}

fn up_to_256(n: u32) -> u32
    ensures { result ≡ min 256 n }
{
    if n > 256 { 256 } else { n }
}

fn by_number(number: u32) -> Result<TokenKind, Reason>
    ensures { result ≡ by_number number }
{
    if number > 255 {
        Err(Reason::CharNumber)
    } else {
        Ok(TokenKind::CharRef(number as u8))
    }
}

fn by_function(function: Option<u8>) -> Result<TokenKind, Reason>
    ensures { result ≡ by_function function }
{
    match function {
        None => Err(Reason::CharNumber),
        Some(b) => Ok(TokenKind::FunctionRef(b)),
    }
}

/// The function character that the name at the text's head names.
fn function_at(syntax: &Syntax, text: &[u8]) -> Option<u8>
    ensures { result ≡ function_named syntax.now.general_fold (run_of (is_name_character syntax.now.names) text.now) }
{
    function_named(syntax.general_fold, &text[..syntax.names.name_length(text)])
}

fn function_named(folds: bool, name: &[u8]) -> Option<u8>
    ensures { result ≡ function_named folds name.now }
{
    if spells(folds, b"RE", name) {
        Some(b'\r')
    } else if spells(folds, b"RS", name) {
        Some(b'\n')
    } else if spells(folds, b"SPACE", name) {
        Some(b' ')
    } else if spells(folds, b"TAB", name) {
        Some(b'\t')
    } else {
        None
    }
}

/// Whether the name spells the word.
fn spells(folds: bool, word: &[u8], name: &[u8]) -> bool
    ensures { result ≡ spells folds word.now name.now }
{
    match word {
        [] => name.is_empty(),
        [w, word_rest @ ..] => match name {
            [] => false,
            [b, name_rest @ ..] => *w == cased(folds, *b) && spells(folds, word_rest, name_rest),
        },
    }
}

fn cased(folds: bool, b: u8) -> u8
    ensures { result ≡ cased folds b }
{
    if folds && b >= b'a' && b <= b'z' {
        b - 32
    } else {
        b
    }
}

/// Whether a name of so many bytes passes NAMELEN.
pub fn too_long(syntax: &Syntax, length: usize) -> bool
    ensures { result ≡ too_long syntax.now length }
{
    length > syntax.quantities.namelen as usize
}
