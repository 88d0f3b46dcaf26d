// References in attribute value literals.
ghost use Rattle.std.specs.Prelude.{◌≡◌, ◌≤◌, ◌∷◌, length, drop, true, false, Some, IsTrue};
ghost use Rattle.sgml_delim.specs.Tables.{string};
ghost use Rattle.sgml_markup.specs.References.{has_wrong_number, has_wrong_length, wrong_number, wrong_length, is_err, character_of, somewhere, in_literal};
ghost use Rattle.sgml_markup.specs.QuickTags.{begins_sgml, IsFine};

use crate::references::{character_of, too_long};
use sgml_delim::{Delim, Mode, Recognised, delimiter_at};
use sgml_syntax::Syntax;
use sgml_text::is_sgml_character;

/// Whether the literal has SGML characters alone, and neither a reference to a character that isn't
/// there nor one by a name that passes NAMELEN.
pub fn is_fine(syntax: &Syntax, text: &[u8]) -> bool
    ensures { IsTrue result → IsFine syntax.now text.now }
{
    for i in 0..text.len() {
        if !is_fine_at(syntax, &text[i..]) {
            return false;
        }
    }
    true
}

/// The same of what the text begins with.
fn is_fine_at(syntax: &Syntax, text: &[u8]) -> bool
    ensures sgml { IsTrue result → begins_sgml text.now ≡ true }
    ensures number { IsTrue result → wrong_number syntax.now (in_literal syntax.now text.now) text.now ≡ false }
    ensures length { IsTrue result → wrong_length syntax.now (in_literal syntax.now text.now) text.now ≡ false }
{
    begins_sgml(text) && !is_wrong_number(syntax, text) && !is_wrong_length(syntax, text)
}

fn begins_sgml(text: &[u8]) -> bool
    ensures { result ≡ begins_sgml text.now }
{
    match text {
        [] => true,
        [b, ..] => is_sgml_character(*b),
    }
}

/// Whether the literal refers to a character that isn't there (9.5).
pub fn has_wrong_number(syntax: &Syntax, text: &[u8]) -> bool
    ensures { result ≡ has_wrong_number syntax.now text.now }
{
    for i in 0..text.len() {
        if is_wrong_number(syntax, &text[i..]) {
            return true;
        }
    }
    false
}

/// Whether the literal refers by a name that passes NAMELEN (13.4.8).
pub fn has_wrong_length(syntax: &Syntax, text: &[u8]) -> bool
    ensures { result ≡ has_wrong_length syntax.now text.now }
{
    for i in 0..text.len() {
        if is_wrong_length(syntax, &text[i..]) {
            return true;
        }
    }
    false
}

fn is_wrong_number(syntax: &Syntax, text: &[u8]) -> bool
    ensures { result ≡ wrong_number syntax.now (in_literal syntax.now text.now) text.now }
{
    match text {
        [] => false,
        [b, ..] => {
            if *b == b'&' {
                is_reference_wrong_number(syntax, text)
            } else {
                false
            }
        }
    }
}

fn is_reference_wrong_number(syntax: &Syntax, text: &[u8]) -> bool
    ensures { result ≡ wrong_number syntax.now (in_literal syntax.now text.now) text.now }
{
    match delimiter_at(syntax, Mode::Lit, false, text, true) {
        Recognised::Found(delim, _) => number_wrong_at(syntax, delim, text),
        Recognised::Plain => false,
        Recognised::NeedMore => false,
    }
}

fn number_wrong_at(syntax: &Syntax, delim: Delim, text: &[u8]) -> bool
    requires { length (string delim) ≤ length text.now }
    ensures { result ≡ wrong_number syntax.now (Some delim) text.now }
{
    match delim {
        Delim::Cro => is_no_character(syntax, &text[2..]),
        _ => false,
    }
}

fn is_no_character(syntax: &Syntax, text: &[u8]) -> bool
    ensures { result ≡ is_err (character_of syntax.now text.now) }
{
    match character_of(syntax, text) {
        Ok(_) => false,
        Err(_) => true,
    }
}

fn is_wrong_length(syntax: &Syntax, text: &[u8]) -> bool
    ensures { result ≡ wrong_length syntax.now (in_literal syntax.now text.now) text.now }
{
    match text {
        [] => false,
        [b, ..] => {
            if *b == b'&' {
                is_reference_wrong_length(syntax, text)
            } else {
                false
            }
        }
    }
}

fn is_reference_wrong_length(syntax: &Syntax, text: &[u8]) -> bool
    ensures { result ≡ wrong_length syntax.now (in_literal syntax.now text.now) text.now }
{
    match delimiter_at(syntax, Mode::Lit, false, text, true) {
        Recognised::Found(delim, _) => length_wrong_at(syntax, delim, text),
        Recognised::Plain => false,
        Recognised::NeedMore => false,
    }
}

fn length_wrong_at(syntax: &Syntax, delim: Delim, text: &[u8]) -> bool
    requires { length (string delim) ≤ length text.now }
    ensures { result ≡ wrong_length syntax.now (Some delim) text.now }
{
    match delim {
        Delim::Ero => too_long(syntax, syntax.names.name_length(&text[1..])),
        _ => false,
    }
}
