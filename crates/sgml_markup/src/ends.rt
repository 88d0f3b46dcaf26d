// Where markup ends.
ghost use Rattle.std.specs.Prelude.{◌≡◌, ◌≤◌, ◌<◌, ◌+◌, ◌^◌, Bool, slice_index, length, None, IfSome, if◌then◌else◌};
ghost use Rattle.sgml_text.specs.NameCharacters.{is_name_character};
ghost use Rattle.sgml_text.specs.Characters.{is_digit};
ghost use Rattle.sgml_markup.specs.Ends.{tag_end, tag_end_past, reference_end, pi_end, ends_with, ends_before, ends_reference, resumed, goes_on_character, end_of};

use crate::kinds::Form;
use memchr::memchr;
use sgml_delim::{Ender, declaration_end, end_after};
use sgml_syntax::Syntax;
use sgml_text::{NameSet, is_quote};

/// How many bytes of the text, which follows the delimiter, belong to markup of this form; none
/// where the text doesn't reach its end. `ended` tells that no more text follows.
pub fn end_of(syntax: &Syntax, form: Form, text: &[u8], ended: bool) -> Option<usize>
    ensures value { result ≡ end_of syntax.now form ended text.now }
    ensures within { IfSome result (λ n. n ≤ length text.now) }
{
    match form {
        Form::StartTag | Form::EndTag => tag_end(syntax.shorttag, text),
        Form::EntityReference | Form::ParameterReference => reference_end(
            &syntax.names,
            text,
            ended,
        ),
        Form::CharacterReference => character_end(&syntax.names, text, ended),
        Form::Instruction => pi_end(text),
        Form::CommentDeclaration | Form::SubsetEnd => end_after(&syntax.names, Ender::Mdc, text),
        Form::SectionStart => end_after(&syntax.names, Ender::Dso, text),
        Form::Declaration => declaration_end(&syntax.names, text),
    }
}

/// How many bytes of the text belong to a tag.
fn tag_end(shorttag: bool, text: &[u8]) -> Option<usize>
    ensures value { result ≡ tag_end shorttag None text.now }
    ensures within { IfSome result (λ n. n ≤ length text.now) }
{
    let mut i = 0;
    'tag: while i < text.len() {
        let b = text[i];
        if ends_with(shorttag, b) {
            return Some(i + 1);
        }
        if ends_before(shorttag, b) {
            return Some(i);
        }
        match after_quoted(text, i) {
            None => return None,
            Some(next) => i = next,
        }
    }
    None
}

fn ends_with(shorttag: bool, b: u8) -> bool
    ensures { result ≡ ends_with shorttag b }
{
    b == b'>' || (shorttag && b == b'/')
}

fn ends_before(shorttag: bool, b: u8) -> bool
    ensures { result ≡ ends_before shorttag b }
{
    shorttag && b == b'<'
}

/// The place after this byte, or after the literal that begins with it.
fn after_quoted(text: &[u8], at: usize) -> Option<usize>
    requires { at < length text.now }
    ensures value { (shorttag : Bool) →
        tag_end_past shorttag at (slice_index text.now at) text.now ≡ resumed shorttag text.now result }
    ensures within { IfSome result (λ next. (at < next) × (next ≤ length text.now)) }
{
    let b = text[at];
    if is_quote(b) {
        match memchr(b, &text[at + 1..]) {
            None => None,
            Some(length) => Some(at + 1 + (length + 1)),
        }
    } else {
        Some(at + 1)
    }
}

/// How many bytes of the text belong to a reference by a name.
fn reference_end(names: &NameSet, text: &[u8], ended: bool) -> Option<usize>
    ensures value { result ≡ reference_end (is_name_character names.now) ended text.now }
    ensures within { IfSome result (λ n. n ≤ length text.now) }
{
    for i in 0..text.len() {
        let b = text[i];
        if !names.goes_on(b) {
            return Some(taken(b, i));
        }
    }
    if ended { Some(text.len()) } else { None }
}

fn taken(b: u8, i: usize) -> usize
    requires { i < 2 ^ 63 }
    ensures { result ≡ (if ends_reference b then i + 1 else i) }
{
    if b == b';' || b == b'\r' { i + 1 } else { i }
}

/// How many bytes of the text belong to a reference to a character.
fn character_end(names: &NameSet, text: &[u8], ended: bool) -> Option<usize>
    ensures value { result ≡ reference_end (goes_on_character names.now text.now) ended text.now }
    ensures within { IfSome result (λ n. n ≤ length text.now) }
{
    match text {
        [] => reference_end(names, text, ended),
        [first, ..] => {
            if first.is_ascii_digit() {
                number_end(text, ended)
            } else {
                reference_end(names, text, ended)
            }
        }
    }
}

/// How many bytes of the text belong to a reference by a number.
fn number_end(text: &[u8], ended: bool) -> Option<usize>
    ensures value { result ≡ reference_end is_digit ended text.now }
    ensures within { IfSome result (λ n. n ≤ length text.now) }
{
    for i in 0..text.len() {
        let b = text[i];
        if !b.is_ascii_digit() {
            return Some(taken(b, i));
        }
    }
    if ended { Some(text.len()) } else { None }
}

/// How many bytes of the text belong to a processing instruction.
fn pi_end(text: &[u8]) -> Option<usize>
    ensures value { result ≡ pi_end text.now }
    ensures within { IfSome result (λ n. n ≤ length text.now) }
{
    match memchr(b'>', text) {
        None => None,
        Some(n) => Some(n + 1),
    }
}
