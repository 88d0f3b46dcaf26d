// What stands at a place of a literal.
ghost use Rattle.std.specs.Prelude.{◌≡◌, ◌+◌, ◌<◌, ◌≤◌, ◌^◌, length, drop, take, map, IfSome};
ghost use Rattle.sgml_text.specs.Characters.{upper};
ghost use Rattle.std.specs.List.{prefix_len};
ghost use Rattle.sgml_decl_parts.specs.Parts.{function_named, function_character, function_of, function_reference, numbered, number_reference, character_at, coded_at, general_at, parameter_at, or_coded, referring_at, is_ordinary, or_data, literal_at, size_of, Fills};

use crate::bytes::{begins_digit, begins_name, digits, name_length, number, reference_end};
use crate::form::LiteralKind;
use crate::part::{Opened, Part, entity_reference};
use sgml_text::{NameSet, Unit, is_word};

fn function_named(name: &[u8]) -> Option<u8>
    ensures { result ≡ function_named name.now }
{
    if name == b"RE".as_slice() {
        Some(13)
    } else if name == b"RS".as_slice() {
        Some(10)
    } else if name == b"SPACE".as_slice() {
        Some(32)
    } else if name == b"TAB".as_slice() {
        Some(9)
    } else {
        None
    }
}

fn function_folded(name: &[u8]) -> Option<u8>
    ensures { result ≡ function_named (map upper name.now) }
{
    if is_word(b"RE", name) {
        Some(13)
    } else if is_word(b"RS", name) {
        Some(10)
    } else if is_word(b"SPACE", name) {
        Some(32)
    } else if is_word(b"TAB", name) {
        Some(9)
    } else {
        None
    }
}

fn function_character(fold: bool, name: &[u8]) -> Option<u8>
    ensures { result ≡ function_character fold name.now }
{
    if fold {
        function_folded(name)
    } else {
        function_named(name)
    }
}

fn function_of(size: usize, character: Option<u8>) -> Part
    requires { 0 < size }
    ensures part { result ≡ function_of size character }
    ensures within { size_of result ≡ size }
    ensures fills { Fills result }
{
    match character {
        None => Part::NoChar(size),
        Some(b) => Part::Char(size, Unit::Byte(b)),
    }
}

fn function_reference(names: &NameSet, fold: bool, bytes: &[u8]) -> Part
    requires { length bytes.now + 4 < 2 ^ 64 }
    ensures part { result ≡ function_reference names.now fold bytes.now }
    ensures within { size_of result ≤ 2 + length bytes.now }
    ensures fills { Fills result }
{
    let count = name_length(names, bytes);
    let size = 2 + count + reference_end(&bytes[count..]);
    function_of(size, function_character(fold, &bytes[..count]))
}

fn numbered(size: usize, number: u32) -> Part
    requires { 0 < size }
    ensures part { result ≡ numbered size number }
    ensures within { size_of result ≡ size }
    ensures fills { Fills result }
{
    if number <= 255 {
        Part::Char(size, Unit::Coded(number as u8))
    } else {
        Part::NoChar(size)
    }
}

fn number_reference(bytes: &[u8]) -> Part
    requires { length bytes.now + 4 < 2 ^ 64 }
    ensures part { result ≡ number_reference bytes.now }
    ensures within { size_of result ≤ 2 + length bytes.now }
    ensures fills { Fills result }
{
    let count = digits(bytes);
    let size = 2 + count + reference_end(&bytes[count..]);
    numbered(size, number(&bytes[..count]))
}

fn read_character(names: &NameSet, fold: bool, bytes: &[u8]) -> Option<Part>
    requires { length bytes.now + 4 < 2 ^ 64 }
    ensures part { result ≡ character_at names.now fold bytes.now }
    ensures within { IfSome result (λ p. size_of p ≤ 2 + length bytes.now) }
    ensures fills { IfSome result (λ p. Fills p) }
{
    if begins_digit(bytes) {
        Some(number_reference(bytes))
    } else if begins_name(names, bytes) {
        Some(function_reference(names, fold, bytes))
    } else {
        None
    }
}

fn read_coded(names: &NameSet, fold: bool, bytes: &[u8]) -> Option<Part>
    requires { length bytes.now + 4 < 2 ^ 64 }
    ensures part { result ≡ coded_at names.now fold bytes.now }
    ensures within { IfSome result (λ p. size_of p ≤ 1 + length bytes.now) }
    ensures fills { IfSome result (λ p. Fills p) }
{
    match bytes {
        [] => None,
        [b, rest @ ..] => {
            if *b == b'#' {
                read_character(names, fold, rest)
            } else {
                None
            }
        }
    }
}

fn read_general(names: &NameSet, b: u8, bytes: &[u8]) -> Option<Part>
    requires { length bytes.now + 4 < 2 ^ 64 }
    ensures part { result ≡ general_at names.now b bytes.now }
    ensures within { IfSome result (λ p. size_of p ≤ 1 + length bytes.now) }
    ensures fills { IfSome result (λ p. Fills p) }
{
    if b == b'&' && begins_name(names, bytes) {
        Some(entity_reference(names, bytes))
    } else {
        None
    }
}

fn read_parameter(names: &NameSet, b: u8, bytes: &[u8]) -> Option<Part>
    requires { length bytes.now + 4 < 2 ^ 64 }
    ensures part { result ≡ parameter_at names.now b bytes.now }
    ensures within { IfSome result (λ p. size_of p ≤ 1 + length bytes.now) }
    ensures fills { IfSome result (λ p. Fills p) }
{
    if b == b'%' && begins_name(names, bytes) {
        Some(entity_reference(names, bytes))
    } else {
        None
    }
}

fn or_coded(names: &NameSet, fold: bool, b: u8, bytes: &[u8], found: Option<Part>) -> Option<Part>
    requires small { length bytes.now + 4 < 2 ^ 64 }
    requires found { IfSome found (λ p. size_of p ≤ 1 + length bytes.now) }
    requires filled { IfSome found (λ p. Fills p) }
    ensures part { result ≡ or_coded names.now fold b bytes.now found }
    ensures within { IfSome result (λ p. size_of p ≤ 1 + length bytes.now) }
    ensures fills { IfSome result (λ p. Fills p) }
{
    match found {
        Some(part) => Some(part),
        None => {
            if b == b'&' {
                read_coded(names, fold, bytes)
            } else {
                None
            }
        }
    }
}

fn read_referring(
    names: &NameSet,
    fold: bool,
    kind: LiteralKind,
    b: u8,
    bytes: &[u8],
) -> Option<Part>
    requires { length bytes.now + 4 < 2 ^ 64 }
    ensures part { result ≡ referring_at names.now fold kind b bytes.now }
    ensures within { IfSome result (λ p. size_of p ≤ 1 + length bytes.now) }
    ensures fills { IfSome result (λ p. Fills p) }
{
    match kind {
        LiteralKind::Parameter => {
            or_coded(names, fold, b, bytes, read_parameter(names, b, bytes))
        }
        LiteralKind::Value => or_coded(names, fold, b, bytes, read_general(names, b, bytes)),
        _ => None,
    }
}

fn is_ordinary(quote: u8, b: u8) -> bool
    ensures { result ≡ is_ordinary quote b }
{
    !(b == quote || b == b'%' || b == b'&')
}

fn ordinary(quote: u8, bytes: &[u8]) -> usize
    ensures value { result ≡ prefix_len (is_ordinary quote) bytes.now }
    ensures within { result ≤ length bytes.now }
{
    bytes.iter().take_while(|b| is_ordinary(quote, **b)).count()
}

fn or_data(quote: u8, bytes: &[u8], found: Option<Part>) -> Part
    requires small { length bytes.now + 4 < 2 ^ 64 }
    requires found { IfSome found (λ p. size_of p ≤ 1 + length bytes.now) }
    requires filled { IfSome found (λ p. Fills p) }
    ensures part { result ≡ or_data quote bytes.now found }
    ensures within { size_of result ≤ 1 + length bytes.now }
    ensures fills { Fills result }
{
    match found {
        Some(part) => part,
        None => Part::Data(1 + ordinary(quote, bytes)),
    }
}

/// The part of a literal that begins with `b`.
pub(crate) fn read_in_literal(
    names: &NameSet,
    fold: bool,
    opened: Opened,
    in_its_text: bool,
    b: u8,
    bytes: &[u8],
) -> Part
    requires { length bytes.now + 4 < 2 ^ 64 }
    ensures part { result ≡ literal_at names.now fold opened in_its_text b bytes.now }
    ensures within { size_of result ≤ 1 + length bytes.now }
    ensures fills { Fills result }
{
    if b == opened.quote && in_its_text {
        return Part::EndQuote;
    }
    or_data(
        opened.quote,
        bytes,
        read_referring(names, fold, opened.kind, b, bytes),
    )
}
