// What stands at a place of a declaration.
ghost use Rattle.std.specs.Prelude.{◌≡◌, ◌+◌, ◌<◌, ◌≤◌, ◌^◌, length, drop, IfOk, None, true, [], ◌∷◌};
ghost use Rattle.sgml_decl_parts.specs.Bytes.{begins_name};
ghost use Rattle.sgml_decl_parts.specs.Parts.{entity_reference, percent_at, hash_at, comment_at, mark_of, group_sign, outer_sign, common_at, inner_at, closing_at, minus_at, outer_at, end_at, part_in, part_at, size_of, Fills, Fits};

use crate::bytes::{begins_name, begins_with, name_length, reference_end, separators};
use crate::form::LiteralKind;
use crate::literal::read_in_literal;
use sgml_delim::Delim;
use sgml_text::{NameSet, Unit, is_quote, is_separator};

/// A part of a declaration, with the number of its bytes.
#[derive(Clone, Copy, Debug)]
pub enum Part {
    /// Separators, or a comment.
    Gap(usize),
    Name(usize),
    /// Name characters that are no name.
    Token(usize),
    /// `#`, and a name of so many bytes.
    Reserved(usize),
    Sign(Delim),
    /// A literal begins, with this quote.
    Quote(u8),
    EndQuote,
    /// Bytes of a literal.
    Data(usize),
    /// A character reference: a function character is a `Byte`, a numbered one is `Coded` (9.5).
    Char(usize, Unit),
    /// A character reference to none of the characters.
    NoChar(usize),
    /// A reference to an entity: the bytes of its name, and of all of it.
    Refer(usize, usize),
    /// A text that was opened ends.
    TextEnd,
    /// `>`
    Closing,
}

/// Why no part stands at a place.
#[derive(Clone, Copy, Debug, PartialEq, Eq)]
pub enum PartFault {
    /// A comment, a literal or the declaration doesn't end in its text.
    Unclosed,
    /// Nothing of a declaration stands there.
    Syntax,
}

/// A literal that is open.
#[derive(Clone, Copy, Debug)]
pub struct Opened {
    pub quote: u8,
    pub kind: LiteralKind,
    /// How many texts were on the stack where it began.
    pub height: usize,
}

/// What is known of a place.
#[derive(Clone, Copy, Debug)]
pub struct Here {
    /// The literal that is open.
    pub literal: Option<Opened>,
    /// The text at the top is the one in which that literal began.
    pub in_its_text: bool,
    /// The text at the top is that of the declaration.
    pub at_base: bool,
    pub in_group: bool,
    /// A group ends directly before.
    pub after_group: bool,
}

/// The reference to an entity that stands after its delimiter.
#[inline(always)]
pub(crate) fn entity_reference(names: &NameSet, bytes: &[u8]) -> Part
    requires small { length bytes.now + 4 < 2 ^ 64 }
    requires name { begins_name names.now bytes.now ≡ true }
    ensures part { result ≡ entity_reference names.now bytes.now }
    ensures within { size_of result ≤ 1 + length bytes.now }
    ensures fills { Fills result }
{
    let count = name_length(names, bytes);
    Part::Refer(count, 1 + count + reference_end(&bytes[count..]))
}

#[inline(always)]
fn read_percent(names: &NameSet, bytes: &[u8]) -> Part
    requires { length bytes.now + 4 < 2 ^ 64 }
    ensures part { result ≡ percent_at names.now bytes.now }
    ensures within { size_of result ≤ 1 + length bytes.now }
    ensures fills { Fills result }
{
    if begins_name(names, bytes) {
        entity_reference(names, bytes)
    } else {
        Part::Sign(Delim::Pero)
    }
}

#[inline(always)]
fn read_hash(names: &NameSet, bytes: &[u8]) -> Part
    ensures part { result ≡ hash_at names.now bytes.now }
    ensures within { size_of result ≤ 1 + length bytes.now }
    ensures fills { Fills result }
{
    if begins_name(names, bytes) {
        Part::Reserved(name_length(names, bytes))
    } else {
        Part::Sign(Delim::Rni)
    }
}

fn read_comment(bytes: &[u8]) -> Result<Part, PartFault>
    requires { length bytes.now + 4 < 2 ^ 64 }
    ensures part { result ≡ comment_at 2 bytes.now }
    ensures within { IfOk result (λ p. size_of p ≤ 2 + length bytes.now) }
    ensures fills { IfOk result (λ p. Fills p) }
{
    let mut size = 2;
    let mut rest = bytes;
    'comment: while let [b, after @ ..] = rest {
        if *b == b'-' && begins_with(b'-', after) {
            return Ok(Part::Gap(size + 2));
        }
        size += 1;
        rest = after;
    }
    Err(PartFault::Unclosed)
}

#[inline(always)]
fn mark(b: u8) -> Option<Delim>
    ensures { result ≡ mark_of b }
{
    match b {
        b'?' => Some(Delim::Opt),
        b'*' => Some(Delim::Rep),
        _ => None,
    }
}

#[inline(always)]
fn sign_in_group(b: u8) -> Option<Delim>
    ensures { result ≡ group_sign b }
{
    match b {
        b'(' => Some(Delim::Grpo),
        b')' => Some(Delim::Grpc),
        b',' => Some(Delim::Seq),
        b'|' => Some(Delim::Or),
        b'&' => Some(Delim::And),
        b'+' => Some(Delim::Plus),
        _ => mark(b),
    }
}

#[inline(always)]
fn sign_outside(after_group: bool, b: u8) -> Option<Delim>
    ensures { result ≡ outer_sign after_group b }
{
    match b {
        b'(' => Some(Delim::Grpo),
        b'[' => Some(Delim::Dso),
        b'-' => Some(Delim::Minus),
        b'+' => Some(Delim::Plus),
        _ => { if after_group { mark(b) } else { None } }
    }
}

// What both modes have, where no sign stands.
#[inline(always)]
fn read_common(names: &NameSet, b: u8, bytes: &[u8]) -> Result<Part, PartFault>
    requires { length bytes.now + 4 < 2 ^ 64 }
    ensures part { result ≡ common_at names.now None b bytes.now }
    ensures within { IfOk result (λ p. size_of p ≤ 1 + length bytes.now) }
    ensures fills { IfOk result (λ p. Fills p) }
{
    if is_separator(b) {
        return Ok(Part::Gap(1 + separators(bytes)));
    }
    if names.begins(b) {
        return Ok(Part::Name(1 + name_length(names, bytes)));
    }
    if names.goes_on(b) {
        return Ok(Part::Token(1 + name_length(names, bytes)));
    }
    if b == b'#' {
        return Ok(read_hash(names, bytes));
    }
    if b == b'%' {
        return Ok(read_percent(names, bytes));
    }
    Err(PartFault::Syntax)
}

#[inline(always)]
fn read_in_group(names: &NameSet, b: u8, bytes: &[u8]) -> Result<Part, PartFault>
    requires { length bytes.now + 4 < 2 ^ 64 }
    ensures part { result ≡ inner_at names.now b bytes.now }
    ensures within { IfOk result (λ p. size_of p ≤ 1 + length bytes.now) }
    ensures fills { IfOk result (λ p. Fills p) }
{
    if b == b'-' && begins_with(b'-', bytes) {
        return Err(PartFault::Syntax);
    }
    match sign_in_group(b) {
        Some(sign) => Ok(Part::Sign(sign)),
        None => read_common(names, b, bytes),
    }
}

#[inline(always)]
fn closing(at_base: bool, bytes: &[u8]) -> Result<Part, PartFault>
    ensures part { result ≡ closing_at at_base bytes.now }
    ensures within { IfOk result (λ p. size_of p ≤ 1 + length bytes.now) }
    ensures fits { IfOk result (λ p. Fits at_base (62 ∷ bytes.now) p) }
{
    match bytes {
        [] => {
            if at_base {
                Ok(Part::Closing)
            } else {
                Err(PartFault::Syntax)
            }
        }
        [_, ..] => Err(PartFault::Syntax),
    }
}

#[inline(always)]
fn read_minus(bytes: &[u8]) -> Result<Part, PartFault>
    requires { length bytes.now + 4 < 2 ^ 64 }
    ensures part { result ≡ minus_at bytes.now }
    ensures within { IfOk result (λ p. size_of p ≤ 1 + length bytes.now) }
    ensures fills { IfOk result (λ p. Fills p) }
{
    match bytes {
        [] => Ok(Part::Sign(Delim::Minus)),
        [b, rest @ ..] => {
            if *b == b'-' {
                read_comment(rest)
            } else {
                Ok(Part::Sign(Delim::Minus))
            }
        }
    }
}

#[inline(always)]
fn read_outside(
    names: &NameSet,
    at_base: bool,
    after_group: bool,
    b: u8,
    bytes: &[u8],
) -> Result<Part, PartFault>
    requires { length bytes.now + 4 < 2 ^ 64 }
    ensures part { result ≡ outer_at names.now at_base after_group b bytes.now }
    ensures within { IfOk result (λ p. size_of p ≤ 1 + length bytes.now) }
    ensures fits { IfOk result (λ p. Fits at_base (b ∷ bytes.now) p) }
{
    if b == b'-' {
        return read_minus(bytes);
    }
    if is_quote(b) {
        return Ok(Part::Quote(b));
    }
    if b == b'>' {
        return closing(at_base, bytes);
    }
    match sign_outside(after_group, b) {
        Some(sign) => Ok(Part::Sign(sign)),
        None => read_common(names, b, bytes),
    }
}

#[inline(always)]
fn read_end(here: Here) -> Result<Part, PartFault>
    ensures part { result ≡ end_at here here.literal }
    ensures fits { IfOk result (λ p. Fits here.at_base [] p) }
{
    match here.literal {
        None => {
            if here.at_base {
                Err(PartFault::Unclosed)
            } else {
                Ok(Part::TextEnd)
            }
        }
        Some(_) => {
            if here.at_base || here.in_its_text {
                Err(PartFault::Unclosed)
            } else {
                Ok(Part::TextEnd)
            }
        }
    }
}

/// The part that stands at the front of the bytes that are left of a text. `fold` tells whether
/// names of function characters are folded.
#[inline(always)]
pub fn read_part(names: &NameSet, fold: bool, here: Here, bytes: &[u8]) -> Result<Part, PartFault>
    ensures part { result ≡ part_at names.now fold here bytes.now }
    ensures within { IfOk result (λ p. size_of p ≤ length bytes.now) }
    ensures fits { IfOk result (λ p. Fits here.at_base bytes.now p) }
{
    match bytes {
        [] => read_end(here),
        [b, rest @ ..] => match here.literal {
            Some(opened) => Ok(read_in_literal(names, fold, opened, here.in_its_text, *b, rest)),
            None => {
                if is_separator(*b) {
                    Ok(Part::Gap(1 + separators(rest)))
                } else if here.in_group {
                    read_in_group(names, *b, rest)
                } else {
                    read_outside(names, here.at_base, here.after_group, *b, rest)
                }
            }
        },
    }
}
