// Bytes of declarations.
ghost use Rattle.std.specs.Prelude.{◌≡◌, ◌≤◌, ◌+◌, ◌-◌, ◌*◌, ◌<◌, length, min, true};
ghost use Rattle.std.specs.List.{prefix_len};
ghost use Rattle.sgml_text.specs.Characters.{is_digit, is_separator};
ghost use Rattle.sgml_decl_parts.specs.Bytes.{name_length, begins_name, begins_with, begins_digit, reference_end, number_after};

use sgml_text::{NameSet, is_separator};

/// How many name characters stand here; one at least where a name begins.
#[inline(always)]
pub(crate) fn name_length(names: &NameSet, bytes: &[u8]) -> usize
    ensures value { result ≡ name_length names.now bytes.now }
    ensures within { result ≤ length bytes.now }
    ensures some { begins_name names.now bytes.now ≡ true → 0 < result }
{
    names.name_length(bytes)
}

/// How many separators stand here.
#[inline(always)]
pub(crate) fn separators(bytes: &[u8]) -> usize
    ensures value { result ≡ prefix_len is_separator bytes.now }
    ensures within { result ≤ length bytes.now }
{
    bytes.iter().take_while(|b| is_separator(**b)).count()
}

/// How many digits stand here.
pub(crate) fn digits(bytes: &[u8]) -> usize
    ensures value { result ≡ prefix_len is_digit bytes.now }
    ensures within { result ≤ length bytes.now }
{
    bytes.iter().take_while(|b| b.is_ascii_digit()).count()
}

/// Whether a name begins here.
#[inline(always)]
pub fn begins_name(names: &NameSet, bytes: &[u8]) -> bool
    ensures { result ≡ begins_name names.now bytes.now }
{
    match bytes {
        [] => false,
        [b, ..] => names.begins(*b),
    }
}

#[inline(always)]
pub(crate) fn begins_with(c: u8, bytes: &[u8]) -> bool
    ensures { result ≡ begins_with c bytes.now }
{
    match bytes {
        [] => false,
        [b, ..] => *b == c,
    }
}

pub(crate) fn begins_digit(bytes: &[u8]) -> bool
    ensures { result ≡ begins_digit bytes.now }
{
    match bytes {
        [] => false,
        [b, ..] => b.is_ascii_digit(),
    }
}

/// How many bytes end a reference: `;` or a record end, which are taken, or none (9.4.5).
#[inline(always)]
pub(crate) fn reference_end(bytes: &[u8]) -> usize
    ensures value { result ≡ reference_end bytes.now }
    ensures small { result ≤ 1 }
    ensures within { result ≤ length bytes.now }
{
    match bytes {
        [] => 0,
        [b, ..] => { if *b == b';' || *b == b'\r' { 1 } else { 0 } }
    }
}

/// The number of these digits, or 256 where it is past 255 (9.5).
pub(crate) fn number(digits: &[u8]) -> u32
    ensures { result ≡ number_after 0 digits.now }
{
    let mut number = 0u32;
    let mut rest = digits;
    'digits: while let [d, after @ ..] = rest {
        number = with_digit(number, *d);
        rest = after;
    }
    number
}

fn with_digit(number: u32, digit: u8) -> u32
    requires { number ≤ 256 }
    ensures value { result ≡ min 256 (10 * number + (digit - 48)) }
    ensures small { result ≤ 256 }
{
    let digit = if digit < b'0' { 0 } else { digit - b'0' };
    let next = 10 * number + u32::from(digit);
    if next < 256 { next } else { 256 }
}
