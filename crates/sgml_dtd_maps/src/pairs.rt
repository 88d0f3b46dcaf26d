// The strings of a short reference mapping declaration.
ghost use Rattle.std.specs.Prelude.{◌≡◌, [], None, is_some, option_map, IfOk};
ghost use Rattle.std.specs.Str.{bytes_eq};
ghost use Rattle.sgml_shortref.specs.Strings.{strings};
ghost use Rattle.sgml_shortref.specs.Maps.{entity_in};
ghost use Rattle.sgml_dtd_maps.specs.Written.{written_from, string_of, pair_of, pairs_in};

use sgml_names::{entity_name, general_name};
use sgml_syntax::Syntax;
use sgml_text::{Memory, Name, Text};
use std::alloc::Global;

fn is(text: &[u8], string: &[u8]) -> bool
    ensures { result ≡ bytes_eq text.now string.now }
{
    text == string
}

// The number of the string that is written so.
fn string_number(text: &[u8]) -> Option<u8>
    ensures { result ≡ written_from 0 strings text.now }
{
    match () {
        _ if is(text, b"\t") => Some(0),
        _ if is(text, b"\r") => Some(1),
        _ if is(text, b"\n") => Some(2),
        _ if is(text, b"\nB") => Some(3),
        _ if is(text, b"\n\r") => Some(4),
        _ if is(text, b"\nB\r") => Some(5),
        _ if is(text, b"B\r") => Some(6),
        _ if is(text, b" ") => Some(7),
        _ if is(text, b"BB") => Some(8),
        _ if is(text, b"\"") => Some(9),
        _ if is(text, b"#") => Some(10),
        _ if is(text, b"%") => Some(11),
        _ if is(text, b"'") => Some(12),
        _ if is(text, b"(") => Some(13),
        _ if is(text, b")") => Some(14),
        _ if is(text, b"*") => Some(15),
        _ if is(text, b"+") => Some(16),
        _ if is(text, b",") => Some(17),
        _ if is(text, b"-") => Some(18),
        _ if is(text, b"--") => Some(19),
        _ if is(text, b":") => Some(20),
        _ if is(text, b";") => Some(21),
        _ if is(text, b"=") => Some(22),
        _ if is(text, b"@") => Some(23),
        _ if is(text, b"[") => Some(24),
        _ if is(text, b"]") => Some(25),
        _ if is(text, b"^") => Some(26),
        _ if is(text, b"_") => Some(27),
        _ if is(text, b"{") => Some(28),
        _ if is(text, b"|") => Some(29),
        _ if is(text, b"}") => Some(30),
        _ if is(text, b"~") => Some(31),
        _ => None,
    }
}

fn string_of(alloc: Global, syntax: &Syntax, text: &[u8]) -> Result<Option<u8>, Memory>
    ensures { IfOk result (λ n. n ≡ string_of syntax.now text.now) }
{
    if !syntax.shortrefs || text.is_empty() {
        return Ok(None);
    }
    let name = general_name(alloc, syntax, text)?;
    Ok(string_number(name.items()))
}

fn pair_of(
    alloc: Global,
    syntax: &Syntax,
    pair: &(Text, Name),
) -> Result<Option<(u8, Name)>, Memory>
    ensures { IfOk result (λ p. p ≡ pair_of syntax.now pair.now) }
{
    match string_of(alloc, syntax, pair.0.items())? {
        Some(number) => Ok(Some((number, entity_name(alloc, syntax, pair.1.items())?))),
        None => Ok(None),
    }
}

// Whether a string was there. There are no more of them than strings.
fn is_mapped(pairs: &[(u8, Name)], number: u8) -> bool
    ensures { result ≡ is_some (entity_in pairs.now number) }
{
    let mut rest = pairs;
    'pairs: while let [pair, after @ ..] = rest {
        if pair.0 == number {
            return true;
        }
        rest = after;
    }
    false
}

/// The strings by number with their entities, unless a literal is none of the strings, or one that
/// stood before.
pub(crate) fn pairs_in(
    alloc: Global,
    syntax: &Syntax,
    pairs: &[(Text, Name)],
) -> Result<Option<Vec<(u8, Name)>>, Memory>
    ensures { IfOk result (λ r. option_map (λ v. v.items) r ≡ pairs_in syntax.now [] pairs.now) }
{
    let mut done = Vec::with_capacity(alloc, pairs.len())?;
    let mut rest = pairs;
    'pairs: while let [pair, after @ ..] = rest {
        let Some(pair) = pair_of(alloc, syntax, pair)? else {
            return Ok(None);
        };
        if is_mapped(&done, pair.0) {
            return Ok(None);
        }
        done.push(pair)?;
        rest = after;
    }
    Ok(Some(done))
}
