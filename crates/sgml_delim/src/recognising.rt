// Which delimiter stands at a place.
ghost use Rattle.std.specs.Prelude.{◌≡◌, ◌≤◌, ◌∷◌, ℕ, List, length, drop};
ghost use Rattle.sgml_delim.specs.Tables.{string, allowed, follows, stands, delims, first_that, is_after_mdo, differs, IsHead, first_bytes, is_among, begins_plain};
ghost use Rattle.sgml_delim.specs.Answers.{Decides, DecidesPrefix, Answers, is_first, answer, undecided};

use crate::delim::{Delim, Mode, Need, Recognised, Verdict};
use crate::tables::{delims_of, is_in_force, need_of, string_of};
use sgml_syntax::Syntax;

/// Which delimiter of the mode stands at `at`: the longest one whose constraint holds (9.6). `net`
/// tells whether NET is in force, and `ended` that no more text follows. Past the text nothing stands.
pub fn recognise(
    syntax: &Syntax,
    mode: Mode,
    net: bool,
    text: &[u8],
    at: usize,
    ended: bool,
) -> Recognised
    ensures { Answers ended (answer syntax.now mode net) (drop at text.now) result }
{
    delimiter_at(syntax, mode, net, &text[at.min(text.len())..], ended)
}

/// Which delimiter of the mode the text begins with.
pub fn delimiter_at(syntax: &Syntax, mode: Mode, net: bool, text: &[u8], ended: bool) -> Recognised
    ensures { Answers ended (answer syntax.now mode net) text.now result }
{
    if begins_plain(text) {
        return Recognised::Plain;
    }
    first_of(syntax, mode, net, delims_of(mode), text, ended)
}

/// Whether the text begins with a byte with which no delimiter begins, as most data does.
fn begins_plain(text: &[u8]) -> bool
    ensures { result ≡ begins_plain text.now }
{
    match text {
        [] => false,
        [b, ..] => !is_first_byte(*b),
    }
}

/// Whether a delimiter begins with this byte.
fn is_first_byte(b: u8) -> bool
    ensures { result ≡ is_among b first_bytes }
{
    match b {
        b'\r' | b'"' | b'#' | b'%' | b'&' | b'\'' => true,
        b'(' | b')' | b'*' | b'+' | b',' | b'-' | b'/' => true,
        b';' | b'<' | b'=' | b'>' | b'?' | b'[' | b']' | b'|' => true,
        _ => false,
    }
}

/// Which of these delimiters, the first of them, the text begins with.
fn first_of(
    syntax: &Syntax,
    mode: Mode,
    net: bool,
    delims: &[Delim],
    text: &[u8],
    ended: bool,
) -> Recognised
    ensures { Answers ended (is_first syntax.now mode net delims.now) text.now result }
{
    match delims {
        [] => Recognised::Plain,
        [delim, more @ ..] if differs(*delim, text) => first_of(
            syntax, mode, net, more, text, ended,
        ),
        [delim, more @ ..] => match standing(syntax, mode, net, *delim, text, ended) {
            Verdict::Holds => Recognised::Found(*delim, string_of(*delim).len()),
            Verdict::Undecided => Recognised::NeedMore,
            Verdict::Fails => first_of(syntax, mode, net, more, text, ended),
        },
    }
}

/// Whether the first byte of the text isn't the delimiter's.
fn differs(delim: Delim, text: &[u8]) -> bool
    ensures { result ≡ differs (string delim) text.now }
{
    match text {
        [] => false,
        [b, ..] => *b != first_byte(delim),
    }
}

fn first_byte(delim: Delim) -> u8
    ensures { IsHead result (string delim) }
{
    match delim {
        Delim::And | Delim::Ero | Delim::Cro => b'&',
        Delim::Com | Delim::Minus => b'-',
        Delim::Dsc | Delim::Msc => b']',
        Delim::Dso => b'[',
        Delim::Etago | Delim::Mdo | Delim::Pio | Delim::Stago => b'<',
        Delim::Grpc => b')',
        Delim::Grpo => b'(',
        Delim::Lit => b'"',
        Delim::Lita => b'\'',
        Delim::Mdc | Delim::Pic | Delim::Tagc => b'>',
        Delim::Net => b'/',
        Delim::Opt => b'?',
        Delim::Or => b'|',
        Delim::Pero => b'%',
        Delim::Plus => b'+',
        Delim::Re => b'\r',
        Delim::Refc => b';',
        Delim::Rep => b'*',
        Delim::Rni => b'#',
        Delim::Seq => b',',
        Delim::Vi => b'=',
    }
}

/// Whether the text begins with this delimiter in its context.
fn standing(
    syntax: &Syntax,
    mode: Mode,
    net: bool,
    delim: Delim,
    text: &[u8],
    ended: bool,
) -> Verdict
    ensures { Decides ended (stands syntax.now mode net delim) text.now result }
{
    if !is_in_force(syntax, mode, net, delim) {
        return Verdict::Fails;
    }
    let string = string_of(delim);
    match prefix(string, text, ended) {
        Verdict::Fails => Verdict::Fails,
        Verdict::Undecided => Verdict::Undecided,
        Verdict::Holds => following(syntax, need_of(mode, delim), &text[string.len()..], ended),
    }
}

/// Whether the text begins with the string.
fn prefix(string: &[u8], text: &[u8], ended: bool) -> Verdict
    ensures { DecidesPrefix ended string.now text.now result }
{
    match string {
        [] => Verdict::Holds,
        [s, string_rest @ ..] => match text {
            [] => undecided(ended),
            [b, text_rest @ ..] => {
                if *s == *b {
                    prefix(string_rest, text_rest, ended)
                } else {
                    Verdict::Fails
                }
            }
        },
    }
}

/// Whether the text begins with what must follow.
fn following(syntax: &Syntax, need: Need, text: &[u8], ended: bool) -> Verdict
    ensures { Decides ended (follows syntax.now need) text.now result }
{
    match need {
        Need::Nothing => Verdict::Holds,
        _ => match text {
            [] => undecided(ended),
            [b] => {
                if is_allowed(syntax, need, *b) {
                    Verdict::Holds
                } else if is_after_mdo(need) && *b == b'-' {
                    undecided(ended)
                } else {
                    Verdict::Fails
                }
            }
            [b, c, ..] => {
                if is_allowed(syntax, need, *b)
                    || (is_after_mdo(need) && *b == b'-' && *c == b'-')
                {
                    Verdict::Holds
                } else {
                    Verdict::Fails
                }
            }
        },
    }
}

/// Whether this byte alone is what must follow.
fn is_allowed(syntax: &Syntax, need: Need, b: u8) -> bool
    ensures { result ≡ allowed syntax.now need b }
{
    match need {
        Need::Nothing => true,
        Need::NameStart => syntax.names.begins(b),
        Need::NameStartOrTagc => syntax.names.begins(b) || (syntax.shorttag && b == b'>'),
        Need::NameStartOrDigit => syntax.names.begins(b) || b.is_ascii_digit(),
        Need::AfterMdo => syntax.names.begins(b) || b == b'[' || b == b'>',
        Need::Mdc => b == b'>',
        Need::Dso => b == b'[',
    }
}

/// At the end of the text there is more to know, unless it is the end.
fn undecided(ended: bool) -> Verdict
    ensures { result ≡ undecided ended }
{
    if ended {
        Verdict::Fails
    } else {
        Verdict::Undecided
    }
}

fn is_after_mdo(need: Need) -> bool
    ensures { result ≡ is_after_mdo need }
{
    match need {
        Need::AfterMdo => true,
        _ => false,
    }
}
