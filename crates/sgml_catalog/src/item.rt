// What stands first in a catalog's text.
ghost use Rattle.std.specs.Prelude.{◌≡◌, ◌+◌, ◌<◌, ◌≤◌, ◌^◌, ◌==◌, not, drop, length, position, IfSome};
ghost use Rattle.sgml_catalog.specs.Tokens.{item_of, comment_of, literal_of, before_dashes, begins_comment};
ghost use Rattle.sgml_catalog.specs.Fits.{Fits};
ghost use Rattle.sgml_text.specs.Characters.{is_separator};
ghost use Rattle.std.specs.List.{prefix_len};

use sgml_text::{is_quote, is_separator};

/// What stands first in a catalog's text, with its size.
#[derive(Clone, Copy, Debug, PartialEq, Eq)]
pub enum Item {
    Over,
    /// This many bytes that part tokens: a separator, or a comment.
    Blank(usize),
    /// A literal with this many bytes between its quotes.
    Literal(usize),
    /// A word of this many bytes.
    Word(usize),
    /// A literal or comment that doesn't end.
    Unended,
}

pub(crate) fn item_of(text: &[u8]) -> Item
    ensures item { result ≡ item_of text.now }
    ensures fits { Fits result (length text.now) }
{
    match text {
        [] => Item::Over,
        [b, rest @ ..] => {
            if is_separator(*b) {
                Item::Blank(1)
            } else if begins_comment(text) {
                comment_of(before_dashes(&rest[1..]))
            } else if is_quote(*b) {
                literal_of(before_byte(*b, rest))
            } else {
                Item::Word(word_size(text))
            }
        }
    }
}

fn comment_of(size: Option<usize>) -> Item
    requires { IfSome size (λ n. n < 2 ^ 63) }
    ensures { result ≡ comment_of size }
{
    match size {
        Some(n) => Item::Blank(n + 4),
        None => Item::Unended,
    }
}

fn literal_of(size: Option<usize>) -> Item
    ensures { result ≡ literal_of size }
{
    match size {
        Some(n) => Item::Literal(n),
        None => Item::Unended,
    }
}

fn begins_comment(text: &[u8]) -> bool
    ensures { result ≡ begins_comment text.now }
{
    match text {
        [a, b, ..] => *a == b'-' && *b == b'-',
        _ => false,
    }
}

/// How many bytes stand before the first `--`.
fn before_dashes(text: &[u8]) -> Option<usize>
    ensures value { result ≡ before_dashes text.now }
    ensures within { IfSome result (λ n. n + 2 ≤ length text.now) }
{
    for at in 0..text.len() {
        if begins_comment(rest_from(text, at)) {
            return Some(at);
        }
    }
    None
}

/// How many bytes stand before the first separator.
fn word_size(text: &[u8]) -> usize
    ensures value { result ≡ prefix_len (λ x. not (is_separator x)) text.now }
    ensures within { result ≤ length text.now }
{
    text.iter().take_while(|x| !is_separator(**x)).count()
}

/// How many bytes stand before the first of this byte.
fn before_byte(q: u8, text: &[u8]) -> Option<usize>
    ensures value { result ≡ position (λ b. b == q) text.now }
    ensures within { IfSome result (λ n. n < length text.now) }
{
    text.iter().position(|b| *b == q)
}

pub(crate) fn rest_from(text: &[u8], at: usize) -> &[u8]
    requires { at ≤ length text.now }
    ensures { result.now ≡ drop at text.now }
{
    &text[at..]
}
