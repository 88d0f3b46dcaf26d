// The tokens of a catalog.
ghost use Rattle.std.specs.Prelude.{◌≡◌, IfOk};
ghost use Rattle.sgml_catalog.specs.Tokens.{Spells, end_at};

use crate::item::{Item, item_of, rest_from};
use sgml_text::{Memory, Text};
use std::alloc::Global;

/// A literal, or a word without separators.
#[derive(Debug, Drop)]
pub struct Token {
    /// The place of its first byte.
    pub at: u64,
    pub quoted: bool,
    /// Its bytes, without the quotes.
    pub text: Text,
}

/// How a catalog's text ends.
#[derive(Clone, Copy, Debug, PartialEq, Eq)]
pub struct End {
    /// The text's length, or the place of the literal or comment that doesn't end.
    pub at: u64,
    pub is_whole: bool,
}

/// The tokens that the text spells, and how it ends.
pub(crate) fn tokens_of(alloc: Global, text: &[u8]) -> Result<(Vec<Token>, End), Memory>
    ensures { IfOk result (λ read. Spells 0 text.now read.0.items read.1) }
{
    let mut tokens = Vec::new(alloc);
    let mut at = 0usize;
    loop {
        let rest = rest_from(text, at);
        match item_of(rest) {
            Item::Over => return Ok((tokens, end_at(at, true))),
            Item::Unended => return Ok((tokens, end_at(at, false))),
            Item::Blank(n) => at += n,
            Item::Literal(n) => {
                tokens.push(token_of(alloc, at, true, &rest[1..n + 1])?)?;
                at += n + 2;
            }
            Item::Word(n) => {
                tokens.push(token_of(alloc, at, false, &rest[..n])?)?;
                at += n;
            }
        }
    }
}

fn end_at(at: usize, is_whole: bool) -> End
    ensures { result ≡ end_at at is_whole }
{
    End {
        at: at as u64,
        is_whole,
    }
}

fn token_of(alloc: Global, at: usize, quoted: bool, text: &[u8]) -> Result<Token, Memory>
    ensures { IfOk result (λ token. (token.at ≡ at) × (token.quoted ≡ quoted) × (token.text ≡ text.now)) }
{
    Ok(Token {
        at: at as u64,
        quoted,
        text: Text::of(text.to_vec(alloc)?),
    })
}
