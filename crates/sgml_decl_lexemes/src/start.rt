// The start of a marked section with one keyword, and without references and comments.
ghost use Rattle.std.specs.Prelude.{◌≡◌, ◌≤◌, ◌<◌, ◌+◌, ◌∷◌, [], length, drop, IfOk, IfSome};
ghost use Rattle.std.specs.List.{prefix_len};
ghost use Rattle.sgml_text.specs.Characters.{is_letter, is_separator};
ghost use Rattle.sgml_decl_parts.specs.sgml_delim.declared.delim.Delim.TheVariants.{Dso};
ghost use Rattle.sgml_decl_parts.specs.Bytes.{begins_with};
ghost use Rattle.sgml_decl_lexemes.specs.declared.lexeme.Lexeme.TheVariants as lexeme;
ghost use Rattle.sgml_decl_lexemes.specs.Starts.{IsPlainStart};

use crate::lexeme::{Lexeme, Lexemes};
use crate::top::after;
use sgml_decl_parts::delim::Delim;
use sgml_text::{ListOf, Memory, Name, is_separator};
use std::alloc::Global;

/// How many bytes stand in the start of a section between its `<![` and its `[`.
#[derive(Clone, Copy)]
pub(crate) struct PlainStart {
    /// Separators before the keyword.
    pub(crate) gap: usize,
    /// Letters of the keyword.
    pub(crate) word: usize,
    /// Separators after it.
    pub(crate) space: usize,
}

/// The start of a section of which these bytes follow `<![`, if it is plain: one word of letters between
/// separators, up to `[`.
pub(crate) fn plain_start(bytes: &[u8]) -> Option<PlainStart>
    ensures plain { IfSome result (λ start. IsPlainStart bytes.now start) }
    ensures within { IfSome result (λ start. start.gap + start.word + start.space + 1 ≤ length bytes.now) }
{
    let gap = separators(bytes);
    let named = after(bytes, gap as u64);
    let word = letters(named);
    let spaced = after(named, word as u64);
    let space = separators(spaced);
    if 0 < word && is_dso_at(spaced, space) {
        Some(PlainStart { gap, word, space })
    } else {
        None
    }
}

fn is_dso_at(bytes: &[u8], at: usize) -> bool
    ensures { result ≡ begins_with 91 (drop at bytes.now) }
{
    match after(bytes, at as u64) {
        [] => false,
        [b, ..] => *b == b'[',
    }
}

/// How many separators stand here.
#[inline(always)]
pub(crate) fn separators(bytes: &[u8]) -> usize
    ensures value { result ≡ prefix_len is_separator bytes.now }
    ensures within { result ≤ length bytes.now }
{
    bytes.iter().take_while(|b| is_separator(**b)).count()
}

fn letters(bytes: &[u8]) -> usize
    ensures value { result ≡ prefix_len is_letter bytes.now }
    ensures within { result ≤ length bytes.now }
{
    bytes.iter().take_while(|b| b.is_ascii_alphabetic()).count()
}

/// The lexemes of the start of a section with this keyword.
pub(crate) fn one_keyword(alloc: Global, word: &[u8]) -> Result<Lexemes, Memory>
    requires { 0 < length word.now }
    ensures { IfOk result (λ ds. ds ≡ lexeme.Name word.now ∷ lexeme.Sign Dso ∷ []) }
{
    let keyword = Name::copied(alloc, word)?;
    let mut lexemes = Vec::with_capacity(alloc, 2)?;
    lexemes.push_reserved(Lexeme::Name(keyword));
    lexemes.push_reserved(Lexeme::Sign(Delim::Dso));
    Ok(ListOf::of(lexemes))
}
