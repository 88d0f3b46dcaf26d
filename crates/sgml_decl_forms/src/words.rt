// Names and literals of declarations: each reader gives what stands at the front, and the lexemes
// after it.
ghost use Rattle.std.specs.Prelude.{◌≡◌, option_map};
ghost use Rattle.sgml_decl_forms.specs.Words.{is_keyword, name_at, literal_at};

use sgml_decl_lexemes::Lexeme;
use sgml_text::{Name, Text, is_word};

/// Whether the lexeme is this keyword, which is given in upper case.
pub(crate) fn is_keyword(lexeme: &Lexeme, word: &[u8]) -> bool
    ensures { result ≡ is_keyword word.now lexeme.now }
{
    match lexeme {
        Lexeme::Name(name) => is_word(word, name.items()),
        _ => false,
    }
}

pub(crate) fn named(lexemes: &[Lexeme]) -> Option<(&Name, &[Lexeme])>
    ensures { option_map (λ r. (r.0.now, r.1.now)) result ≡ name_at lexemes.now }
{
    match lexemes {
        [Lexeme::Name(name), rest @ ..] => Some((name, rest)),
        _ => None,
    }
}

pub(crate) fn literal(lexemes: &[Lexeme]) -> Option<(&Text, &[Lexeme])>
    ensures { option_map (λ r. (r.0.now, r.1.now)) result ≡ literal_at lexemes.now }
{
    match lexemes {
        [Lexeme::Literal(text), rest @ ..] => Some((text, rest)),
        _ => None,
    }
}
