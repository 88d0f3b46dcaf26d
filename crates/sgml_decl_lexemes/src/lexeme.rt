// The lexemes of a declaration.
ghost use Rattle.std.specs.Prelude.{◌≡◌, ◌∷◌, []};
ghost use Rattle.sgml_decl_lexemes.specs.declared.lexeme.Lexeme.TheVariants.{Value};
ghost use Rattle.sgml_decl_lexemes.specs.Readings.{value_of};

use sgml_decl_parts::delim::Delim;
use sgml_text::{ListOf, Name, Text, Units};
use std::alloc::Global;

/// What is left of a declaration without separators, comments and parameter references.
#[derive(Debug, Drop)]
pub enum Lexeme {
    /// A name, as it is spelled.
    Name(Name),
    /// Name characters that are no name.
    Token(Text),
    /// The name after `#`, as it is spelled.
    Reserved(Name),
    /// A parameter literal with its references replaced, or a minimum or system literal (10.1.2,
    /// 10.1.6, 10.1.7).
    Literal(Text),
    /// An attribute value literal with its references replaced (7.9.3).
    Value(Units),
    Sign(Delim),
}

/// The lexemes of a declaration in their order, its keyword first.
pub type Lexemes = ListOf<Lexeme>;

/// The units of the one lexeme that is there.
pub(crate) fn into_value(alloc: Global, lexemes: Lexemes) -> Units
    requires { lexemes ≡ Value (value_of lexemes) ∷ [] }
    ensures { result ≡ value_of lexemes }
{
    let mut lexemes = lexemes.into_items();
    match lexemes.pop() {
        Some(Lexeme::Value(units)) => units,
        _ => Units::of(Vec::new(alloc)),
    }
}
