// External identifiers and notation declarations.
ghost use Rattle.std.specs.Prelude.{◌≡◌, IfOk, option_map};
ghost use Rattle.sgml_decl_forms.specs.Externals.{optional_literal, public_at, external_at, notation_at};

use crate::words::{is_keyword, literal, named};
use sgml_decl_lexemes::Lexeme;
use sgml_decl_lexemes::entity::External;
use sgml_text::{Memory, Name, Text};
use std::alloc::Global;

/// What a notation declaration says (11.4). The name is as it is spelled.
#[derive(Debug, Drop)]
pub struct NotationDeclaration {
    pub name: Name,
    pub external: External,
}

fn read_optional_literal<'a>(
    alloc: Global,
    lexemes: &'a [Lexeme],
) -> Result<(Option<Text>, &'a [Lexeme]), Memory>
    ensures { IfOk result (λ x. (x.0, x.1.now) ≡ optional_literal lexemes.now) }
{
    match lexemes {
        [Lexeme::Literal(text), rest @ ..] => Ok((Some(text.copy(alloc)?), rest)),
        _ => Ok((None, lexemes)),
    }
}

fn read_public<'a>(
    alloc: Global,
    lexemes: &'a [Lexeme],
) -> Result<Option<(External, &'a [Lexeme])>, Memory>
    ensures { IfOk result (λ r. option_map (λ x. (x.0, x.1.now)) r ≡ public_at lexemes.now) }
{
    let Some((public, rest)) = literal(lexemes) else {
        return Ok(None);
    };
    let public = Some(public.copy(alloc)?);
    let (system, rest) = read_optional_literal(alloc, rest)?;
    Ok(Some((External { public, system }, rest)))
}

/// An external identifier, and what follows it.
pub(crate) fn read_external<'a>(
    alloc: Global,
    lexemes: &'a [Lexeme],
) -> Result<Option<(External, &'a [Lexeme])>, Memory>
    ensures { IfOk result (λ r. option_map (λ x. (x.0, x.1.now)) r ≡ external_at lexemes.now) }
{
    match lexemes {
        [word, rest @ ..] if is_keyword(word, b"SYSTEM") => {
            let (system, rest) = read_optional_literal(alloc, rest)?;
            Ok(Some((
                External {
                    public: None,
                    system,
                },
                rest,
            )))
        }
        [word, rest @ ..] if is_keyword(word, b"PUBLIC") => read_public(alloc, rest),
        _ => Ok(None),
    }
}

/// A notation declaration, after its keyword.
#[tactic(auto, unfolding(crate::specs::Externals::notation_at))]
pub(crate) fn read_notation(
    alloc: Global,
    lexemes: &[Lexeme],
) -> Result<Option<NotationDeclaration>, Memory>
    ensures { IfOk result (λ r. r ≡ notation_at lexemes.now) }
{
    let Some((name, rest)) = named(lexemes) else {
        return Ok(None);
    };
    let Some((external, rest)) = read_external(alloc, rest)? else {
        return Ok(None);
    };
    let name = name.copy(alloc)?;
    match rest {
        [] => Ok(Some(NotationDeclaration { name, external })),
        _ => Ok(None),
    }
}
