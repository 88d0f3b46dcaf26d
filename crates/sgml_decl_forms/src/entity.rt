// Entity declarations.
ghost use Rattle.std.specs.Prelude.{◌≡◌, ◌++◌, IfOk};
ghost use Rattle.sgml_decl_forms.specs.EntityForms.{data_kind_of, external_body, internal_of, outside_at, value_at, space_at, entity_at};

use crate::external::read_external;
use crate::words::{is_keyword, named};
use sgml_decl_lexemes::Lexeme;
use sgml_decl_lexemes::entity::{Body, External, Space};
use sgml_delim::Delim;
use sgml_text::{DataKind, Memory, Name, Text};
use std::alloc::Global;

/// What an entity declaration says (10.5). The name is as it is spelled.
#[derive(Debug, Drop)]
pub struct EntityDeclaration {
    pub space: Space,
    pub name: Name,
    pub body: Body,
}

fn data_kind(lexeme: &Lexeme) -> Option<DataKind>
    ensures { result ≡ data_kind_of lexeme.now }
{
    if is_keyword(lexeme, b"CDATA") {
        Some(DataKind::Cdata)
    } else if is_keyword(lexeme, b"NDATA") {
        Some(DataKind::Ndata)
    } else if is_keyword(lexeme, b"SDATA") {
        Some(DataKind::Sdata)
    } else {
        None
    }
}

fn read_external_body(
    alloc: Global,
    external: External,
    lexemes: &[Lexeme],
) -> Result<Option<Body>, Memory>
    ensures { IfOk result (λ r. r ≡ external_body external lexemes.now) }
{
    let [first, rest @ ..] = lexemes else {
        return Ok(Some(Body::External(external)));
    };
    let Some(kind) = data_kind(first) else {
        return Ok(None);
    };
    let Some((notation, rest)) = named(rest) else {
        return Ok(None);
    };
    let notation = notation.copy(alloc)?;
    match rest {
        [] => Ok(Some(Body::ExternalData {
            kind,
            external,
            notation,
        })),
        _ => Ok(None),
    }
}

fn bracketed(alloc: Global, before: &[u8], text: &Text, after: &[u8]) -> Result<Body, Memory>
    ensures { IfOk result (λ b. b ≡ Body.Sgml (before.now ++ text.now ++ after.now)) }
{
    let mut items = before.to_vec(alloc)?;
    items.extend_from_slice(text.items())?;
    items.extend_from_slice(after)?;
    Ok(Body::Sgml(Text::of(items)))
}

fn read_internal(alloc: Global, word: &Lexeme, text: &Text) -> Result<Option<Body>, Memory>
    ensures { IfOk result (λ r. r ≡ internal_of word.now text.now) }
{
    if is_keyword(word, b"CDATA") {
        return Ok(Some(Body::Cdata(text.copy(alloc)?)));
    }
    if is_keyword(word, b"SDATA") {
        return Ok(Some(Body::Sdata(text.copy(alloc)?)));
    }
    if is_keyword(word, b"PI") {
        return Ok(Some(Body::Pi(text.copy(alloc)?)));
    }
    if is_keyword(word, b"STARTTAG") {
        return Ok(Some(bracketed(alloc, b"<", text, b">")?));
    }
    if is_keyword(word, b"ENDTAG") {
        return Ok(Some(bracketed(alloc, b"</", text, b">")?));
    }
    if is_keyword(word, b"MS") {
        return Ok(Some(bracketed(alloc, b"<![", text, b"]]>")?));
    }
    if is_keyword(word, b"MD") {
        return Ok(Some(bracketed(alloc, b"<!", text, b">")?));
    }
    Ok(None)
}

fn read_outside(alloc: Global, lexemes: &[Lexeme]) -> Result<Option<Body>, Memory>
    ensures { IfOk result (λ r. r ≡ outside_at lexemes.now) }
{
    let Some((external, rest)) = read_external(alloc, lexemes)? else {
        return Ok(None);
    };
    read_external_body(alloc, external, rest)
}

fn read_value(alloc: Global, lexemes: &[Lexeme]) -> Result<Option<Body>, Memory>
    ensures { IfOk result (λ r. r ≡ value_at lexemes.now) }
{
    match lexemes {
        [Lexeme::Literal(text)] => Ok(Some(Body::Sgml(text.copy(alloc)?))),
        [word, Lexeme::Literal(text)] => match read_internal(alloc, word, text)? {
            Some(body) => Ok(Some(body)),
            None => read_outside(alloc, lexemes),
        },
        _ => read_outside(alloc, lexemes),
    }
}

fn read_space(lexemes: &[Lexeme]) -> (Space, &[Lexeme])
    ensures { (result.0, result.1.now) ≡ space_at lexemes.now }
{
    match lexemes {
        [Lexeme::Sign(Delim::Pero), rest @ ..] => (Space::Parameter, rest),
        _ => (Space::General, lexemes),
    }
}

/// An entity declaration, after its keyword.
#[tactic(auto, unfolding(crate::specs::EntityForms::entity_at))]
pub(crate) fn read_entity(
    alloc: Global,
    lexemes: &[Lexeme],
) -> Result<Option<EntityDeclaration>, Memory>
    ensures { IfOk result (λ r. r ≡ entity_at lexemes.now) }
{
    let (space, rest) = read_space(lexemes);
    let Some((name, rest)) = named(rest) else {
        return Ok(None);
    };
    let Some(body) = read_value(alloc, rest)? else {
        return Ok(None);
    };
    let name = name.copy(alloc)?;
    Ok(Some(EntityDeclaration { space, name, body }))
}
