// Short reference mapping declarations and short reference use declarations.
ghost use Rattle.std.specs.Prelude.{◌≡◌, ◌∷◌, [], None, IfOk, option_map};
ghost use Rattle.sgml_decl_forms.specs.Maps.{literal_of, name_of, pairs_at, shortref_at, used_map_at, targets_at, usemap_at};

use crate::groups::read_names;
use crate::lists::Pairs;
use crate::words::{literal, named};
use sgml_decl_lexemes::Lexeme;
use sgml_text::{Memory, Name, Names, Text, is_word};
use std::alloc::Global;

/// What a short reference mapping declaration says (11.5): a map's name, and one string or more with
/// the names of their entities, all as they are spelled.
#[derive(Debug, Drop)]
pub struct ShortrefDeclaration {
    pub name: Name,
    pub pairs: Pairs,
}

/// The map that a short reference use declaration puts in force (11.6).
#[derive(Debug, Drop)]
pub enum UsedMap {
    /// `#EMPTY`: no string is a short reference.
    Empty,
    Named(Name),
}

/// What a short reference use declaration says (11.6): a map, and in a document type declaration the
/// element types whose map it is.
#[derive(Debug, Drop)]
pub struct UsemapDeclaration {
    pub map: UsedMap,
    pub targets: Option<Names>,
}

fn literal_of(lexeme: &Lexeme) -> Option<&Text>
    ensures { option_map (λ t. t.now) result ≡ literal_of lexeme.now }
{
    match lexeme {
        Lexeme::Literal(text) => Some(text),
        _ => None,
    }
}

fn name_of(lexeme: &Lexeme) -> Option<&Name>
    ensures { option_map (λ n. n.now) result ≡ name_of lexeme.now }
{
    match lexeme {
        Lexeme::Name(name) => Some(name),
        _ => None,
    }
}

// The strings with their entities behind the first, to the end of the lexemes.
fn read_pairs(
    alloc: Global,
    first: (Text, Name),
    lexemes: &[Lexeme],
) -> Result<Option<Pairs>, Memory>
    ensures { IfOk result (λ r. r ≡ pairs_at (first ∷ []) None lexemes.now) }
{
    let mut pairs = vec![in alloc; first]?;
    let mut string: Option<&Text> = None;
    let mut rest = lexemes;
    'pairs: while let [next, after @ ..] = rest {
        rest = after;
        match string {
            None => {
                let Some(text) = literal_of(next) else {
                    return Ok(None);
                };
                string = Some(text);
            }
            Some(text) => {
                let Some(name) = name_of(next) else {
                    return Ok(None);
                };
                pairs.push((text.copy(alloc)?, name.copy(alloc)?))?;
                string = None;
            }
        }
    }
    match string {
        None => Ok(Some(Pairs::of(pairs))),
        Some(_) => Ok(None),
    }
}

/// A short reference mapping declaration, after its keyword.
#[tactic(auto, unfolding(crate::specs::Maps::shortref_at))]
pub(crate) fn read_shortref(
    alloc: Global,
    lexemes: &[Lexeme],
) -> Result<Option<ShortrefDeclaration>, Memory>
    ensures { IfOk result (λ r. r ≡ shortref_at lexemes.now) }
{
    let Some((name, rest)) = named(lexemes) else {
        return Ok(None);
    };
    let Some((text, rest)) = literal(rest) else {
        return Ok(None);
    };
    let Some((entity, rest)) = named(rest) else {
        return Ok(None);
    };
    let first = (text.copy(alloc)?, entity.copy(alloc)?);
    match read_pairs(alloc, first, rest)? {
        Some(pairs) => Ok(Some(ShortrefDeclaration {
            name: name.copy(alloc)?,
            pairs,
        })),
        None => Ok(None),
    }
}

fn read_used_map(alloc: Global, lexemes: &[Lexeme]) -> Result<Option<(UsedMap, &[Lexeme])>, Memory>
    ensures { IfOk result (λ r. option_map (λ x. (x.0, x.1.now)) r ≡ used_map_at lexemes.now) }
{
    match lexemes {
        [Lexeme::Name(name), rest @ ..] => Ok(Some((UsedMap::Named(name.copy(alloc)?), rest))),
        [Lexeme::Reserved(word), rest @ ..] if is_word(b"EMPTY", word.items()) => {
            Ok(Some((UsedMap::Empty, rest)))
        }
        _ => Ok(None),
    }
}

fn read_targets(alloc: Global, lexemes: &[Lexeme]) -> Result<Option<Option<Names>>, Memory>
    ensures { IfOk result (λ r. r ≡ targets_at lexemes.now) }
{
    if lexemes.is_empty() {
        return Ok(Some(None));
    }
    match read_names(alloc, lexemes)? {
        Some((names, [])) => Ok(Some(Some(names))),
        _ => Ok(None),
    }
}

/// A short reference use declaration, after its keyword.
#[tactic(auto, unfolding(crate::specs::Maps::usemap_at))]
pub(crate) fn read_usemap(
    alloc: Global,
    lexemes: &[Lexeme],
) -> Result<Option<UsemapDeclaration>, Memory>
    ensures { IfOk result (λ r. r ≡ usemap_at lexemes.now) }
{
    let Some((map, rest)) = read_used_map(alloc, lexemes)? else {
        return Ok(None);
    };
    match read_targets(alloc, rest)? {
        Some(targets) => Ok(Some(UsemapDeclaration { map, targets })),
        None => Ok(None),
    }
}
