// Attribute list declarations.
ghost use Rattle.std.specs.Prelude.{◌≡◌, ◌+◌, [], ◌∷◌, IfOk, length, option_map};
ghost use Rattle.sgml_decl_forms.specs.Attributes.{value_words, default_words, worded, notations_at, keyword_at, declared_at, value_at, reserved_default, default_at, attribute_at, attributes_at, attlist_at};

use crate::groups::{name_group, read_names, token_group};
use crate::lists::AttributeForms;
use crate::words::named;
use sgml_decl_lexemes::Lexeme;
use sgml_decl_lexemes::attr::{Declared, Default};
use sgml_delim::Delim;
use sgml_text::{Memory, Name, Names, Units, is_word};
use std::alloc::Global;

/// An attribute definition (11.3), as it stands: names aren't folded, and the units of a default value
/// aren't interpreted.
#[derive(Debug, Drop)]
pub struct AttributeForm {
    pub name: Name,
    pub declared: Declared,
    pub default: Default,
}

/// What an attribute list declaration says: the element types, and one definition or more.
#[derive(Debug, Drop)]
pub struct AttlistDeclaration {
    pub names: Names,
    pub attributes: AttributeForms,
}

// A declared value that is a keyword.
fn declared_word(word: &[u8]) -> Option<Declared>
    ensures { result ≡ worded value_words word.now }
{
    match () {
        _ if is_word(b"CDATA", word) => Some(Declared::Cdata),
        _ if is_word(b"ENTITY", word) => Some(Declared::Entity),
        _ if is_word(b"ENTITIES", word) => Some(Declared::Entities),
        _ if is_word(b"ID", word) => Some(Declared::Id),
        _ if is_word(b"IDREF", word) => Some(Declared::Idref),
        _ if is_word(b"IDREFS", word) => Some(Declared::Idrefs),
        _ if is_word(b"NAME", word) => Some(Declared::Name),
        _ if is_word(b"NAMES", word) => Some(Declared::Names),
        _ if is_word(b"NMTOKEN", word) => Some(Declared::Nmtoken),
        _ if is_word(b"NMTOKENS", word) => Some(Declared::Nmtokens),
        _ if is_word(b"NUMBER", word) => Some(Declared::Number),
        _ if is_word(b"NUMBERS", word) => Some(Declared::Numbers),
        _ if is_word(b"NUTOKEN", word) => Some(Declared::Nutoken),
        _ if is_word(b"NUTOKENS", word) => Some(Declared::Nutokens),
        _ => None,
    }
}

fn read_notations<'a>(
    alloc: Global,
    lexemes: &'a [Lexeme],
) -> Result<Option<(Declared, &'a [Lexeme])>, Memory>
    ensures { IfOk result (λ r. option_map (λ x. (x.0, x.1.now)) r ≡ notations_at lexemes.now) }
{
    let [Lexeme::Sign(Delim::Grpo), rest @ ..] = lexemes else {
        return Ok(None);
    };
    let Some((names, rest)) = name_group(alloc, rest)? else {
        return Ok(None);
    };
    Ok(Some((Declared::Notation(names), rest)))
}

fn read_keyword<'a>(
    alloc: Global,
    word: &[u8],
    lexemes: &'a [Lexeme],
) -> Result<Option<(Declared, &'a [Lexeme])>, Memory>
    ensures { IfOk result (λ r. option_map (λ x. (x.0, x.1.now)) r ≡ keyword_at word.now lexemes.now) }
{
    if is_word(b"NOTATION", word) {
        return read_notations(alloc, lexemes);
    }
    match declared_word(word) {
        Some(declared) => Ok(Some((declared, lexemes))),
        None => Ok(None),
    }
}

fn read_declared<'a>(
    alloc: Global,
    lexemes: &'a [Lexeme],
) -> Result<Option<(Declared, &'a [Lexeme])>, Memory>
    ensures { IfOk result (λ r. option_map (λ x. (x.0, x.1.now)) r ≡ declared_at lexemes.now) }
{
    match lexemes {
        [Lexeme::Name(word), rest @ ..] => read_keyword(alloc, word.items(), rest),
        [Lexeme::Sign(Delim::Grpo), rest @ ..] => match token_group(alloc, rest)? {
            Some((tokens, rest)) => Ok(Some((Declared::Group(tokens), rest))),
            None => Ok(None),
        },
        _ => Ok(None),
    }
}

fn read_value<'a>(
    alloc: Global,
    lexemes: &'a [Lexeme],
) -> Result<Option<(Units, &'a [Lexeme])>, Memory>
    ensures { IfOk result (λ r. option_map (λ x. (x.0, x.1.now)) r ≡ value_at lexemes.now) }
{
    match lexemes {
        [Lexeme::Value(units), rest @ ..] => Ok(Some((units.copy(alloc)?, rest))),
        [Lexeme::Name(name), rest @ ..] => Ok(Some((Units::of_bytes(alloc, name.items())?, rest))),
        [Lexeme::Token(text), rest @ ..] => Ok(Some((Units::of_bytes(alloc, text.items())?, rest))),
        _ => Ok(None),
    }
}

// A default value that is a keyword.
fn default_word(word: &[u8]) -> Option<Default>
    ensures { result ≡ worded default_words word.now }
{
    match () {
        _ if is_word(b"REQUIRED", word) => Some(Default::Required),
        _ if is_word(b"CURRENT", word) => Some(Default::Current),
        _ if is_word(b"CONREF", word) => Some(Default::Conref),
        _ if is_word(b"IMPLIED", word) => Some(Default::Implied),
        _ => None,
    }
}

fn read_reserved<'a>(
    alloc: Global,
    word: &[u8],
    lexemes: &'a [Lexeme],
) -> Result<Option<(Default, &'a [Lexeme])>, Memory>
    ensures { IfOk result (λ r. option_map (λ x. (x.0, x.1.now)) r ≡ reserved_default word.now lexemes.now) }
{
    if is_word(b"FIXED", word) {
        let Some((units, rest)) = read_value(alloc, lexemes)? else {
            return Ok(None);
        };
        return Ok(Some((Default::Fixed(units), rest)));
    }
    match default_word(word) {
        Some(default) => Ok(Some((default, lexemes))),
        None => Ok(None),
    }
}

fn read_default<'a>(
    alloc: Global,
    lexemes: &'a [Lexeme],
) -> Result<Option<(Default, &'a [Lexeme])>, Memory>
    ensures { IfOk result (λ r. option_map (λ x. (x.0, x.1.now)) r ≡ default_at lexemes.now) }
{
    match lexemes {
        [Lexeme::Reserved(word), rest @ ..] => read_reserved(alloc, word.items(), rest),
        _ => match read_value(alloc, lexemes)? {
            Some((units, rest)) => Ok(Some((Default::Value(units), rest))),
            None => Ok(None),
        },
    }
}

// An attribute definition, and what follows it.
#[tactic(auto, unfolding(crate::specs::Attributes::attribute_at))]
fn read_attribute<'a>(
    alloc: Global,
    lexemes: &'a [Lexeme],
) -> Result<Option<(AttributeForm, &'a [Lexeme])>, Memory>
    ensures { IfOk result (λ r. option_map (λ x. (x.0, x.1.now)) r ≡ attribute_at lexemes.now) }
{
    let Some((name, rest)) = named(lexemes) else {
        return Ok(None);
    };
    let Some((declared, rest)) = read_declared(alloc, rest)? else {
        return Ok(None);
    };
    let Some((default, rest)) = read_default(alloc, rest)? else {
        return Ok(None);
    };
    let name = name.copy(alloc)?;
    Ok(Some((
        AttributeForm {
            name,
            declared,
            default,
        },
        rest,
    )))
}

// The definitions behind the first one, to the end of the lexemes.
fn read_attributes(
    alloc: Global,
    first: AttributeForm,
    lexemes: &[Lexeme],
) -> Result<Option<AttributeForms>, Memory>
    ensures { IfOk result (λ r. r ≡ attributes_at (length lexemes.now) (first ∷ []) lexemes.now) }
{
    // Each has three lexemes at least.
    let mut attributes = Vec::with_capacity(alloc, lexemes.len() / 3 + 1)?;
    attributes.push(first)?;
    let mut rest = lexemes;
    let mut left = lexemes.len();
    'attributes: while left > 0 {
        if rest.is_empty() {
            return Ok(Some(AttributeForms::of(attributes)));
        }
        let Some((next, after)) = read_attribute(alloc, rest)? else {
            return Ok(None);
        };
        attributes.push(next)?;
        rest = after;
        left -= 1;
    }
    if rest.is_empty() {
        return Ok(Some(AttributeForms::of(attributes)));
    }
    Ok(None)
}

/// An attribute list declaration, after its keyword.
#[tactic(auto, unfolding(crate::specs::Attributes::attlist_at))]
pub(crate) fn read_attlist(
    alloc: Global,
    lexemes: &[Lexeme],
) -> Result<Option<AttlistDeclaration>, Memory>
    ensures { IfOk result (λ r. r ≡ attlist_at lexemes.now) }
{
    let Some((names, rest)) = read_names(alloc, lexemes)? else {
        return Ok(None);
    };
    let Some((first, rest)) = read_attribute(alloc, rest)? else {
        return Ok(None);
    };
    match read_attributes(alloc, first, rest)? {
        Some(attributes) => Ok(Some(AttlistDeclaration { names, attributes })),
        None => Ok(None),
    }
}
