// Element declarations.
ghost use Rattle.std.specs.Prelude.{◌≡◌, IfOk, option_map};
ghost use Rattle.sgml_decl_forms.specs.Elements.{omit_at, omits_at, content_at, exclusions_at, inclusions_at, may_have_exceptions, exceptions_at, body_at, element_at};

use crate::groups::{name_group, read_names, read_tokens};
use crate::lists::GroupTokens;
use crate::words::is_keyword;
use sgml_decl_lexemes::Lexeme;
use sgml_delim::Delim;
use sgml_text::{Memory, Names, is_word};
use std::alloc::Global;

/// What may stand in an element, as it is declared (11.2.3, 11.2.4).
#[derive(Drop)]
pub enum ContentForm {
    Empty,
    Cdata,
    Rcdata,
    Any,
    Model(GroupTokens),
}

/// Which tags may be left out (11.2.2).
#[derive(Clone, Copy, Debug, PartialEq, Eq)]
pub struct Omits {
    pub start: bool,
    pub end: bool,
}

/// What may stand in an element, with its exceptions (11.2.5).
#[derive(Drop)]
pub struct ElementBody {
    pub content: ContentForm,
    pub excluded: Names,
    pub included: Names,
}

/// What an element declaration says of the element types that it names. Names are as they are spelled.
#[derive(Drop)]
pub struct ElementDeclaration {
    pub names: Names,
    pub omits: Omits,
    pub body: ElementBody,
}

fn read_omit(lexemes: &[Lexeme]) -> Option<(bool, &[Lexeme])>
    ensures { option_map (λ x. (x.0, x.1.now)) result ≡ omit_at lexemes.now }
{
    match lexemes {
        [Lexeme::Sign(Delim::Minus), rest @ ..] => Some((false, rest)),
        [Lexeme::Name(name), rest @ ..] if is_word(b"O", name.items()) => Some((true, rest)),
        _ => None,
    }
}

fn read_omits(lexemes: &[Lexeme]) -> Option<(Omits, &[Lexeme])>
    ensures { option_map (λ x. (x.0, x.1.now)) result ≡ omits_at lexemes.now }
{
    match read_omit(lexemes) {
        None => Some((
            Omits {
                start: false,
                end: false,
            },
            lexemes,
        )),
        Some((start, rest)) => {
            let (end, rest) = read_omit(rest)?;
            Some((Omits { start, end }, rest))
        }
    }
}

fn read_content<'a>(
    alloc: Global,
    lexemes: &'a [Lexeme],
) -> Result<Option<(ContentForm, &'a [Lexeme])>, Memory>
    ensures { IfOk result (λ r. option_map (λ x. (x.0, x.1.now)) r ≡ content_at lexemes.now) }
{
    match lexemes {
        [] => Ok(None),
        [word, rest @ ..] if is_keyword(word, b"EMPTY") => Ok(Some((ContentForm::Empty, rest))),
        [word, rest @ ..] if is_keyword(word, b"CDATA") => Ok(Some((ContentForm::Cdata, rest))),
        [word, rest @ ..] if is_keyword(word, b"RCDATA") => Ok(Some((ContentForm::Rcdata, rest))),
        [word, rest @ ..] if is_keyword(word, b"ANY") => Ok(Some((ContentForm::Any, rest))),
        _ => {
            let Some((tokens, rest)) = read_tokens(alloc, lexemes)? else {
                return Ok(None);
            };
            Ok(Some((ContentForm::Model(tokens), rest)))
        }
    }
}

fn read_exclusions<'a>(
    alloc: Global,
    lexemes: &'a [Lexeme],
) -> Result<Option<(Names, &'a [Lexeme])>, Memory>
    ensures { IfOk result (λ r. option_map (λ x. (x.0, x.1.now)) r ≡ exclusions_at lexemes.now) }
{
    match lexemes {
        [
            Lexeme::Sign(Delim::Minus),
            Lexeme::Sign(Delim::Grpo),
            rest @ ..,
        ] => name_group(alloc, rest),
        _ => Ok(Some((Names::of(Vec::new(alloc)), lexemes))),
    }
}

fn read_inclusions<'a>(
    alloc: Global,
    lexemes: &'a [Lexeme],
) -> Result<Option<(Names, &'a [Lexeme])>, Memory>
    ensures { IfOk result (λ r. option_map (λ x. (x.0, x.1.now)) r ≡ inclusions_at lexemes.now) }
{
    match lexemes {
        [
            Lexeme::Sign(Delim::Plus),
            Lexeme::Sign(Delim::Grpo),
            rest @ ..,
        ] => name_group(alloc, rest),
        _ => Ok(Some((Names::of(Vec::new(alloc)), lexemes))),
    }
}

fn may_have_exceptions(content: &ContentForm) -> bool
    ensures { result ≡ may_have_exceptions content.now }
{
    matches!(content, ContentForm::Any | ContentForm::Model(_))
}

fn read_exceptions<'a>(
    alloc: Global,
    lexemes: &'a [Lexeme],
) -> Result<Option<(Names, Names, &'a [Lexeme])>, Memory>
    ensures { IfOk result (λ r. option_map (λ x. ((x.0, x.1), x.2.now)) r ≡ exceptions_at lexemes.now) }
{
    let Some((excluded, rest)) = read_exclusions(alloc, lexemes)? else {
        return Ok(None);
    };
    let Some((included, rest)) = read_inclusions(alloc, rest)? else {
        return Ok(None);
    };
    Ok(Some((excluded, included, rest)))
}

fn read_body<'a>(
    alloc: Global,
    lexemes: &'a [Lexeme],
) -> Result<Option<(ElementBody, &'a [Lexeme])>, Memory>
    ensures { IfOk result (λ r. option_map (λ x. (x.0, x.1.now)) r ≡ body_at lexemes.now) }
{
    let Some((content, rest)) = read_content(alloc, lexemes)? else {
        return Ok(None);
    };
    if may_have_exceptions(&content) {
        let Some((excluded, included, rest)) = read_exceptions(alloc, rest)? else {
            return Ok(None);
        };
        Ok(Some((
            ElementBody {
                content,
                excluded,
                included,
            },
            rest,
        )))
    } else {
        let excluded = Names::of(Vec::new(alloc));
        let included = Names::of(Vec::new(alloc));
        Ok(Some((
            ElementBody {
                content,
                excluded,
                included,
            },
            rest,
        )))
    }
}

/// An element declaration, after its keyword.
#[tactic(auto, unfolding(crate::specs::Elements::element_at))]
pub(crate) fn read_element(
    alloc: Global,
    lexemes: &[Lexeme],
) -> Result<Option<ElementDeclaration>, Memory>
    ensures { IfOk result (λ r. r ≡ element_at lexemes.now) }
{
    let Some((names, rest)) = read_names(alloc, lexemes)? else {
        return Ok(None);
    };
    let Some((omits, rest)) = read_omits(rest) else {
        return Ok(None);
    };
    let Some((body, rest)) = read_body(alloc, rest)? else {
        return Ok(None);
    };
    match rest {
        [] => Ok(Some(ElementDeclaration { names, omits, body })),
        _ => Ok(None),
    }
}
