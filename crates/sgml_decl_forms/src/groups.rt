// Name groups, name token groups and model groups.
ghost use Rattle.std.specs.Prelude.{◌≡◌, ◌<◌, ◌^◌, ◌∷◌, [], IfOk, IfSome, length, option_map, None, Some, true, false};
ghost use Rattle.sgml_decl_forms.specs.Groups.{member_of, closed_by, connector_of, names_at, more_members, name_group_at, token_group_at, sign_token, token_of, level_after, tokens_at, mark_at, group_at};
ghost use Rattle.sgml_decl_lexemes.specs.decl_parts.Forms.{connects, is_grpc};

use crate::lists::GroupTokens;
use sgml_decl_lexemes::Lexeme;
use sgml_delim::Delim;
use sgml_model::GroupToken;
use sgml_text::{Memory, Name, Names, is_word};
use std::alloc::Global;

fn may_connect(connector: Option<Delim>, next: Delim) -> bool
    ensures { result ≡ connects connector next }
{
    match (connector, next) {
        (None, Delim::Seq | Delim::Or | Delim::And) => true,
        (Some(Delim::Seq), Delim::Seq) => true,
        (Some(Delim::Or), Delim::Or) => true,
        (Some(Delim::And), Delim::And) => true,
        _ => false,
    }
}

fn is_close(sign: Delim) -> bool
    ensures { result ≡ is_grpc sign }
{
    matches!(sign, Delim::Grpc)
}

// A member of a name group, or of a name token group.
fn member_of(tokens: bool, lexeme: &Lexeme) -> Option<&[u8]>
    ensures member { option_map (λ bytes. bytes.now) result ≡ member_of tokens lexeme.now }
    ensures some { IfSome result (λ bytes. 0 < length bytes.now) }
{
    match lexeme {
        Lexeme::Name(name) => Some(name.items()),
        Lexeme::Token(text) if tokens && !text.items().is_empty() => Some(text.items()),
        _ => None,
    }
}

fn is_closed_by(lexeme: &Lexeme) -> bool
    ensures { result ≡ closed_by lexeme.now }
{
    match lexeme {
        Lexeme::Sign(sign) => is_close(*sign),
        _ => false,
    }
}

// The connector that the lexeme is, if it may stand here.
fn connector_of(connector: Option<Delim>, lexeme: &Lexeme) -> Option<Delim>
    ensures { result ≡ connector_of connector lexeme.now }
{
    match lexeme {
        Lexeme::Sign(sign) if may_connect(connector, *sign) => Some(*sign),
        _ => None,
    }
}

fn name_of(alloc: Global, bytes: &[u8]) -> Result<Name, Memory>
    requires { 0 < length bytes.now }
    ensures { IfOk result (λ name. name ≡ bytes.now) }
{
    Ok(Name::copied(alloc, bytes)?)
}

/// The members of a group behind its `(`, and what follows its `)`: names, or name tokens.
fn members<'a>(
    alloc: Global,
    tokens: bool,
    lexemes: &'a [Lexeme],
) -> Result<Option<(Names, &'a [Lexeme])>, Memory>
    ensures { IfOk result (λ r. option_map (λ x. (x.0, x.1.now)) r ≡ more_members tokens [] None true lexemes.now) }
{
    let mut names = Vec::new(alloc);
    let mut connector = None;
    let mut due = true;
    let mut rest = lexemes;
    'members: while let [first, after @ ..] = rest {
        rest = after;
        if due {
            let Some(bytes) = member_of(tokens, first) else {
                return Ok(None);
            };
            names.push(name_of(alloc, bytes)?)?;
            due = false;
        } else {
            if is_closed_by(first) {
                return Ok(Some((Names::of(names), rest)));
            }
            let Some(sign) = connector_of(connector, first) else {
                return Ok(None);
            };
            connector = Some(sign);
            due = true;
        }
    }
    Ok(None)
}

/// A group of names behind its `(`.
pub(crate) fn name_group<'a>(
    alloc: Global,
    lexemes: &'a [Lexeme],
) -> Result<Option<(Names, &'a [Lexeme])>, Memory>
    ensures { IfOk result (λ r. option_map (λ x. (x.0, x.1.now)) r ≡ name_group_at lexemes.now) }
{
    members(alloc, false, lexemes)
}

/// A group of name tokens behind its `(`.
pub(crate) fn token_group<'a>(
    alloc: Global,
    lexemes: &'a [Lexeme],
) -> Result<Option<(Names, &'a [Lexeme])>, Memory>
    ensures { IfOk result (λ r. option_map (λ x. (x.0, x.1.now)) r ≡ token_group_at lexemes.now) }
{
    members(alloc, true, lexemes)
}

/// A name or a group of names, and what follows it.
pub(crate) fn read_names<'a>(
    alloc: Global,
    lexemes: &'a [Lexeme],
) -> Result<Option<(Names, &'a [Lexeme])>, Memory>
    ensures { IfOk result (λ r. option_map (λ x. (x.0, x.1.now)) r ≡ names_at lexemes.now) }
{
    match lexemes {
        [Lexeme::Name(name), rest @ ..] => {
            let mut names = Vec::new(alloc);
            names.push(name.copy(alloc)?)?;
            Ok(Some((Names::of(names), rest)))
        }
        [Lexeme::Sign(Delim::Grpo), rest @ ..] => name_group(alloc, rest),
        _ => Ok(None),
    }
}

fn group_token(alloc: Global, lexeme: &Lexeme) -> Result<Option<GroupToken>, Memory>
    ensures { IfOk result (λ r. r ≡ token_of lexeme.now) }
{
    match lexeme {
        Lexeme::Name(name) => Ok(Some(GroupToken::Name(name.copy(alloc)?))),
        Lexeme::Reserved(name) if is_word(b"PCDATA", name.items()) => Ok(Some(GroupToken::Pcdata)),
        Lexeme::Sign(sign) => Ok(sign_token(*sign)),
        _ => Ok(None),
    }
}

fn sign_token(sign: Delim) -> Option<GroupToken>
    ensures { result ≡ sign_token sign }
{
    match sign {
        Delim::Grpo => Some(GroupToken::Begin),
        Delim::Grpc => Some(GroupToken::Finish),
        Delim::Seq => Some(GroupToken::Seq),
        Delim::Or => Some(GroupToken::Or),
        Delim::And => Some(GroupToken::And),
        Delim::Opt => Some(GroupToken::Opt),
        Delim::Plus => Some(GroupToken::Plus),
        Delim::Rep => Some(GroupToken::Rep),
        _ => None,
    }
}

fn next_level(level: usize, token: &GroupToken) -> usize
    requires { level < 2 ^ 62 }
    ensures { result ≡ level_after level token.now }
{
    match token {
        GroupToken::Begin => level + 1,
        GroupToken::Finish => level.saturating_sub(1),
        _ => level,
    }
}

/// A model group with its mark, and what follows it.
pub(crate) fn read_tokens<'a>(
    alloc: Global,
    lexemes: &'a [Lexeme],
) -> Result<Option<(GroupTokens, &'a [Lexeme])>, Memory>
    ensures { IfOk result (λ r. option_map (λ x. (x.0, x.1.now)) r ≡ group_at lexemes.now) }
{
    let [Lexeme::Sign(Delim::Grpo), after @ ..] = lexemes else {
        return Ok(None);
    };
    let mut tokens = Vec::with_capacity(alloc, lexemes.len())?;
    tokens.push(GroupToken::Begin)?;
    let mut level = 1;
    let mut rest = after;
    'tokens: while let [first, after @ ..] = rest {
        let Some(token) = group_token(alloc, first)? else {
            return Ok(None);
        };
        level = next_level(level, &token);
        tokens.push(token)?;
        rest = after;
        if level == 0 {
            let rest = read_mark(&mut tokens, rest)?;
            return Ok(Some((GroupTokens::of(tokens), rest)));
        }
    }
    Ok(None)
}

fn read_mark<'a>(
    tokens: &mut Vec<GroupToken>,
    lexemes: &'a [Lexeme],
) -> Result<&'a [Lexeme], Memory>
    ensures { IfOk result (λ r. (tokens.new.items, r.now) ≡ mark_at tokens.old.items lexemes.now) }
{
    match lexemes {
        [Lexeme::Sign(Delim::Opt), rest @ ..] => {
            tokens.push(GroupToken::Opt)?;
            Ok(rest)
        }
        [Lexeme::Sign(Delim::Rep), rest @ ..] => {
            tokens.push(GroupToken::Rep)?;
            Ok(rest)
        }
        [Lexeme::Sign(Delim::Plus), Lexeme::Sign(Delim::Grpo), ..] => Ok(lexemes),
        [Lexeme::Sign(Delim::Plus), rest @ ..] => {
            tokens.push(GroupToken::Plus)?;
            Ok(rest)
        }
        _ => Ok(lexemes),
    }
}
