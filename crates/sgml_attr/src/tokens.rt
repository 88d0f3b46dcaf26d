// The tokens of a value, and which bytes are tokens of each kind.
ghost use Rattle.std.specs.Prelude.{◌≡◌, ◌<◌, ◌++◌, OnOk, IfOk, [], true, map, nat_lt, length};
ghost use Rattle.sgml_text.specs.Units.{characters};
ghost use Rattle.std.specs.List.{list_all};
ghost use Rattle.sgml_text.specs.NameCharacters.{is_name_character};
ghost use Rattle.sgml_text.specs.Characters.{is_digit};
ghost use Rattle.sgml_names.specs.Naming.{cased_character};
ghost use Rattle.sgml_attr.specs.Tokens.{is_name_token, is_number, is_number_token, is_token, kind_of, is_list, is_entity, folds, token_of, tokens, is_count};
ghost use Rattle.sgml_attr.specs.Parts.{ended};

use crate::definition::Declared;
use crate::literal::{character_of, is_space};
use sgml_names::cased_character;
use sgml_syntax::Syntax;
use sgml_text::{Memory, Name, NameSet, Unit, is_name};
use std::alloc::Global;

/// A kind of token (9.3).
#[derive(Clone, Copy)]
pub(crate) enum Kind {
    OfName,
    OfNameToken,
    OfNumber,
    OfNumberToken,
}

pub(crate) fn kind_of(declared: &Declared) -> Kind
    ensures { result ≡ kind_of declared.now }
{
    match declared {
        Declared::Nmtoken => Kind::OfNameToken,
        Declared::Nmtokens => Kind::OfNameToken,
        Declared::Group(_) => Kind::OfNameToken,
        Declared::Number => Kind::OfNumber,
        Declared::Numbers => Kind::OfNumber,
        Declared::Nutoken => Kind::OfNumberToken,
        Declared::Nutokens => Kind::OfNumberToken,
        _ => Kind::OfName,
    }
}

pub(crate) fn is_list(declared: &Declared) -> bool
    ensures { result ≡ is_list declared.now }
{
    match declared {
        Declared::Entities => true,
        Declared::Idrefs => true,
        Declared::Names => true,
        Declared::Nmtokens => true,
        Declared::Numbers => true,
        Declared::Nutokens => true,
        _ => false,
    }
}

pub(crate) fn is_entity(declared: &Declared) -> bool
    ensures { result ≡ is_entity declared.now }
{
    match declared {
        Declared::Entity => true,
        Declared::Entities => true,
        _ => false,
    }
}

pub(crate) fn folds(syntax: &Syntax, declared: &Declared) -> bool
    ensures { result ≡ folds syntax.now declared.now }
{
    if is_entity(declared) {
        syntax.entity_fold
    } else {
        syntax.general_fold
    }
}

/// The tokens of a value: its parts between SPACEs, folded.
#[inline(always)]
pub(crate) fn tokens_in(alloc: Global, folding: bool, units: &[Unit]) -> Result<Vec<Name>, Memory>
    ensures { IfOk result (λ names. names.items ≡ tokens folding units.now) }
{
    let mut names = Vec::new(alloc);
    let mut begun = 0;
    'parts: for (i, unit) in units.iter().enumerate() {
        if is_space(*unit) {
            add_token(alloc, folding, &units[begun..i], &mut names)?;
            begun = i + 1;
        }
    }
    add_token(alloc, folding, &units[begun..], &mut names)?;
    Ok(names)
}

#[inline(always)]
fn add_token(
    alloc: Global,
    folding: bool,
    part: &[Unit],
    names: &mut Vec<Name>,
) -> Result<(), Memory>
    ensures { OnOk result (names.new.items ≡ names.old.items ++ map (token_of folding) (ended part.now)) }
{
    if part.is_empty() {
        return Ok(());
    }
    let token = token_of(alloc, folding, part)?;
    names.push(token)?;
    Ok(())
}

/// The tokens of characters without a separator: one, unless there are none.
#[inline(always)]
pub(crate) fn tokens_spelled(
    alloc: Global,
    folding: bool,
    bytes: &[u8],
) -> Result<Vec<Name>, Memory>
    requires { list_all (nat_lt 32) bytes.now ≡ true }
    ensures { IfOk result (λ names. names.items ≡ tokens folding (characters bytes.now)) }
{
    let mut names = Vec::new(alloc);
    if bytes.is_empty() {
        return Ok(names);
    }
    let token = folded_bytes(alloc, folding, bytes)?;
    names.push(Name::of(token))?;
    Ok(names)
}

fn token_of(alloc: Global, folding: bool, part: &[Unit]) -> Result<Name, Memory>
    requires { 0 < length part.now }
    ensures { IfOk result (λ name. name ≡ token_of folding part.now) }
{
    let bytes = folded_units(alloc, folding, part)?;
    Ok(Name::of(bytes))
}

/// The characters of these units, folded.
pub(crate) fn folded_units(alloc: Global, folding: bool, units: &[Unit]) -> Result<Vec<u8>, Memory>
    ensures { IfOk result (λ bytes. bytes.items ≡ token_of folding units.now) }
{
    let mut bytes = Vec::with_capacity(alloc, units.len())?;
    for unit in units {
        bytes.push(cased_character(folding, character_of(*unit)))?;
    }
    Ok(bytes)
}

/// These bytes, folded.
pub(crate) fn folded_bytes(alloc: Global, folding: bool, bytes: &[u8]) -> Result<Vec<u8>, Memory>
    ensures { IfOk result (λ all. all.items ≡ map (cased_character folding) bytes.now) }
{
    let mut all = Vec::with_capacity(alloc, bytes.len())?;
    for b in bytes {
        all.push(cased_character(folding, *b))?;
    }
    Ok(all)
}

pub(crate) fn is_token(set: NameSet, kind: Kind, bytes: &[u8]) -> bool
    ensures { result ≡ is_token set kind bytes.now }
{
    match kind {
        Kind::OfName => is_name(bytes, set),
        Kind::OfNameToken => is_name_token(set, bytes),
        Kind::OfNumber => is_number(bytes),
        Kind::OfNumberToken => is_number_token(set, bytes),
    }
}

pub(crate) fn is_name_token(set: NameSet, bytes: &[u8]) -> bool
    ensures { result ≡ is_name_token set bytes.now }
{
    match bytes {
        [] => false,
        [first, rest @ ..] => set.goes_on(*first) && all_go_on(&set, rest),
    }
}

fn is_number(bytes: &[u8]) -> bool
    ensures { result ≡ is_number bytes.now }
{
    match bytes {
        [] => false,
        [first, rest @ ..] => first.is_ascii_digit() && all_digits(rest),
    }
}

fn is_number_token(set: NameSet, bytes: &[u8]) -> bool
    ensures { result ≡ is_number_token set bytes.now }
{
    match bytes {
        [] => false,
        [first, rest @ ..] => first.is_ascii_digit() && all_go_on(&set, rest),
    }
}

fn all_go_on(set: &NameSet, bytes: &[u8]) -> bool
    ensures { result ≡ list_all (is_name_character set.now) bytes.now }
{
    for b in bytes {
        if !set.goes_on(*b) {
            return false;
        }
    }
    true
}

fn all_digits(bytes: &[u8]) -> bool
    ensures { result ≡ list_all is_digit bytes.now }
{
    for b in bytes {
        if !b.is_ascii_digit() {
            return false;
        }
    }
    true
}

pub(crate) fn is_count(several: bool, n: usize) -> bool
    ensures { result ≡ is_count several n }
{
    if several { n > 0 } else { n == 1 }
}
