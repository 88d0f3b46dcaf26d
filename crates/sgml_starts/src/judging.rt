// The value of one specification, or the first reason against it.
ghost use Rattle.std.specs.Prelude.{◌≡◌, ◌<◌, ◌≤◌, ◌∷◌, [], true, false, map, nat_lt, length, None, Some, Ok, IfOk, IfErr, IfSome, IsTrue, OnOk};
ghost use Rattle.std.specs.List.{list_all};
ghost use Rattle.sgml_text.specs.Characters.{is_digit};
ghost use Rattle.sgml_text.specs.NameCharacters.{is_name_character};
ghost use Rattle.sgml_text.specs.Units.{characters};
ghost use Rattle.sgml_names.specs.Naming.{cased_character};
ghost use Rattle.sgml_attr.specs.Tokens.{is_name_token, is_number, is_number_token, is_list};
ghost use Rattle.sgml_attr.specs.Literal.{interpreted};
ghost use Rattle.sgml_attr.specs.Answers.{IsOrMemory};
ghost use Rattle.sgml_attr.specs.Values.{value};
ghost use Rattle.sgml_starts.specs.Rows.{reason_of, ranked};
ghost use Rattle.sgml_starts.specs.Told.{refusal, told, told_among, answered};
ghost use Rattle.sgml_starts.specs.Starts.{IsUnvalued};
ghost use Rattle.sgml_starts.specs.Values.{refused};
ghost use Rattle.sgml_starts.specs.Answered.{reason_given, value_given};
ghost use Rattle.sgml_starts.specs.Plain.{is_fixed, is_of_token, is_plain, IsPlainValue, IsCalmValue};

use crate::error::StartError;
use crate::listed::listed_value;
use sgml_attr::{
    AttrError, AttrValue, Declared, Default, Definition, are_apart, are_plain, interpret_literal,
    value_given, value_spelled,
};
use sgml_entity::Entities;
use sgml_names::has;
use sgml_syntax::Syntax;
use sgml_text::{Memory, Name, NameSet, Names, Reason, Unit, Units, fold, is_name};
use std::alloc::Global;

// The units as they are read by the declared value. LITLEN is judged later, among the other rows; so
// many units as no number counts have no room.
fn interpreted(alloc: Global, units: &[Unit], declared: &Declared) -> Result<Units, Memory>
    ensures { IfOk result (λ read. read ≡ interpreted declared.now units.now) }
{
    match interpret_literal(alloc, units, declared, u32::MAX) {
        Ok(read) => Ok(read),
        Err(_) => Err(Memory),
    }
}

pub(crate) fn reason_of(error: AttrError) -> Reason
    ensures { result ≡ reason_of error }
{
    match error {
        AttrError::NameLength => Reason::NameLength,
        AttrError::LiteralLimit => Reason::LiteralLimit,
        AttrError::NotationUnknown => Reason::NotationUnknown,
        AttrError::UnknownAttribute { spec: _ } => Reason::UnknownAttribute,
        AttrError::Twice { spec: _ } => Reason::Twice,
        AttrError::NotAToken => Reason::NotAToken,
        AttrError::NotInGroup => Reason::NotInGroup,
        AttrError::FixedDiffers => Reason::FixedDiffers,
        AttrError::EntityUnknown => Reason::EntityUnknown,
        AttrError::Required => Reason::Required,
        AttrError::NoCurrent => Reason::NoCurrent,
        AttrError::Memory => Reason::NoCurrent,
    }
}

// The first reason, by whether the value is too long and the second of its attribute, and by what its
// tokens tell.
fn ranked(long: bool, twice: bool, error: Option<AttrError>) -> Option<Reason>
    ensures { result ≡ ranked long twice error }
{
    if let Some(AttrError::NameLength) = error {
        return Some(Reason::NameLength);
    }
    if long {
        return Some(Reason::LiteralLimit);
    }
    if let Some(AttrError::NotationUnknown) = error {
        return Some(Reason::NotationUnknown);
    }
    if twice {
        return Some(Reason::Twice);
    }
    match error {
        Some(error) => Some(reason_of(error)),
        None => None,
    }
}

fn refusal(reason: Option<Reason>) -> StartError
    ensures { result ≡ refusal reason }
{
    match reason {
        Some(reason) => StartError::Refused(reason),
        None => StartError::Memory,
    }
}

/// The reason that an answer tells by itself.
pub(crate) fn told(error: AttrError) -> StartError
    ensures { result ≡ told error }
{
    match error {
        AttrError::Memory => StartError::Memory,
        _ => StartError::Refused(reason_of(error)),
    }
}

// The reason that it tells among the others.
fn told_among(long: bool, twice: bool, error: AttrError) -> StartError
    ensures { result ≡ told_among long twice error }
{
    match error {
        AttrError::Memory => StartError::Memory,
        _ => refusal(ranked(long, twice, Some(error))),
    }
}

// What an answer tells, by whether its value is too long and the second of its attribute.
#[inline(always)]
fn answered(
    answer: Result<AttrValue, AttrError>,
    long: bool,
    twice: bool,
) -> Result<AttrValue, StartError>
    ensures { result ≡ answered long twice answer }
{
    match answer {
        Ok(value) => match ranked(long, twice, None) {
            Some(reason) => Err(StartError::Refused(reason)),
            None => Ok(value),
        },
        Err(error) => Err(told_among(long, twice, error)),
    }
}

/// The value that these units are to an attribute, which an earlier specification may name.
pub(crate) fn judged(
    alloc: Global,
    syntax: &Syntax,
    entities: &Entities,
    definition: &Definition,
    twice: bool,
    units: &Units,
) -> Result<AttrValue, StartError>
    ensures none { OnOk result (reason_given syntax.now definition.now entities.now twice units.now ≡ None) }
    ensures ok { IfOk result (λ v. value_given syntax.now definition.now entities.now units.now ≡ Ok v) }
    ensures err { IfErr result (IsUnvalued (refused (reason_given syntax.now definition.now entities.now twice units.now))) }
{
    let read = interpreted(alloc, units.items(), &definition.declared)?;
    let long = read.items().len() > syntax.quantities.litlen as usize;
    let answer = value_given(alloc, syntax, definition, read, entities);
    answered(answer, long, twice)
}

/// The value that these units are to an attribute. Units that are read as they stand aren't copied.
#[inline(always)]
pub(crate) fn judged_given(
    alloc: Global,
    syntax: &Syntax,
    entities: &Entities,
    definition: &Definition,
    twice: bool,
    units: Units,
) -> Result<AttrValue, StartError>
    ensures none { OnOk result (reason_given syntax.now definition.now entities.now twice units ≡ None) }
    ensures ok { IfOk result (λ v. value_given syntax.now definition.now entities.now units ≡ Ok v) }
    ensures err { IfErr result (IsUnvalued (refused (reason_given syntax.now definition.now entities.now twice units))) }
{
    if !are_plain(units.items(), &definition.declared) {
        return judged(alloc, syntax, entities, definition, twice, &units);
    }
    let long = units.items().len() > syntax.quantities.litlen as usize;
    let answer = value_given(alloc, syntax, definition, units, entities);
    answered(answer, long, twice)
}

pub(crate) fn is_number(bytes: &[u8]) -> bool
    ensures { result ≡ is_number bytes.now }
{
    match bytes {
        [] => false,
        [first, rest @ ..] => first.is_ascii_digit() && are_digits(rest),
    }
}

fn are_digits(bytes: &[u8]) -> bool
    ensures { result ≡ list_all is_digit bytes.now }
{
    for b in bytes {
        if !b.is_ascii_digit() {
            return false;
        }
    }
    true
}

pub(crate) fn is_number_token(set: &NameSet, bytes: &[u8]) -> bool
    ensures { result ≡ is_number_token set.now bytes.now }
{
    match bytes {
        [] => false,
        [first, rest @ ..] => first.is_ascii_digit() && are_name_characters(set, rest),
    }
}

pub(crate) fn is_name_token(set: &NameSet, bytes: &[u8]) -> bool
    ensures { result ≡ is_name_token set.now bytes.now }
{
    !bytes.is_empty() && are_name_characters(set, bytes)
}

#[inline(always)]
fn are_name_characters(set: &NameSet, bytes: &[u8]) -> bool
    ensures { result ≡ list_all (is_name_character set.now) bytes.now }
{
    set.name_length(bytes) == bytes.len()
}

#[inline(always)]
fn is_fixed(default: &Default) -> bool
    ensures { result ≡ is_fixed default.now }
{
    match default {
        Default::Fixed(_) => true,
        _ => false,
    }
}

// Whether one token is declared, whose entity or notation isn't asked for.
#[inline(always)]
fn is_of_token(declared: &Declared) -> bool
    ensures { result ≡ is_of_token declared.now }
{
    match declared {
        Declared::Number => true,
        Declared::Name => true,
        Declared::Id => true,
        Declared::Idref => true,
        Declared::Nmtoken => true,
        Declared::Nutoken => true,
        Declared::Group(_) => true,
        _ => false,
    }
}

// Whether one is declared, and this is one.
#[inline(always)]
fn is_plain(syntax: &Syntax, declared: &Declared, token: &Name) -> bool
    ensures { result ≡ is_plain syntax.now.names declared.now token.now }
{
    let bytes = token.items();
    match declared {
        Declared::Number => is_number(bytes),
        Declared::Name => is_name(bytes, syntax.names),
        Declared::Id => is_name(bytes, syntax.names),
        Declared::Idref => is_name(bytes, syntax.names),
        Declared::Nmtoken => is_name_token(&syntax.names, bytes),
        Declared::Nutoken => is_number_token(&syntax.names, bytes),
        Declared::Group(names) => {
            is_name_token(&syntax.names, bytes) && has(names.items(), bytes)
        }
        _ => false,
    }
}

/// The name of these bytes, folded.
#[inline(always)]
pub(crate) fn folded(alloc: Global, folding: bool, bytes: &[u8]) -> Result<Name, Memory>
    requires { 0 < length bytes.now }
    ensures { IfOk result (λ name. name ≡ map (cased_character folding) bytes.now) }
{
    if folding {
        fold(alloc, bytes)
    } else {
        Name::copied(alloc, bytes)
    }
}

// This name alone.
#[inline(always)]
fn alone(alloc: Global, name: Name) -> Option<AttrValue>
    ensures { IfSome result (λ value. value ≡ AttrValue.Tokens (name ∷ [])) }
{
    match Vec::with_capacity(alloc, 1) {
        Ok(mut names) => {
            names.push_reserved(name);
            Some(AttrValue::Tokens(Names::of(names)))
        }
        Err(_) => None,
    }
}

// Whether these bytes may be such a token, by their number and by what is declared.
#[inline(always)]
fn may_be_plain(syntax: &Syntax, definition: &Definition, bytes: &[u8]) -> bool
    ensures some { IsTrue result → 0 < length bytes.now }
    ensures short { IsTrue result → length bytes.now ≤ syntax.now.quantities.namelen }
    ensures free { IsTrue result → is_fixed definition.now.default ≡ false }
{
    if bytes.is_empty() || bytes.len() > syntax.quantities.namelen as usize {
        return false;
    }
    is_of_token(&definition.declared) && !is_fixed(&definition.default)
}

// The value that characters without a separator are to an attribute for which one token is declared; none
// where anything is against it, or something else is declared.
#[inline(always)]
fn plain_value(
    alloc: Global,
    syntax: &Syntax,
    definition: &Definition,
    bytes: &[u8],
) -> Option<AttrValue>
    requires { list_all (nat_lt 32) bytes.now ≡ true }
    ensures { IfSome result (λ v. IsPlainValue syntax.now definition.now bytes.now v) }
{
    if !may_be_plain(syntax, definition, bytes) {
        return None;
    }
    match folded(alloc, syntax.general_fold, bytes) {
        Ok(name) => {
            if !is_plain(syntax, &definition.declared, &name) {
                return None;
            }
            alone(alloc, name)
        }
        Err(_) => None,
    }
}

// The value by itself, or the first reason against it.
#[inline(always)]
fn value_of_spelled(
    alloc: Global,
    syntax: &Syntax,
    definition: &Definition,
    bytes: &[u8],
    entities: &Entities,
) -> Result<AttrValue, AttrError>
    requires { list_all (nat_lt 32) bytes.now ≡ true }
    ensures { IsOrMemory (value syntax.now definition.now entities.now None (Some (characters bytes.now))) result }
{
    match plain_value(alloc, syntax, definition, bytes) {
        Some(value) => Ok(value),
        None => value_spelled(alloc, syntax, definition, bytes, entities),
    }
}

// These characters as character data.
#[inline(always)]
fn data(alloc: Global, bytes: &[u8]) -> Option<AttrValue>
    ensures { IfSome result (λ v. v ≡ AttrValue.Cdata (characters bytes.now)) }
{
    match Units::of_bytes(alloc, bytes) {
        Ok(units) => Some(AttrValue::Cdata(units)),
        Err(_) => None,
    }
}

/// The value that these characters, among which SPACE is the only separator, are to an attribute; none where
/// something may be against it.
#[inline(always)]
pub(crate) fn calm_value(
    alloc: Global,
    syntax: &Syntax,
    definition: &Definition,
    bytes: &[u8],
) -> Option<AttrValue>
    requires { list_all (nat_lt 31) bytes.now ≡ true }
    ensures { IfSome result (λ v. IsCalmValue syntax.now definition.now bytes.now v) }
{
    if bytes.len() > syntax.quantities.litlen as usize || is_fixed(&definition.default) {
        return None;
    }
    if let Declared::Cdata = definition.declared {
        return data(alloc, bytes);
    }
    if is_list(&definition.declared) {
        return listed_value(alloc, syntax, &definition.declared, bytes);
    }
    if !are_apart(bytes) {
        return None;
    }
    plain_value(alloc, syntax, definition, bytes)
}

#[inline(always)]
fn is_list(declared: &Declared) -> bool
    ensures { result ≡ is_list declared.now }
{
    match declared {
        Declared::Entities => true,
        Declared::Idrefs => true,
        Declared::Names => true,
        Declared::Nmtokens => true,
        Declared::Numbers => true,
        Declared::Nutokens => true,
        _ => false,
    }
}

/// The value that these characters, among which no separator is, are to an attribute.
#[inline(always)]
pub(crate) fn judged_spelled(
    alloc: Global,
    syntax: &Syntax,
    entities: &Entities,
    definition: &Definition,
    twice: bool,
    bytes: &[u8],
) -> Result<AttrValue, StartError>
    requires apart { list_all (nat_lt 32) bytes.now ≡ true }
    requires same { interpreted definition.now.declared (characters bytes.now) ≡ characters bytes.now }
    ensures none { OnOk result (reason_given syntax.now definition.now entities.now twice (characters bytes.now) ≡ None) }
    ensures ok { IfOk result (λ v. value_given syntax.now definition.now entities.now (characters bytes.now) ≡ Ok v) }
    ensures err { IfErr result (IsUnvalued (refused (reason_given syntax.now definition.now entities.now twice (characters bytes.now)))) }
{
    let long = bytes.len() > syntax.quantities.litlen as usize;
    let answer = value_of_spelled(alloc, syntax, definition, bytes, entities);
    answered(answer, long, twice)
}
