// Lines that go on after a name, read.
ghost use Rattle.std.specs.Prelude.{◌≡◌, ◌<◌, length, IfOk, option_map};
ghost use Rattle.sgml_esis.specs.Grammar.{is_internal};
ghost use Rattle.sgml_esis.specs.Reading.{implied_of, cdata_of, notation_of, entity_of, token_of, attribute_of, kind_at, external_of, internal_of};

use crate::escapes::read_text;
use crate::line::{Apart, Line};
use crate::words::{name_of, read_word, read_words, strip};
use sgml_text::{DataKind, Memory};
use std::alloc::Global;

/// The line of an attribute's name and what follows it.
pub fn read_attribute(alloc: Global, name: &[u8], tail: &[u8]) -> Result<Option<Line>, Memory>
    requires { 0 < length name.now }
    ensures { IfOk result (λ line. line ≡ attribute_of name.now tail.now) }
{
    if let Some(rest) = strip(b" IMPLIED", tail) {
        return read_implied(alloc, name, rest);
    }
    if let Some(rest) = strip(b" CDATA ", tail) {
        return read_cdata(alloc, name, rest);
    }
    if let Some(rest) = strip(b" NOTATION ", tail) {
        return read_notation(alloc, name, rest);
    }
    if let Some(rest) = strip(b" ENTITY", tail) {
        return read_entity(alloc, name, rest);
    }
    if let Some(rest) = strip(b" TOKEN", tail) {
        return read_token(alloc, name, rest);
    }
    Ok(None)
}

fn read_implied(alloc: Global, name: &[u8], rest: &[u8]) -> Result<Option<Line>, Memory>
    requires { 0 < length name.now }
    ensures { IfOk result (λ line. line ≡ implied_of name.now rest.now) }
{
    if !rest.is_empty() {
        return Ok(None);
    }
    Ok(Some(Line::Implied(name_of(alloc, name)?)))
}

fn read_cdata(alloc: Global, name: &[u8], rest: &[u8]) -> Result<Option<Line>, Memory>
    requires { 0 < length name.now }
    ensures { IfOk result (λ line. line ≡ cdata_of name.now rest.now) }
{
    match read_text(alloc, rest)? {
        Some(text) => Ok(Some(Line::Cdata(name_of(alloc, name)?, Apart::of(alloc, text)?))),
        None => Ok(None),
    }
}

fn read_notation(alloc: Global, name: &[u8], rest: &[u8]) -> Result<Option<Line>, Memory>
    requires { 0 < length name.now }
    ensures { IfOk result (λ line. line ≡ notation_of name.now rest.now) }
{
    match read_word(alloc, rest)? {
        Some(notation) => Ok(Some(Line::Notation(
            name_of(alloc, name)?,
            Apart::of(alloc, notation)?,
        ))),
        None => Ok(None),
    }
}

fn read_entity(alloc: Global, name: &[u8], rest: &[u8]) -> Result<Option<Line>, Memory>
    requires { 0 < length name.now }
    ensures { IfOk result (λ line. line ≡ entity_of name.now rest.now) }
{
    match read_words(alloc, rest)? {
        Some(names) => Ok(Some(Line::Entity(name_of(alloc, name)?, Apart::of(alloc, names)?))),
        None => Ok(None),
    }
}

fn read_token(alloc: Global, name: &[u8], rest: &[u8]) -> Result<Option<Line>, Memory>
    requires { 0 < length name.now }
    ensures { IfOk result (λ line. line ≡ token_of name.now rest.now) }
{
    match read_words(alloc, rest)? {
        Some(tokens) => Ok(Some(Line::Token(name_of(alloc, name)?, Apart::of(alloc, tokens)?))),
        None => Ok(None),
    }
}

// The kind of a data entity between blanks, and what follows it.
fn kind_at(tail: &[u8]) -> Option<(DataKind, &[u8])>
    ensures { option_map (λ found. (found.0, found.1.now)) result ≡ kind_at tail.now }
{
    if let Some(rest) = strip(b" CDATA ", tail) {
        return Some((DataKind::Cdata, rest));
    }
    if let Some(rest) = strip(b" NDATA ", tail) {
        return Some((DataKind::Ndata, rest));
    }
    if let Some(rest) = strip(b" SDATA ", tail) {
        return Some((DataKind::Sdata, rest));
    }
    None
}

/// The line of an external data entity's name and what follows it.
pub fn read_external(alloc: Global, name: &[u8], tail: &[u8]) -> Result<Option<Line>, Memory>
    requires { 0 < length name.now }
    ensures { IfOk result (λ line. line ≡ external_of name.now tail.now) }
{
    let Some((kind, rest)) = kind_at(tail) else {
        return Ok(None);
    };
    match read_word(alloc, rest)? {
        Some(notation) => {
            let name = Apart::of(alloc, name_of(alloc, name)?)?;
            let notation = Apart::of(alloc, notation)?;
            Ok(Some(Line::DefineExternal(name, kind, notation)))
        }
        None => Ok(None),
    }
}

/// The line of an internal data entity's name and what follows it.
pub fn read_internal(alloc: Global, name: &[u8], tail: &[u8]) -> Result<Option<Line>, Memory>
    requires { 0 < length name.now }
    ensures { IfOk result (λ line. line ≡ internal_of name.now tail.now) }
{
    let Some((kind, rest)) = kind_at(tail) else {
        return Ok(None);
    };
    if kind == DataKind::Ndata {
        return Ok(None);
    }
    match read_text(alloc, rest)? {
        Some(text) => {
            let name = Apart::of(alloc, name_of(alloc, name)?)?;
            let text = Apart::of(alloc, text)?;
            Ok(Some(Line::DefineInternal(name, kind, text)))
        }
        None => Ok(None),
    }
}
