// Which specification each attribute has.
ghost use Rattle.std.specs.Prelude.{◌≡◌, ◌<◌, None, length, map, position, replicate, IfOk, IfSome, MatchResult};
ghost use Rattle.std.specs.List.{list_any};
ghost use Rattle.std.specs.Str.{bytes_eq};
ghost use Rattle.sgml_names.specs.Naming.{cased_character};
ghost use Rattle.sgml_names.specs.Lists.{has};
ghost use Rattle.sgml_attr.specs.Tokens.{token_of};
ghost use Rattle.sgml_attr.specs.Matching.{is_named, has_member, only_position, attribute_by, attribute_of, attributes_of, AreMatched, IsAgainst};
ghost use Rattle.sgml_attr.specs.Finding.{attribute_in, IsIndexOf};

use crate::definition::{Declared, Definition, Spec};
use crate::error::AttrError;
use crate::index::AttributeIndex;
use crate::literal::character_of;
use sgml_names::cased_character;
use sgml_syntax::Syntax;
use sgml_text::{Memory, Name, Unit};
use std::alloc::Global;

/// For each definition the number of the specification that names it (7.9). A value without a name
/// names the one attribute in whose group it is (7.9.1.2).
///
/// The first specification against which something is, is told: it names no attribute, or that of
/// an earlier one.
pub fn match_specs(
    alloc: Global,
    syntax: &Syntax,
    definitions: &[Definition],
    specs: &[Spec],
) -> Result<Vec<Option<usize>>, AttrError>
    ensures { MatchResult result
        (λ matched. AreMatched (length definitions.now) (attributes_of syntax.now definitions.now specs.now) matched.items)
        (IsAgainst (length definitions.now) (attributes_of syntax.now definitions.now specs.now)) }
{
    let index = index_if_many(alloc, definitions, specs.len())?;
    let mut matched = none_matched(alloc, definitions.len())?;
    'specs: for (j, spec) in specs.iter().enumerate() {
        let attribute = attribute_of(alloc, syntax, definitions, &index, spec)?;
        let Some(i) = attribute else {
            return Err(AttrError::UnknownAttribute { spec: j });
        };
        if matched[i].is_some() {
            return Err(AttrError::Twice { spec: j });
        }
        matched[i] = Some(j);
    }
    Ok(matched)
}

fn none_matched(alloc: Global, n: usize) -> Result<Vec<Option<usize>>, Memory>
    ensures { IfOk result (λ matched. matched.items ≡ replicate n None) }
{
    Ok(vec![in alloc; None; n]?)
}

// So many specifications are compared with each definition before an index of the definitions, which
// takes memory for each name, is the faster way.
const MANY: usize = 32;

fn index_if_many(
    alloc: Global,
    definitions: &[Definition],
    specs: usize,
) -> Result<Option<AttributeIndex>, Memory>
    ensures { IfOk result (λ index. IfSome index (λ index. IsIndexOf index definitions.now)) }
{
    if specs <= MANY || definitions.len() > u32::MAX as usize {
        return Ok(None);
    }
    let index = AttributeIndex::of(alloc, definitions)?;
    Ok(Some(index))
}

fn attribute_of(
    alloc: Global,
    syntax: &Syntax,
    definitions: &[Definition],
    index: &Option<AttributeIndex>,
    spec: &Spec,
) -> Result<Option<usize>, Memory>
    requires { IfSome index.now (λ index. IsIndexOf index definitions.now) }
    ensures of { IfOk result (λ i. i ≡ attribute_of syntax.now definitions.now spec.now) }
    ensures within { IfOk result (λ i. IfSome i (λ i. i < length definitions.now)) }
{
    let folding = syntax.general_fold;
    match index {
        Some(index) => indexed(alloc, folding, index, spec),
        None => Ok(walked(folding, definitions, spec)),
    }
}

fn indexed(
    alloc: Global,
    folding: bool,
    index: &AttributeIndex,
    spec: &Spec,
) -> Result<Option<usize>, Memory>
    ensures { IfOk result (λ i. i ≡ attribute_in index.now folding spec.now.name spec.now.value) }
{
    match &spec.name {
        Some(name) => index.named(alloc, folding, name.items()),
        None => index.only_member(alloc, folding, spec.value.items()),
    }
}

fn walked(folding: bool, definitions: &[Definition], spec: &Spec) -> Option<usize>
    ensures { result ≡ attribute_by folding definitions.now spec.now.name spec.now.value }
{
    match &spec.name {
        Some(name) => named(folding, definitions, name.items()),
        None => only_member(folding, definitions, spec.value.items()),
    }
}

/// The number of the attribute of the name that is spelled so, which is compared with each definition.
pub fn attribute_named(syntax: &Syntax, definitions: &[Definition], name: &[u8]) -> Option<usize>
    ensures of { result ≡ position (is_named syntax.now.general_fold name.now) definitions.now }
    ensures within { IfSome result (λ i. i < length definitions.now) }
{
    named(syntax.general_fold, definitions, name)
}

/// The number of the attribute in whose group these units are, unless they are in several (7.9.1.2).
pub fn attribute_with_member(
    syntax: &Syntax,
    definitions: &[Definition],
    units: &[Unit],
) -> Option<usize>
    ensures of { result ≡ only_position (λ d. has_member (token_of syntax.now.general_fold units.now) d.declared) definitions.now }
    ensures within { IfSome result (λ i. i < length definitions.now) }
{
    only_member(syntax.general_fold, definitions, units)
}

fn named(folding: bool, definitions: &[Definition], name: &[u8]) -> Option<usize>
    ensures of { result ≡ position (is_named folding name.now) definitions.now }
    ensures within { IfSome result (λ i. i < length definitions.now) }
{
    definitions.iter().position(|definition| spells(folding, name, definition.name.items()))
}

fn only_member(folding: bool, definitions: &[Definition], units: &[Unit]) -> Option<usize>
    ensures of { result ≡ only_position (λ d. has_member (token_of folding units.now) d.declared) definitions.now }
    ensures within { IfSome result (λ i. i < length definitions.now) }
{
    let first = first_member(folding, definitions, units)?;
    if any_member(folding, &definitions[first + 1..], units) {
        return None;
    }
    Some(first)
}

fn first_member(folding: bool, definitions: &[Definition], units: &[Unit]) -> Option<usize>
    ensures of { result ≡ position (λ d. has_member (token_of folding units.now) d.declared) definitions.now }
    ensures within { IfSome result (λ i. i < length definitions.now) }
{
    definitions.iter().position(|definition| has_member(folding, units, &definition.declared))
}

fn any_member(folding: bool, definitions: &[Definition], units: &[Unit]) -> bool
    ensures { result ≡ list_any (λ d. has_member (token_of folding units.now) d.declared) definitions.now }
{
    for definition in definitions {
        if has_member(folding, units, &definition.declared) {
            return true;
        }
    }
    false
}

fn has_member(folding: bool, units: &[Unit], declared: &Declared) -> bool
    ensures { result ≡ has_member (token_of folding units.now) declared.now }
{
    match declared {
        Declared::Notation(names) => any_spelled(folding, units, names.items()),
        Declared::Group(names) => any_spelled(folding, units, names.items()),
        _ => false,
    }
}

fn any_spelled(folding: bool, units: &[Unit], names: &[Name]) -> bool
    ensures { result ≡ has names.now (token_of folding units.now) }
{
    for name in names {
        if units_spell(folding, units, name.items()) {
            return true;
        }
    }
    false
}

// Whether these units are the name, when they are folded.
fn units_spell(folding: bool, units: &[Unit], name: &[u8]) -> bool
    ensures { result ≡ bytes_eq (token_of folding units.now) name.now }
{
    if units.len() != name.len() {
        return false;
    }
    let mut i = 0;
    'bytes: while i < units.len() {
        if cased_character(folding, character_of(units[i])) != name[i] {
            return false;
        }
        i += 1;
    }
    true
}

// Whether these bytes are the name, when they are folded.
fn spells(folding: bool, bytes: &[u8], name: &[u8]) -> bool
    ensures { result ≡ bytes_eq (map (cased_character folding) bytes.now) name.now }
{
    if bytes.len() != name.len() {
        return false;
    }
    let mut i = 0;
    'bytes: while i < bytes.len() {
        if cased_character(folding, bytes[i]) != name[i] {
            return false;
        }
        i += 1;
    }
    true
}
