// The value of an attribute, or the first reason against it.
ghost use Rattle.std.specs.Prelude.{◌≡◌, ◌<◌, true, None, Some, map, nat_lt, IfOk, length};
ghost use Rattle.std.specs.List.{list_all};
ghost use Rattle.std.specs.Option.{option_copied};
ghost use Rattle.sgml_attr.specs.Answers.{IsOrMemory, IsRefusalOrMemory};
ghost use Rattle.sgml_attr.specs.Tokens.{folds};
ghost use Rattle.sgml_text.specs.Refusals.{first_row};
ghost use Rattle.sgml_text.specs.Units.{characters};
ghost use Rattle.sgml_attr.specs.Rows.{token_rows, reason_against};
ghost use Rattle.sgml_attr.specs.Values.{first_of, entity_number, token_value, tokens_give, units_give, fixed_in, current_given, value, refusal_of_default};
ghost use Rattle.sgml_attr.specs.Currents.{current_at};

use crate::currents::Currents;
use crate::definition::{Declared, Default, Definition};
use crate::error::AttrError;
use crate::literal::is_cdata;
use crate::rows::{
    all_in_group, are_other, are_tokens, is_other, names_no_data, names_no_notation, passes_namelen,
};
use crate::tokens::{folds, tokens_in, tokens_spelled};
use crate::value::AttrValue;
use sgml_entity::{Entities, Space};
use sgml_syntax::Syntax;
use sgml_text::{Memory, Name, Names, Numbers, Units};
use std::alloc::Global;

/// The value of an attribute (7.9, 11.3): that of its specification, whose literal was interpreted,
/// or its default. `list` and `attribute` are its numbers among the current values.
///
/// Of the reasons against a value the first in this order is told: a token passes NAMELEN, a
/// notation isn't declared, the tokens aren't as declared, one isn't in the group, the value isn't
/// the fixed one, an entity is no data entity.
#[inline(always)]
pub fn value_of(
    alloc: Global,
    syntax: &Syntax,
    definition: &Definition,
    given: Option<&Units>,
    currents: &Currents,
    list: u32,
    attribute: u32,
    entities: &Entities,
) -> Result<AttrValue, AttrError>
    ensures { IsOrMemory
        (value syntax.now definition.now entities.now (current_at currents.now list attribute) (option_copied given.entry))
        result }
{
    let declared = &definition.declared;
    match given {
        Some(units) => units_give(
            alloc,
            syntax,
            declared,
            entities,
            fixed_in(&definition.default),
            units,
        ),
        None => match &definition.default {
            Default::Value(units) => units_give(alloc, syntax, declared, entities, None, units),
            Default::Fixed(units) => units_give(alloc, syntax, declared, entities, None, units),
            Default::Required => Err(AttrError::Required),
            Default::Current => current_value(alloc, currents.get(list, attribute)),
            Default::Conref => Ok(AttrValue::Implied),
            Default::Implied => Ok(AttrValue::Implied),
        },
    }
}

/// The value of a specification whose literal was interpreted, as `value_of` tells it. Character data stays
/// in the memory of these units.
#[inline(always)]
pub fn value_given(
    alloc: Global,
    syntax: &Syntax,
    definition: &Definition,
    units: Units,
    entities: &Entities,
) -> Result<AttrValue, AttrError>
    ensures { IsOrMemory (value syntax.now definition.now entities.now None (Some units)) result }
{
    let declared = &definition.declared;
    let fixed = fixed_in(&definition.default);
    if is_cdata(declared) {
        if is_other(fixed, &units) {
            return Err(AttrError::FixedDiffers);
        }
        return Ok(AttrValue::Cdata(units));
    }
    let names = tokens_in(alloc, folds(syntax, declared), units.items())?;
    tokens_give(alloc, syntax, declared, entities, fixed, names)
}

/// The same of characters of the text that are read as they stand: none is a SPACE or another separator.
#[inline(always)]
pub fn value_spelled(
    alloc: Global,
    syntax: &Syntax,
    definition: &Definition,
    bytes: &[u8],
    entities: &Entities,
) -> Result<AttrValue, AttrError>
    requires { list_all (nat_lt 32) bytes.now ≡ true }
    ensures { IsOrMemory (value syntax.now definition.now entities.now None (Some (characters bytes.now))) result }
{
    let declared = &definition.declared;
    if is_cdata(declared) {
        let units = Units::of_bytes(alloc, bytes)?;
        return value_given(alloc, syntax, definition, units, entities);
    }
    let fixed = fixed_in(&definition.default);
    let names = tokens_spelled(alloc, folds(syntax, declared), bytes)?;
    tokens_give(alloc, syntax, declared, entities, fixed, names)
}

/// Whether a default value may be declared so (11.3.4). Which entities and notations there are isn't
/// asked, since they may be declared later.
pub fn judge_default(
    alloc: Global,
    syntax: &Syntax,
    declared: &Declared,
    units: &Units,
) -> Result<(), AttrError>
    ensures { IsRefusalOrMemory (refusal_of_default syntax.now declared.now units.now) result }
{
    if is_cdata(declared) {
        return Ok(());
    }
    let names = tokens_in(alloc, folds(syntax, declared), units.items())?;
    judge_tokens(syntax, declared, &names)
}

fn judge_tokens(syntax: &Syntax, declared: &Declared, names: &[Name]) -> Result<(), AttrError>
    ensures { IsRefusalOrMemory (first_row (token_rows syntax.now declared.now names.now)) result }
{
    if passes_namelen(syntax, names) {
        return Err(AttrError::NameLength);
    }
    if !are_tokens(syntax, declared, names) {
        return Err(AttrError::NotAToken);
    }
    if !all_in_group(declared, names) {
        return Err(AttrError::NotInGroup);
    }
    Ok(())
}

fn fixed_in(default: &Default) -> Option<&Units>
    ensures { option_copied result ≡ fixed_in default.now }
{
    match default {
        Default::Fixed(units) => Some(units),
        _ => None,
    }
}

fn current_value(alloc: Global, current: Option<&AttrValue>) -> Result<AttrValue, AttrError>
    ensures { IsOrMemory (current_given (option_copied current.entry)) result }
{
    match current {
        Some(value) => Ok(value.copy(alloc)?),
        None => Err(AttrError::NoCurrent),
    }
}

#[inline(always)]
fn units_give(
    alloc: Global,
    syntax: &Syntax,
    declared: &Declared,
    entities: &Entities,
    fixed: Option<&Units>,
    units: &Units,
) -> Result<AttrValue, AttrError>
    ensures { IsOrMemory (units_give syntax.now declared.now entities.now (option_copied fixed.entry) units.now) result }
{
    if is_cdata(declared) {
        if is_other(fixed, units) {
            return Err(AttrError::FixedDiffers);
        }
        return Ok(AttrValue::Cdata(units.copy(alloc)?));
    }
    let names = tokens_in(alloc, folds(syntax, declared), units.items())?;
    tokens_give(alloc, syntax, declared, entities, fixed, names)
}

fn tokens_give(
    alloc: Global,
    syntax: &Syntax,
    declared: &Declared,
    entities: &Entities,
    fixed: Option<&Units>,
    names: Vec<Name>,
) -> Result<AttrValue, AttrError>
    ensures { IsOrMemory (tokens_give syntax.now declared.now entities.now (option_copied fixed.entry) names.items) result }
{
    if let Some(reason) = reason_against(alloc, syntax, declared, entities, fixed, &names)? {
        return Err(reason);
    }
    Ok(token_value(alloc, declared, entities, names)?)
}

fn reason_against(
    alloc: Global,
    syntax: &Syntax,
    declared: &Declared,
    entities: &Entities,
    fixed: Option<&Units>,
    names: &[Name],
) -> Result<Option<AttrError>, Memory>
    ensures { IfOk result (λ r. r ≡ reason_against syntax.now declared.now entities.now (option_copied fixed.entry) names.now) }
{
    if passes_namelen(syntax, names) {
        return Ok(Some(AttrError::NameLength));
    }
    if names_no_notation(syntax, declared, entities, names) {
        return Ok(Some(AttrError::NotationUnknown));
    }
    if !are_tokens(syntax, declared, names) {
        return Ok(Some(AttrError::NotAToken));
    }
    if !all_in_group(declared, names) {
        return Ok(Some(AttrError::NotInGroup));
    }
    if are_other(alloc, folds(syntax, declared), fixed, names)? {
        return Ok(Some(AttrError::FixedDiffers));
    }
    if names_no_data(declared, entities, names) {
        return Ok(Some(AttrError::EntityUnknown));
    }
    Ok(None)
}

fn token_value(
    alloc: Global,
    declared: &Declared,
    entities: &Entities,
    names: Vec<Name>,
) -> Result<AttrValue, Memory>
    requires { 0 < length names.items }
    ensures { IfOk result (λ value. value ≡ token_value declared.now entities.now.entities names.items) }
{
    match declared {
        Declared::Notation(_) => Ok(first_notation(names)),
        Declared::Entity => Ok(AttrValue::Entities(numbers_of(alloc, entities, &names)?)),
        Declared::Entities => Ok(AttrValue::Entities(numbers_of(alloc, entities, &names)?)),
        _ => Ok(AttrValue::Tokens(Names::of(names))),
    }
}

fn first_notation(names: Vec<Name>) -> AttrValue
    requires { 0 < length names.items }
    ensures { result ≡ AttrValue.Notation (first_of names.items) }
{
    let mut names = names;
    AttrValue::Notation(names.remove(0))
}

fn numbers_of(alloc: Global, entities: &Entities, names: &[Name]) -> Result<Numbers, Memory>
    ensures { IfOk result (λ numbers. numbers ≡ map (entity_number entities.now.entities) names.now) }
{
    let mut numbers = Vec::with_capacity(alloc, names.len())?;
    for name in names {
        let number = entities.lookup(Space::General, name).unwrap_or(0);
        numbers.push(number)?;
    }
    Ok(Numbers::of(numbers))
}
