// How a literal is read as an attribute value.
ghost use Rattle.std.specs.Prelude.{◌≡◌, IfOk, IsTrue, nat_lt};
ghost use Rattle.std.specs.List.{flat_map, list_all};
ghost use Rattle.sgml_text.specs.Units.{characters};
ghost use Rattle.sgml_attr.specs.declared.definition.Declared.{Declared};
ghost use Rattle.std.specs.Option.{option_to_list};
ghost use Rattle.sgml_attr.specs.Answers.{IsOrMemory};
ghost use Rattle.sgml_attr.specs.Parts.{character_of, is_space};
ghost use Rattle.sgml_attr.specs.Literal.{character_read, unit_read, is_cdata, is_behind, last_separator, interpreted, limited};
ghost use Rattle.sgml_attr.specs.Spacing.{gap_after_space, spacing, reading};

use crate::definition::Declared;
use crate::error::AttrError;
use sgml_text::{Memory, Unit, Units};
use std::alloc::Global;

/// Reads the units of a literal as a value that is declared so: RS is ignored, RE and TAB are
/// SPACE, and of any value but CDATA the SPACEs at the ends are dropped and those together are one
/// (7.9.3). It fails exactly where more units than the limit come out, which is LITLEN.
pub fn interpret_literal(
    alloc: Global,
    units: &[Unit],
    declared: &Declared,
    limit: u32,
) -> Result<Units, AttrError>
    ensures { IsOrMemory (limited limit (interpreted declared.now units.now)) result }
{
    let read = read_units(alloc, units, declared)?;
    if read.len() > limit as usize {
        return Err(AttrError::LiteralLimit);
    }
    Ok(Units::of(read))
}

/// Whether a value of these units is read as they stand: each is a character of the text behind the
/// separators, among which SPACE is none of character data.
#[inline(always)]
pub fn are_plain(units: &[Unit], declared: &Declared) -> bool
    ensures plain { result ≡ list_all (is_behind (last_separator declared.now)) units.now }
    ensures same { IsTrue result → interpreted declared.now units.now ≡ units.now }
{
    all_behind(last_separator(declared), units)
}

/// Whether none of these bytes is a SPACE or another separator, so that as characters of the text they are
/// read as they stand.
pub fn are_apart(bytes: &[u8]) -> bool
    ensures apart { result ≡ list_all (nat_lt 32) bytes.now }
    ensures same { IsTrue result → (declared : Declared) → interpreted declared (characters bytes.now) ≡ characters bytes.now }
{
    for b in bytes {
        if *b <= b' ' {
            return false;
        }
    }
    true
}

fn last_separator(declared: &Declared) -> u8
    ensures { result ≡ last_separator declared.now }
{
    if is_cdata(declared) { b' ' - 1 } else { b' ' }
}

fn all_behind(last: u8, units: &[Unit]) -> bool
    ensures { result ≡ list_all (is_behind last) units.now }
{
    for unit in units {
        if !is_behind(last, *unit) {
            return false;
        }
    }
    true
}

#[inline(always)]
fn is_behind(last: u8, unit: Unit) -> bool
    ensures { result ≡ is_behind last unit }
{
    match unit {
        Unit::Byte(b) => b > last,
        Unit::Coded(_) => false,
        Unit::Sdata(_) => false,
    }
}

fn read_units(alloc: Global, units: &[Unit], declared: &Declared) -> Result<Vec<Unit>, Memory>
    ensures { IfOk result (λ read. read.items ≡ interpreted declared.now units.now) }
{
    if is_cdata(declared) {
        read_data(alloc, units)
    } else {
        read_tokens(alloc, units)
    }
}

pub(crate) fn is_cdata(declared: &Declared) -> bool
    ensures { result ≡ is_cdata declared.now }
{
    match declared {
        Declared::Cdata => true,
        _ => false,
    }
}

fn read_data(alloc: Global, units: &[Unit]) -> Result<Vec<Unit>, Memory>
    ensures { IfOk result (λ read. read.items ≡ flat_map unit_read units.now) }
{
    let mut read = Vec::with_capacity(alloc, units.len())?;
    for unit in units {
        if let Some(unit) = read_unit(*unit) {
            read.push(unit)?;
        }
    }
    Ok(read)
}

// What a unit is read as; RS is read as nothing.
fn read_unit(unit: Unit) -> Option<Unit>
    ensures { option_to_list result ≡ unit_read unit }
{
    match unit {
        Unit::Byte(b) => read_character(b),
        Unit::Coded(b) => Some(Unit::Byte(b)),
        Unit::Sdata(entity) => Some(Unit::Sdata(entity)),
    }
}

fn read_character(b: u8) -> Option<Unit>
    ensures { option_to_list result ≡ character_read b }
{
    if b == b'\n' {
        None
    } else if b == b'\r' || b == b'\t' {
        Some(Unit::Byte(b' '))
    } else {
        Some(Unit::Byte(b))
    }
}

// Where a unit stands among the parts.
#[derive(Clone, Copy)]
enum Gap {
    // Before the first part.
    Before,
    // In a part.
    Within,
    // After a part, and a SPACE.
    After,
}

fn read_tokens(alloc: Global, units: &[Unit]) -> Result<Vec<Unit>, Memory>
    ensures { IfOk result (λ read. read.items ≡ interpreted Declared.Name units.now) }
{
    let mut read = Vec::with_capacity(alloc, units.len())?;
    let mut gap = Gap::Before;
    for unit in units {
        gap = add_unit(&mut read, gap, *unit)?;
    }
    Ok(read)
}

fn add_unit(read: &mut Vec<Unit>, gap: Gap, unit: Unit) -> Result<Gap, Memory>
    ensures { IfOk result (λ next. (read.new.items, next) ≡ reading (read.old.items, gap) unit) }
{
    match read_unit(unit) {
        Some(unit) => add_spaced(read, gap, unit),
        None => Ok(gap),
    }
}

fn add_spaced(read: &mut Vec<Unit>, gap: Gap, unit: Unit) -> Result<Gap, Memory>
    ensures { IfOk result (λ next. (read.new.items, next) ≡ spacing (read.old.items, gap) unit) }
{
    if is_space(unit) {
        return Ok(after_space(gap));
    }
    if let Gap::After = gap {
        read.push(Unit::Byte(b' '))?;
        read.push(unit)?;
        return Ok(Gap::Within);
    }
    read.push(unit)?;
    Ok(Gap::Within)
}

fn after_space(gap: Gap) -> Gap
    ensures { result ≡ gap_after_space gap }
{
    match gap {
        Gap::Before => Gap::Before,
        Gap::Within => Gap::After,
        Gap::After => Gap::After,
    }
}

pub(crate) fn is_space(unit: Unit) -> bool
    ensures { result ≡ is_space unit }
{
    character_of(unit) == b' '
}

// The character of a unit; that of a reference is 0, which no token has.
pub(crate) fn character_of(unit: Unit) -> u8
    ensures { result ≡ character_of unit }
{
    match unit {
        Unit::Byte(b) => b,
        Unit::Coded(b) => b,
        Unit::Sdata(_) => 0,
    }
}
