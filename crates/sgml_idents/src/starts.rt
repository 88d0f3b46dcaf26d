// The identifiers of one start.
ghost use Rattle.std.specs.List.{list_any};
ghost use Rattle.std.specs.Prelude.{◌≡◌, ◌≤◌, ◌∷◌, ◌++◌, [], OnOk, length, drop};
ghost use Rattle.sgml_names.specs.Index.{names_of};
ghost use Rattle.sgml_said.specs.theory_reading.Identifiers.{ids_of, ids_by, references_by, tokens_of, some_in};
ghost use Rattle.sgml_said.specs.Told.{attributes_with};
ghost use Rattle.sgml_idents.specs.Judged.{idrefs_kept, HasToo, ids_with, idrefs_by};
ghost use Rattle.sgml_idents.specs.Noted.{idrefs_at, identifies, definition_identifies};

use crate::idents::Reference;
use sgml_attr::{AttrValue, Declared, Definition};
use sgml_names::{NameIndex, any_found, see};
use sgml_text::{Memory, Name, Place};
use std::alloc::Global;

fn tokens(value: &AttrValue) -> &[Name]
    ensures { result.now ≡ tokens_of value.now }
{
    match value {
        AttrValue::Tokens(tokens) => tokens.items(),
        _ => &[],
    }
}

fn identifies(declared: &Declared) -> bool
    ensures { result ≡ identifies declared.now }
{
    match declared {
        Declared::Id => true,
        Declared::Idref => true,
        Declared::Idrefs => true,
        _ => false,
    }
}

/// Whether one of the attributes is an ID or has IDREFs.
#[inline(always)]
pub(crate) fn some_identify(definitions: &[Definition]) -> bool
    ensures { result ≡ list_any definition_identifies definitions.now }
{
    for definition in definitions {
        if identifies(&definition.declared) {
            return true;
        }
    }
    false
}

// The ID values among these.
fn ids<'a>(declared: &Declared, value: &'a AttrValue) -> &'a [Name]
    ensures { result.now ≡ ids_by declared.now (tokens_of value.now) }
{
    match declared {
        Declared::Id => tokens(value),
        _ => &[],
    }
}

// What the IDREFs among these name.
fn references<'a>(declared: &Declared, value: &'a AttrValue) -> &'a [Name]
    ensures { result.now ≡ references_by declared.now (tokens_of value.now) }
{
    match declared {
        Declared::Idref => tokens(value),
        Declared::Idrefs => tokens(value),
        _ => &[],
    }
}

// How many values have a definition.
#[tactic(auto, using(crate::proofs::Growing::no_values, crate::proofs::Growing::no_definitions))]
fn defined_values(definitions: &[Definition], values: &[AttrValue]) -> usize
    ensures definitions { result ≤ length definitions.now }
    ensures values { result ≤ length values.now }
    ensures all { attributes_with (drop result definitions.now) (drop result values.now) ≡ [] }
{
    if definitions.len() < values.len() {
        return definitions.len();
    }
    values.len()
}

/// Whether an ID of a start is there.
pub(crate) fn has_repeated(
    table: &NameIndex,
    definitions: &[Definition],
    values: &[AttrValue],
) -> bool
    ensures { result ≡ some_in (ids_of (attributes_with definitions.now values.now)) (names_of table.now) }
{
    for i in 0..defined_values(definitions, values) {
        if any_found(table, ids(&definitions[i].declared, &values[i])) {
            return true;
        }
    }
    false
}

fn add_names(table: &mut NameIndex, names: &[Name]) -> Result<(), Memory>
    ensures { OnOk result (HasToo (names_of table.old) names.now (names_of table.new)) }
{
    for name in names {
        see(table, name.items())?;
    }
    Ok(())
}

/// Adds the IDs of a start.
pub(crate) fn add_ids(
    table: &mut NameIndex,
    definitions: &[Definition],
    values: &[AttrValue],
) -> Result<(), Memory>
    ensures { OnOk result (HasToo (names_of table.old) (ids_with definitions.now values.now) (names_of table.new)) }
{
    for i in 0..defined_values(definitions, values) {
        add_names(table, ids(&definitions[i].declared, &values[i]))?;
    }
    Ok(())
}

fn add_idref(
    alloc: Global,
    idrefs: &mut Vec<Reference>,
    place: Place,
    name: &Name,
) -> Result<(), Memory>
    ensures { OnOk result (idrefs_kept idrefs.new.items ≡ idrefs_kept idrefs.old.items ++ idrefs_at place (name.now ∷ [])) }
{
    let name = name.copy(alloc)?;
    idrefs.push(Reference { place, name })?;
    Ok(())
}

fn add_idrefs(
    alloc: Global,
    idrefs: &mut Vec<Reference>,
    place: Place,
    names: &[Name],
) -> Result<(), Memory>
    ensures { OnOk result (idrefs_kept idrefs.new.items ≡ idrefs_kept idrefs.old.items ++ idrefs_at place names.now) }
{
    for name in names {
        add_idref(alloc, idrefs, place, name)?;
    }
    Ok(())
}

/// Adds the IDREFs of a start at this place.
pub(crate) fn add_references(
    alloc: Global,
    idrefs: &mut Vec<Reference>,
    place: Place,
    definitions: &[Definition],
    values: &[AttrValue],
) -> Result<(), Memory>
    ensures { OnOk result (idrefs_kept idrefs.new.items ≡ idrefs_kept idrefs.old.items ++ idrefs_by definitions.now values.now place) }
{
    for i in 0..defined_values(definitions, values) {
        add_idrefs(
            alloc,
            idrefs,
            place,
            references(&definitions[i].declared, &values[i]),
        )?;
    }
    Ok(())
}
