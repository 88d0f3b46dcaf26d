// What a run is set to.
ghost use Rattle.std.specs.Prelude.{◌≡◌, ◌≤◌, IfOk, IfSome, Some, option_map};
ghost use Rattle.sgml_io.specs.Causes.{HasCause, Rose};
ghost use Rattle.sgml_settings.specs.BadFiles.{IsAbsentFile};
ghost use Rattle.sgml_settings.specs.Setting.{OrFails, Sets, unset, ReadsNamedOver};

use crate::bad_file::SettingsError;
use crate::catalog::catalog_in;
use crate::declaration::declaration_in;
use sgml_catalog::{Catalog, read_catalog};
use sgml_declared::placed;
use sgml_io::Store;
use sgml_syntax::Syntax;
use sgml_text::{Memory, Text};
use std::alloc::Global;

/// What a run is set to before its document is read.
#[derive(Drop)]
pub struct Settings {
    /// The catalog; without one, one that has no entries.
    pub catalog: Catalog,
    /// The name of the catalog's file; without one, no byte.
    pub catalog_base: Text,
    /// The syntax of a document without an SGML declaration, where the catalog names one.
    pub declaration: Option<Syntax>,
}

/// Reads the catalog of this name, and then the SGML declaration that it names (TR9401).
pub fn read_settings<S: Store>(
    alloc: Global,
    store: &mut S,
    catalog: Option<&Text>,
) -> Result<Settings, SettingsError>
    ensures sets { IfSome (S.files store.old) (λ files. OrFails (Sets files (option_map (λ name. name.now) catalog.entry)) result) }
    ensures files { S.files store.new ≡ S.files store.old }
    ensures store { HasCause SettingsError.Store (S.faults store.old) (S.faults store.new) result }
    ensures absents { S.absents store.old ≤ S.absents store.new }
    ensures absent { IsAbsentFile result → Rose (S.absents store.old) (S.absents store.new) }
{
    match catalog {
        Some(name) => settings_by(alloc, store, name),
        None => match without_catalog(alloc) {
            Ok(settings) => Ok(settings),
            Err(_) => Err(SettingsError::Memory),
        },
    }
}

fn without_catalog(alloc: Global) -> Result<Settings, Memory>
    ensures { IfOk result (λ settings. settings ≡ unset) }
{
    let Ok(catalog) = read_catalog(alloc, &[]) else {
        return Err(Memory);
    };
    Ok(Settings {
        catalog,
        catalog_base: Text::of(Vec::new(alloc)),
        declaration: None,
    })
}

fn settings_by<S: Store>(
    alloc: Global,
    store: &mut S,
    name: &Text,
) -> Result<Settings, SettingsError>
    ensures sets { IfSome (S.files store.old) (λ files. OrFails (Sets files (Some name.now)) result) }
    ensures files { S.files store.new ≡ S.files store.old }
    ensures store { HasCause SettingsError.Store (S.faults store.old) (S.faults store.new) result }
    ensures absents { S.absents store.old ≤ S.absents store.new }
    ensures absent { IsAbsentFile result → Rose (S.absents store.old) (S.absents store.new) }
{
    let Ok(catalog_base) = name.copy(alloc) else {
        return Err(SettingsError::Memory);
    };
    let catalog = match catalog_in(alloc, store, name) {
        Ok(catalog) => catalog,
        Err(error) => return Err(error),
    };
    match declaration_named(alloc, store, name, catalog.sgmldecl()) {
        Ok(declaration) => Ok(Settings {
            catalog,
            catalog_base,
            declaration,
        }),
        Err(error) => Err(error),
    }
}

/// The syntax of the SGML declaration that a catalog of this name names so.
fn declaration_named<S: Store>(
    alloc: Global,
    store: &mut S,
    base: &Text,
    identifier: Option<&Text>,
) -> Result<Option<Syntax>, SettingsError>
    ensures read { ReadsNamedOver (S.files store.old) base.now (option_map (λ name. name.now) identifier.entry) result }
    ensures files { S.files store.new ≡ S.files store.old }
    ensures store { HasCause SettingsError.Store (S.faults store.old) (S.faults store.new) result }
    ensures absents { S.absents store.old ≤ S.absents store.new }
    ensures absent { IsAbsentFile result → Rose (S.absents store.old) (S.absents store.new) }
{
    let Some(identifier) = identifier else {
        return Ok(None);
    };
    let Ok(identifier) = identifier.copy(alloc) else {
        return Err(SettingsError::Memory);
    };
    let Ok(name) = placed(alloc, base, identifier) else {
        return Err(SettingsError::Memory);
    };
    match declaration_in(alloc, store, &name) {
        Ok(syntax) => Ok(Some(syntax)),
        Err(error) => Err(error),
    }
}
