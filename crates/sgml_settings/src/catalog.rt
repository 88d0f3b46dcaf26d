// The catalog's file.
ghost use Rattle.std.specs.Prelude.{◌≡◌, ◌≤◌, IfSome, Err};
ghost use Rattle.sgml_io.specs.Causes.{HasCause, Rose};
ghost use Rattle.sgml_source.specs.Inputs.{most_bytes, fetched_in};
ghost use Rattle.sgml_settings.specs.BadFiles.{IsAbsentFile};
ghost use Rattle.sgml_settings.specs.Setting.{OrFails, ReadsCatalog, CatalogOf};

use crate::bad_file::{CATALOG, SettingsError, bad_file};
use crate::text::read_text;
use sgml_catalog::{Catalog, CatalogError, read_catalog};
use sgml_io::Store;
use sgml_text::{Reason, Text};
use std::alloc::Global;

/// The catalog in the file of this name.
pub(crate) fn catalog_in<S: Store>(
    alloc: Global,
    store: &mut S,
    name: &Text,
) -> Result<Catalog, SettingsError>
    ensures read { IfSome (S.files store.old) (λ files. OrFails (ReadsCatalog name.now (fetched_in most_bytes files name.now)) result) }
    ensures files { S.files store.new ≡ S.files store.old }
    ensures store { HasCause SettingsError.Store (S.faults store.old) (S.faults store.new) result }
    ensures absents { S.absents store.old ≤ S.absents store.new }
    ensures absent { IsAbsentFile result → Rose (S.absents store.old) (S.absents store.new) }
{
    let text = match read_text(alloc, store, CATALOG, name) {
        Ok(text) => text,
        Err(error) => return Err(error),
    };
    catalog_of(alloc, name, text.items())
}

/// The catalog that this text of the file is.
fn catalog_of(alloc: Global, name: &Text, text: &[u8]) -> Result<Catalog, SettingsError>
    ensures read { OrFails (CatalogOf name.now text.now) result }
    ensures store { result ≡ Err SettingsError.Store → ⊥ }
    ensures there { IsAbsentFile result → ⊥ }
{
    match read_catalog(alloc, text) {
        Ok(catalog) => Ok(catalog),
        Err(CatalogError::BadCatalog { at }) => Err(bad_file(
            alloc,
            CATALOG,
            name,
            text,
            at,
            Reason::BadCatalog,
        )),
        Err(CatalogError::Memory) => Err(SettingsError::Memory),
    }
}
