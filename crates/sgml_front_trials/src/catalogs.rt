// What is told of a catalog.
ghost use Rattle.std.specs.Prelude.{◌<◌, length};

use sgml_catalog::{Catalog, CatalogError, Kind, read_catalog};
use sgml_entity::External;
use sgml_text::{Memory, Name, Text};
use sgml_trials::{put, put_counted};
use std::alloc::Global;

fn text_of(alloc: Global, bytes: &[u8]) -> Result<Option<Text>, Memory> {
    if bytes.is_empty() {
        return Ok(None);
    }
    Ok(Some(Text::of(bytes.to_vec(alloc)?)))
}

fn kind_of(word: &[u8]) -> Kind {
    match word {
        b"NOTATION" => Kind::Notation,
        b"PARAMETER" => Kind::Parameter,
        b"GENERAL" => Kind::General,
        _ => Kind::Doctype,
    }
}

// The identifier that an external identifier or a name is resolved to: behind `+` where an entry gave it, behind `=`
// where it was declared.
fn tell_resolved(
    alloc: Global,
    catalog: &Catalog,
    external: &External,
    kind: Kind,
    name: &[u8],
    out: &mut Vec<u8>,
) -> Result<(), Memory>
    requires { 0 < length name.now }
{
    let name = Name::of(name.to_vec(alloc)?);
    if let Some(found) = catalog.resolve(alloc, external, kind, &name)? {
        out.push(if found.from_catalog { b'+' } else { b'=' })?;
        out.extend_from_slice(found.text.items())?;
        return Ok(());
    }
    put(out, "none")
}

fn tell_file(catalog: &Catalog, out: &mut Vec<u8>) -> Result<(), Memory> {
    match catalog.sgmldecl() {
        Some(file) => {
            out.extend_from_slice(file.items())?;
            Ok(())
        }
        None => put(out, "none"),
    }
}

// The answer to a question of a catalog: `SGMLDECL`; `PUBLIC` with a public and a system identifier; a kind and a
// name.
fn tell_of(
    alloc: Global,
    catalog: &Catalog,
    question: &[u8],
    first: &[u8],
    second: &[u8],
    out: &mut Vec<u8>,
) -> Result<(), Memory> {
    match question {
        b"SGMLDECL" => tell_file(catalog, out),
        b"PUBLIC" => {
            let external = External {
                public: text_of(alloc, first)?,
                system: text_of(alloc, second)?,
            };
            tell_resolved(alloc, catalog, &external, Kind::Doctype, b"D", out)
        }
        b"ENTRIES" => put_counted(alloc, out, "", catalog.entries().len() as u64),
        _ if first.is_empty() => put(out, "no name"),
        kind => {
            let external = External {
                public: None,
                system: None,
            };
            tell_resolved(alloc, catalog, &external, kind_of(kind), first, out)
        }
    }
}

/// The answer to a question of the catalog with this text, or the place of its refusal.
pub fn tell_catalog(
    alloc: Global,
    text: &[u8],
    question: &[u8],
    first: &[u8],
    second: &[u8],
    out: &mut Vec<u8>,
) -> Result<(), Memory> {
    match read_catalog(alloc, text) {
        Ok(catalog) => tell_of(alloc, &catalog, question, first, second, out),
        Err(CatalogError::BadCatalog { at }) => put_counted(alloc, out, "bad ", at),
        Err(CatalogError::Memory) => put(out, "no memory"),
    }
}
