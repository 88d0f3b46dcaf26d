// The texts that a parser wants, from the store.
ghost use Rattle.std.specs.Prelude.{◌≡◌, OnOk, None, true};
ghost use Rattle.sgml_io.specs.Causes.{HasCause};
ghost use Rattle.sgml_io.specs.Files.{Keeps};
ghost use Rattle.sgml_parse.specs.Parsing.{is_in_instance};
ghost use Rattle.sgml_parse.specs.Wanting.{IsFirstUnsupplied};
ghost use Rattle.sgml_source.specs.Feeding.{StaysThere, SuppliesIfTold, SuppliesRestIfTold, IsSupplied};

use crate::error::SourceError;
use sgml_io::{FetchError, Store, fetch};
use sgml_parse::{Parser, Supply};
use sgml_text::Text;
use std::alloc::Global;

/// Gives the parser the text of an entity: what the store has under the name of its file, if it has at most `limit` bytes.
pub(crate) fn supply_from<S: Store>(
    alloc: Global,
    store: &mut S,
    limit: usize,
    parser: &mut Parser,
    entity: u32,
    name: &Text,
) -> Result<(), SourceError>
    ensures supplied { OnOk result (SuppliesIfTold limit (S.files store.old) entity name.now parser.old parser.new) }
    ensures after { OnOk result (IsSupplied entity parser.old parser.new) }
    ensures there { OnOk result (StaysThere parser.old parser.new) }
    ensures records { OnOk result (parser.new.records ≡ parser.old.records) }
    ensures ended { OnOk result (parser.new.ended ≡ parser.old.ended) }
    ensures others { Keeps (S.given store.old) (S.given store.new) (S.left store.old) (S.left store.new) }
    ensures files { S.files store.new ≡ S.files store.old }
    ensures cause { HasCause SourceError.Store (S.faults store.old) (S.faults store.new) result }
{
    let given = match fetch(alloc, store, name.items(), limit as u64) {
        Ok(Some(bytes)) => Supply::Text(Text::of(bytes)),
        Ok(None) => Supply::Absent,
        Err(FetchError::TooLarge) => Supply::TooLarge,
        Err(FetchError::Fault) => return Err(SourceError::Store),
        Err(FetchError::Memory) => return Err(SourceError::Memory),
    };
    match parser.supply(entity, given) {
        Ok(()) => Ok(()),
        Err(_) => Err(SourceError::Memory),
    }
}

/// Gives the parser, once its prolog was told, the text of each file that wasn't supplied, in order of declaration.
pub(crate) fn supply_rest<S: Store>(
    alloc: Global,
    store: &mut S,
    limit: usize,
    parser: &mut Parser,
) -> Result<(), SourceError>
    requires prolog { is_in_instance parser.old.reading ≡ true }
    requires well { parser.old.failed ≡ None }
    ensures supplied { OnOk result (SuppliesRestIfTold limit (S.files store.old) parser.old parser.new) }
    ensures rest { OnOk result (IsFirstUnsupplied 0 parser.new None) }
    ensures there { OnOk result (StaysThere parser.old parser.new) }
    ensures records { OnOk result (parser.new.records ≡ parser.old.records) }
    ensures ended { OnOk result (parser.new.ended ≡ parser.old.ended) }
    ensures others { Keeps (S.given store.old) (S.given store.new) (S.left store.old) (S.left store.new) }
    ensures files { S.files store.new ≡ S.files store.old }
    ensures cause { HasCause SourceError.Store (S.faults store.old) (S.faults store.new) result }
{
    let mut from = 0u32;
    'rest: for _ in 0..u64::MAX {
        let found = match parser.wanted_from(from) {
            Ok(found) => found,
            Err(_) => return Err(SourceError::Memory),
        };
        match found {
            Some(wanted) => {
                match supply_from(alloc, store, limit, parser, wanted.entity, &wanted.name) {
                    Ok(()) => from = wanted.entity.saturating_add(1),
                    Err(failure) => return Err(failure),
                }
            }
            None => return Ok(()),
        }
    }
    Err(SourceError::Memory)
}
