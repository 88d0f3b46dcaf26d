// The index of a catalog's entries.
ghost use Rattle.std.specs.Prelude.{◌≡◌, IfOk, OnOk};
ghost use Rattle.sgml_catalog.specs.Keys.{IsIndexOf, Notes, holds_for, is_sought, first_name, is_folded, same_key, key_of};

use crate::entry::{Entry, Sort};
use crate::index::{Index, Key};
use crate::white::single;
use sgml_text::{Memory, upper_case};
use std::alloc::Global;

/// The numbers of the entries, by what they are looked up by.
pub(crate) fn index_of(alloc: Global, entries: &[Entry]) -> Result<Index, Memory>
    ensures { IfOk result (λ index. IsIndexOf index entries.now) }
{
    let mut index = Index::new(alloc);
    for number in 0..entries.len() {
        note(alloc, &mut index, &entries[number], number)?;
    }
    Ok(index)
}

fn note(alloc: Global, index: &mut Index, entry: &Entry, number: usize) -> Result<(), Memory>
    ensures { OnOk result (Notes index.old index.new (λ q. holds_for q entry.now) number) }
{
    let first = first_name(alloc, entry.sort, entry.name.items())?;
    note_name(alloc, index, entry.sort, entry.over, &first, number)?;
    if is_folded(entry.sort) {
        let folded = upper_case(alloc, entry.name.items())?;
        note_name(alloc, index, entry.sort, entry.over, &folded, number)?;
    }
    Ok(())
}

fn first_name(alloc: Global, sort: Sort, name: &[u8]) -> Result<Vec<u8>, Memory>
    ensures { IfOk result (λ first. first.items ≡ first_name sort name.now) }
{
    match sort {
        Sort::Public => single(alloc, name),
        _ => Ok(name.to_vec(alloc)?),
    }
}

fn is_folded(sort: Sort) -> bool
    ensures { result ≡ is_folded sort }
{
    matches!(sort, Sort::Doctype | Sort::Notation)
}

fn note_name(
    alloc: Global,
    index: &mut Index,
    sort: Sort,
    over: bool,
    name: &[u8],
    number: usize,
) -> Result<(), Memory>
    ensures { OnOk result (Notes index.old index.new (is_sought sort over name.now) number) }
{
    note_key(index, key_for(alloc, sort, false, name)?, number)?;
    if over {
        note_key(index, key_for(alloc, sort, true, name)?, number)?;
    }
    Ok(())
}

fn note_key(index: &mut Index, key: Key, number: usize) -> Result<(), Memory>
    ensures { OnOk result (Notes index.old index.new (λ q. same_key q (key_of key)) number) }
{
    if index.number(&key).is_none() {
        index.add(key, number)?;
    }
    Ok(())
}

pub(crate) fn key_for(alloc: Global, sort: Sort, over: bool, name: &[u8]) -> Result<Key, Memory>
    ensures { IfOk result (λ key. key_of key ≡ (sort, over, name.now)) }
{
    Ok(Key {
        sort,
        over,
        name: name.to_vec(alloc)?,
    })
}
