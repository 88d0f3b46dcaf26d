// Names as the implied syntax has them, and tables of names.
use crate::reading::{is, words_of};
use crate::writing::put_yes;
use sgml_names::{NameIndex, entity_name, general_name, general_names, repeats};
use sgml_syntax::implied;
use sgml_text::Memory;
use sgml_trials::{put, put_number};
use std::alloc::Global;

fn tell_name(alloc: Global, word: &[u8], bytes: &[u8], out: &mut Vec<u8>) -> Result<(), Memory> {
    if bytes.is_empty() {
        return put(out, "no name");
    }
    let name = if is(word, "entity name") {
        entity_name(alloc, &implied(), bytes)?
    } else {
        general_name(alloc, &implied(), bytes)?
    };
    out.extend_from_slice(name.items())?;
    Ok(())
}

fn tell_names(alloc: Global, words: &[u8], out: &mut Vec<u8>) -> Result<(), Memory> {
    let names = words_of(alloc, words, b' ')?;
    for name in general_names(alloc, &implied(), &names)?.items() {
        out.extend_from_slice(name.items())?;
        out.push(b' ')?;
    }
    Ok(())
}

// The number that a name had when it is added once more.
fn tell_earlier(alloc: Global, name: &[u8], out: &mut Vec<u8>) -> Result<(), Memory> {
    let mut table = NameIndex::new(alloc);
    table.add_new(name, 7)?;
    match table.add_new(name, 8)? {
        Some(number) => put_number(alloc, out, number as u64),
        None => put(out, "none"),
    }
}

pub fn tell(alloc: Global, word: &[u8], bytes: &[u8], out: &mut Vec<u8>) -> Result<(), Memory> {
    if is(word, "repeats") {
        put_yes(out, repeats(alloc, &words_of(alloc, bytes, b' ')?)?)
    } else if is(word, "general names") {
        tell_names(alloc, bytes, out)
    } else if is(word, "added twice") {
        tell_earlier(alloc, bytes, out)
    } else {
        tell_name(alloc, word, bytes, out)
    }
}
