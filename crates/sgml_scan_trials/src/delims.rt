// Delimiters and short reference strings.
use crate::reading::{is, words_of};
use crate::settings::{begins, mode_of, syntax_of};
use sgml_delim::recognise;
use sgml_shortref::{Maps, longest};
use sgml_text::Memory;
use sgml_trials::{number_of, put, put_number, split_at};
use std::alloc::Global;

// The delimiter at the end of a text, and where more may follow.
fn tell_delimiter(
    alloc: Global,
    field: &[u8],
    text: &[u8],
    out: &mut Vec<u8>,
) -> Result<(), Memory> {
    let (mode, settings) = split_at(field, b' ');
    let syntax = syntax_of(settings);
    let net = !begins(settings, "NET=NO");
    let ended = recognise(&syntax, mode_of(mode), net, text, 0, true);
    let more = recognise(&syntax, mode_of(mode), net, text, 0, false);
    let told = format!(in alloc; "{ended:?}, {more:?}")?;
    put(out, &told)
}

// The short reference string at a place: at the end of a text, or where more may follow.
fn tell_string(alloc: Global, field: &[u8], text: &[u8], out: &mut Vec<u8>) -> Result<(), Memory> {
    let (at, ended) = split_at(field, b' ');
    let matched = longest(text, number_of(at) as usize, is(ended, "END"));
    let told = format!(in alloc; "{matched:?}")?;
    put(out, &told)
}

// Maps of these names, each added without a search.
fn tell_maps(alloc: Global, words: &[u8], out: &mut Vec<u8>) -> Result<(), Memory> {
    let mut maps = Maps::new(alloc);
    for word in words_of(alloc, words, b' ')? {
        if maps.count() < 1000 {
            maps.push(word, Vec::new(alloc))?;
        }
    }
    put_number(alloc, out, maps.count() as u64)
}

// Whether each of these names is new as a map's.
fn tell_added(alloc: Global, words: &[u8], out: &mut Vec<u8>) -> Result<(), Memory> {
    let mut maps = Maps::new(alloc);
    for word in words_of(alloc, words, b' ')? {
        if maps.count() < 1000 {
            let fresh = maps.add(word, Vec::new(alloc))?;
            put(out, if fresh { "new " } else { "there " })?;
        }
    }
    Ok(())
}

pub fn tell(
    alloc: Global,
    word: &[u8],
    field: &[u8],
    bytes: &[u8],
    out: &mut Vec<u8>,
) -> Result<(), Memory> {
    if is(word, "delimiter") {
        tell_delimiter(alloc, field, bytes, out)
    } else if is(word, "string") {
        tell_string(alloc, field, bytes, out)
    } else if is(word, "maps") {
        tell_maps(alloc, bytes, out)
    } else {
        tell_added(alloc, bytes, out)
    }
}
