// What is put out at the items of an element's content.
use crate::reading::{is, words_of};
use sgml_records::{Put, RecordState};
use sgml_text::Memory;
use sgml_trials::put;
use std::alloc::Global;

fn put_word(put: Put) -> &'static str {
    match put {
        Put::Nothing => "nothing",
        Put::Kept => "kept",
        Put::Held => "held",
    }
}

// What an item puts out. `end?` asks on a copy what a record end would.
fn put_at(state: &mut RecordState, item: &[u8]) -> Put {
    if is(item, "end") {
        return state.re();
    }
    if is(item, "data") {
        return state.chars();
    }
    if is(item, "subelement") {
        return state.proper();
    }
    if is(item, "end?") {
        let mut copy = *state;
        return copy.re();
    }
    if is(item, "start") {
        state.rs();
    } else {
        state.markup();
    }
    Put::Nothing
}

/// What each of the items puts out, and whether the state begins anew after the last.
pub fn tell(alloc: Global, items: &[u8], out: &mut Vec<u8>) -> Result<(), Memory> {
    let mut state = RecordState::new();
    for item in words_of(alloc, items, b' ')?.iter() {
        put(out, put_word(put_at(&mut state, item.items())))?;
        out.push(b' ')?;
    }
    state.finish();
    put(
        out,
        if state == RecordState::new() {
            "begun anew"
        } else {
            "not begun anew"
        },
    )
}
