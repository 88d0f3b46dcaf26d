// What automata answer.
ghost use Rattle.std.specs.Prelude.{IfOk};
ghost use Rattle.sgml_automaton.specs.Automaton.{IsStateOf};

use crate::residuals::put_left;
use crate::writing::{label, put_name, put_rest};
use sgml_automaton::{Automaton, BuildError, ModelState};
use sgml_text::Memory;
use sgml_trials::{put, put_number};
use std::alloc::Global;

/// The two tokens that clash, and their name.
pub fn put_clash(alloc: Global, out: &mut Vec<u8>, error: &BuildError) -> Result<(), Memory> {
    match error {
        BuildError::Memory => Err(Memory),
        BuildError::Ambiguous {
            first,
            second,
            name,
        } => {
            put(out, "ambiguous ")?;
            put_number(alloc, out, *first as u64)?;
            put(out, " ")?;
            put_number(alloc, out, *second as u64)?;
            put(out, " ")?;
            put_name(out, name.as_ref())
        }
    }
}

/// The bits of a state, whether there are tables, and what is known of the whole model.
pub fn tell_built(alloc: Global, automaton: &Automaton, out: &mut Vec<u8>) -> Result<(), Memory> {
    put_number(alloc, out, automaton.room() as u64)?;
    put(
        out,
        if automaton.has_tables() {
            " tables "
        } else {
            " none "
        },
    )?;
    let model = automaton.model().term();
    put_rest(out, model.finished(), model.required())
}

// Takes the tokens of the word, of which those that can't come are passed over.
fn walk(
    alloc: Global,
    automaton: &Automaton,
    word: &[u8],
    state: &mut ModelState,
) -> Result<(), Memory>
    requires { IsStateOf automaton.now state.old }
    ensures { IsStateOf automaton.now state.new }
{
    for letter in word {
        let name = label(alloc, *letter)?;
        let _ = automaton.step(state, name.as_ref());
    }
    Ok(())
}

fn walked(alloc: Global, automaton: &Automaton, word: &[u8]) -> Result<ModelState, Memory>
    ensures { IfOk result (λ state. IsStateOf automaton.now state) }
{
    let mut state = automaton.state(alloc)?;
    walk(alloc, automaton, word, &mut state)?;
    Ok(state)
}

// What a state stands for, and which tokens can come.
fn put_state(
    alloc: Global,
    automaton: &Automaton,
    state: &ModelState,
    out: &mut Vec<u8>,
) -> Result<(), Memory>
    requires { IsStateOf automaton.now state.now }
{
    put_rest(out, automaton.finished(state), automaton.required(state))?;
    put(out, ":")?;
    for letter in b"ABCD#" {
        let name = label(alloc, *letter)?;
        if automaton.takes(state, name.as_ref()) {
            out.push(*letter)?;
        }
    }
    Ok(())
}

// The answers after a word, and those of the model that is left, where they differ.
fn tell_place(
    alloc: Global,
    automaton: &Automaton,
    word: &[u8],
    out: &mut Vec<u8>,
) -> Result<(), Memory> {
    let state = walked(alloc, automaton, word)?;
    let mut own = Vec::new(alloc);
    put_state(alloc, automaton, &state, &mut own)?;
    let mut left = Vec::new(alloc);
    put_left(alloc, automaton.model(), word, &mut left)?;
    out.extend_from_slice(&own)?;
    if own.as_slice() != left.as_slice() {
        put(out, " but the model ")?;
        out.extend_from_slice(&left)?;
    }
    Ok(())
}

/// The answers before each token of a word and behind the last.
pub fn tell_places(
    alloc: Global,
    automaton: &Automaton,
    word: &[u8],
    out: &mut Vec<u8>,
) -> Result<(), Memory> {
    for count in 0..word.len() {
        tell_place(alloc, automaton, &word[..count], out)?;
        put(out, " ")?;
    }
    tell_place(alloc, automaton, word, out)
}

fn word_of_same(same: bool) -> &'static str {
    if same { "one" } else { "two" }
}

/// Whether the states after two words are one, asked both ways.
pub fn tell_same(
    alloc: Global,
    automaton: &Automaton,
    first: &[u8],
    second: &[u8],
    out: &mut Vec<u8>,
) -> Result<(), Memory> {
    let one = walked(alloc, automaton, first)?;
    let two = walked(alloc, automaton, second)?;
    put(out, word_of_same(automaton.same(&one, &two)))?;
    put(out, " ")?;
    put(out, word_of_same(automaton.same(&two, &one)))
}

/// The answers of a state that was made for the room and set to the start; then those of its copy
/// after a word, and whether the copy is the state.
pub fn tell_copy(
    alloc: Global,
    automaton: &Automaton,
    word: &[u8],
    out: &mut Vec<u8>,
) -> Result<(), Memory> {
    let mut state = ModelState::new(alloc, automaton.room())?;
    automaton.reset(&mut state);
    put_state(alloc, automaton, &state, out)?;
    put(out, " ")?;
    walk(alloc, automaton, word, &mut state)?;
    let copy = state.copy(alloc)?;
    put_state(alloc, automaton, &copy, out)?;
    put(out, " ")?;
    put(out, word_of_same(automaton.same(&state, &copy)))
}
