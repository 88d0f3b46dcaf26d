// What is left of a model after a word.
use crate::writing::{label, put_rest};
use sgml_model::{Model, Residual};
use sgml_text::Memory;
use sgml_trials::{put, put_number};
use std::alloc::Global;

// What the next token leaves.
fn taken(alloc: Global, rest: &Residual, letter: u8) -> Result<Option<Residual>, Memory> {
    let name = label(alloc, letter)?;
    rest.take(alloc, name.as_ref())
}

/// How many tokens of the word are taken up to the first that isn't, and what is left then.
pub fn tell_walk(
    alloc: Global,
    model: &Model,
    word: &[u8],
    out: &mut Vec<u8>,
) -> Result<(), Memory> {
    let mut rest = Residual::start(alloc, model)?;
    let mut count = 0u64;
    for letter in word {
        let Some(next) = taken(alloc, &rest, *letter)? else {
            break;
        };
        rest = next;
        count = count.saturating_add(1);
    }
    put_number(alloc, out, count)?;
    put(out, " ")?;
    put_rest(out, rest.finished(), rest.required())
}

// What is left after the word, of which the tokens that can't come are passed over.
fn left(alloc: Global, model: &Model, word: &[u8]) -> Result<Residual, Memory> {
    let mut rest = Residual::start(alloc, model)?;
    for letter in word {
        if let Some(next) = taken(alloc, &rest, *letter)? {
            rest = next;
        }
    }
    Ok(rest)
}

/// What is left after the word, and which tokens can come.
pub fn put_left(
    alloc: Global,
    model: &Model,
    word: &[u8],
    out: &mut Vec<u8>,
) -> Result<(), Memory> {
    let rest = left(alloc, model, word)?;
    put_rest(out, rest.finished(), rest.required())?;
    put(out, ":")?;
    for letter in b"ABCD#" {
        if taken(alloc, &rest, *letter)?.is_some() {
            out.push(*letter)?;
        }
    }
    Ok(())
}
