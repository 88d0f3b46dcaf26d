// The cases of a file, a line each; its parts stand between TABs. A line that begins with a blank or is empty is a
// heading. `\n`, `\r` and `\t` in a part stand for the characters that a line can't have.
//
// `text NAME PART..` names a text, whose parts are joined; a part that is such a name stands for its text.
// `length`, `syntax`, `fronts` and `replaced` ask of the SGML declaration that the parts make; `catalog PART QUESTION
// FIRST SECOND` asks of a catalog; `words` asks of the words of the command, which are the parts as they stand.
use crate::catalogs::tell_catalog;
use crate::command::tell_command;
use crate::declarations::{tell_fronts, tell_length, tell_replaced, tell_syntax};
use sgml_text::{Memory, Text};
use sgml_trials::{Trial, put, put_meant, split_at};
use std::alloc::Global;

// A text that has a name.
#[derive(Drop)]
pub struct Named {
    name: Text,
    text: Text,
}

// A part: the text that has this name, or what is meant.
fn put_part(named: &[Named], out: &mut Vec<u8>, part: &[u8]) -> Result<(), Memory> {
    for it in named {
        if it.name.items() == part {
            out.extend_from_slice(it.text.items())?;
            return Ok(());
        }
    }
    put_meant(out, part)
}

fn joined(alloc: Global, named: &[Named], parts: &[u8]) -> Result<Vec<u8>, Memory> {
    let mut text = Vec::new(alloc);
    for part in parts.split(|b| *b == b'\t') {
        put_part(named, &mut text, part)?;
    }
    Ok(text)
}

fn name_text(alloc: Global, named: &mut Vec<Named>, rest: &[u8]) -> Result<(), Memory> {
    let (name, parts) = split_at(rest, b'\t');
    let text = Text::of(joined(alloc, named, parts)?);
    let name = Text::of(name.to_vec(alloc)?);
    named.push(Named { name, text })?;
    Ok(())
}

fn ask_catalog(
    alloc: Global,
    named: &[Named],
    rest: &[u8],
    out: &mut Vec<u8>,
) -> Result<(), Memory> {
    let (part, rest) = split_at(rest, b'\t');
    let (question, rest) = split_at(rest, b'\t');
    let (first, second) = split_at(rest, b'\t');
    let text = joined(alloc, named, part)?;
    let public = joined(alloc, named, first)?;
    tell_catalog(alloc, &text, question, &public, second, out)
}

fn ask(
    alloc: Global,
    named: &[Named],
    word: &[u8],
    rest: &[u8],
    out: &mut Vec<u8>,
) -> Result<(), Memory> {
    if word == b"catalog".as_slice() {
        return ask_catalog(alloc, named, rest, out);
    }
    if word == b"words".as_slice() {
        return tell_command(alloc, rest, out);
    }
    let text = joined(alloc, named, rest)?;
    match word {
        b"length" => tell_length(alloc, &text, out),
        b"syntax" => tell_syntax(alloc, &text, out),
        b"fronts" => tell_fronts(alloc, &text, out),
        b"replaced" => tell_replaced(alloc, &text, out),
        _ => put(out, "what?"),
    }
}

/// The texts that have names.
#[derive(Drop)]
pub struct Front {
    pub named: Vec<Named>,
}

impl Trial for Front {
    // The line and its answer, or the line alone where it asks nothing.
    fn answer(
        &mut self,
        rt: &HostRuntime,
        file: &str,
        line: &[u8],
        out: &mut Vec<u8>,
    ) -> Result<(), Memory> {
        let (word, rest) = split_at(line, b'\t');
        if word.is_empty() {
            return Ok(());
        }
        out.extend_from_slice(line)?;
        if word == b"text".as_slice() {
            name_text(rt.alloc(), &mut self.named, rest)?;
        } else if !word.starts_with(b" ") {
            out.push(b'\t')?;
            ask(rt.alloc(), self.named.as_slice(), word, rest, out)?;
        }
        out.push(b'\n')?;
        Ok(())
    }
}
