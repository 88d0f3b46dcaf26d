// The cases of a file, a line each: a word, and behind a TAB what it is about. A line that begins
// with a blank or is empty is a heading.
//
// `syntax` begins with empty tables under a syntax; `add` adds a declaration; `alone` and `after` do
// so in tables of their own, the second after another declaration; `end` ends the document type.
// All other words are questions.
use crate::asking::{tell, tell_counts, tell_doctype};
use sgml_dtd::Dtd;
use sgml_syntax::{Syntax, implied};
use sgml_text::Memory;
use sgml_trial_tables::{add, told};
use sgml_trials::{Trial, number_of, put, split_at};
use std::alloc::Global;

// A quantity, or whether names are folded or short references there.
fn set(syntax: &mut Syntax, setting: &[u8]) {
    let (name, value) = split_at(setting, b'=');
    let yes = value == b"YES".as_slice();
    match name {
        b"ATTCNT" => syntax.quantities.attcnt = number_of(value),
        b"GRPCNT" => syntax.quantities.grpcnt = number_of(value),
        b"LITLEN" => syntax.quantities.litlen = number_of(value),
        b"NAMELEN" => syntax.quantities.namelen = number_of(value),
        b"GENERAL" => syntax.general_fold = yes,
        b"ENTITY" => syntax.entity_fold = yes,
        b"SHORTREF" => syntax.shortrefs = yes,
        _ => {}
    }
}

// The implied syntax with these settings.
fn syntax_of(settings: &[u8]) -> Syntax {
    let mut syntax = implied();
    for setting in settings.split(|b| *b == b' ') {
        set(&mut syntax, setting);
    }
    syntax
}

// Tables without declarations.
fn empty(alloc: Global, syntax: &Syntax) -> Result<Box<Dtd>, Memory> {
    let dtd = Dtd::new(alloc, syntax)?;
    Ok(Box::new(alloc, dtd)?)
}

// What is answered to the second of two declarations.
fn answer_after(
    alloc: Global,
    syntax: &Syntax,
    first: &[u8],
    text: &[u8],
) -> Result<&'static str, Memory> {
    let mut dtd = empty(alloc, syntax)?;
    if !first.is_empty() && add(alloc, &mut dtd, first).is_err() {
        return Ok("the first is refused");
    }
    Ok(told(add(alloc, &mut dtd, text)))
}

fn answer(
    alloc: Global,
    dtd: &mut Dtd,
    word: &[u8],
    rest: &[u8],
    out: &mut Vec<u8>,
) -> Result<(), Memory> {
    match word {
        b"add" => put(out, told(add(alloc, dtd, rest))),
        b"end" => put(out, told(dtd.finish())),
        b"alone" => put(out, answer_after(alloc, dtd.syntax(), &[], rest)?),
        b"after" => {
            let (first, text) = split_at(rest, b'\t');
            put(out, answer_after(alloc, dtd.syntax(), first, text)?)
        }
        b"counts" => tell_counts(alloc, dtd, out),
        b"doctype" => tell_doctype(dtd, out),
        _ => {
            let (name, more) = split_at(rest, b'\t');
            tell(alloc, dtd, word, name, more, out)
        }
    }
}

/// The tables, and the syntax under which they are made.
#[derive(Drop)]
pub struct Tables {
    dtd: Box<Dtd>,
}

impl Tables {
    /// Empty tables under the implied syntax.
    pub fn new(alloc: Global) -> Result<Tables, Memory> {
        let dtd = empty(alloc, &implied())?;
        Ok(Tables { dtd })
    }

    fn begin(&mut self, alloc: Global, settings: &[u8]) -> Result<(), Memory> {
        self.dtd = empty(alloc, &syntax_of(settings))?;
        Ok(())
    }
}

impl Trial for Tables {
    // A line, and the answer to it.
    fn answer(
        &mut self,
        rt: &HostRuntime,
        file: &str,
        line: &[u8],
        out: &mut Vec<u8>,
    ) -> Result<(), Memory> {
        let (word, rest) = split_at(line, b'\t');
        out.extend_from_slice(line)?;
        match word {
            b"" => {}
            b"syntax" => self.begin(rt.alloc(), rest)?,
            [b' ', ..] => {}
            _ => {
                out.push(b'\t')?;
                answer(rt.alloc(), &mut self.dtd, word, rest, out)?;
            }
        }
        out.push(b'\n')?;
        Ok(())
    }
}
