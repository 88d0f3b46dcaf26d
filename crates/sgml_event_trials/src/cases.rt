// The cases of a file, a line each: a word, and behind a TAB what it is about. A line that begins
// with a blank or is empty is a heading.
//
// `syntax` begins with empty tables under a syntax, and `add` adds a declaration to them; `text`
// gives the text of an external entity. `starts` are starts of elements, one after another, between
// TABs; `lines` and `document` are events, the second of a document that conforms; `room` is a
// sink's room and then events, and `failing` has a sink fail at each of its writes in turn. `identifiers`
// are events, and `many` a count of starts with an ID each and the number of the one that comes again.
use crate::identifiers::{answer_identifiers, answer_many};
use crate::lines::{Writing, answer_failing, answer_lines};
use crate::settings::syntax_of;
use crate::starts::answer_starts;
use crate::writing::bytes_of;
use sgml_dtd::Dtd;
use sgml_entity::{Space, Texts};
use sgml_syntax::{Syntax, implied};
use sgml_text::Memory;
use sgml_trial_tables::{add, told};
use sgml_trials::{Trial, number_of, put, split_at};
use std::alloc::Global;

/// The tables of cases, and the texts that were given: that of the document has all tags so far.
#[derive(Drop)]
pub struct Cases {
    dtd: Box<Dtd>,
    texts: Box<Texts>,
}

impl Cases {
    fn under(alloc: Global, syntax: &Syntax) -> Result<Cases, Memory> {
        let dtd = Dtd::new(alloc, syntax)?;
        let dtd = Box::new(alloc, dtd)?;
        let texts = Box::new(alloc, Texts::new(alloc))?;
        Ok(Cases { dtd, texts })
    }

    /// Empty tables under the implied syntax.
    pub fn new(alloc: Global) -> Result<Cases, Memory> {
        Cases::under(alloc, &implied())
    }

    fn declare(&mut self, alloc: Global, spelled: &[u8]) -> Result<&'static str, Memory> {
        let text = bytes_of(alloc, spelled)?;
        Ok(told(add(alloc, &mut self.dtd, &text)))
    }

    fn give(&mut self, alloc: Global, name: &[u8], spelled: &[u8]) -> Result<&'static str, Memory> {
        let text = bytes_of(alloc, spelled)?;
        match self.dtd.entities().find(Space::General, name) {
            Some(number) => self.texts.append(number, &text)?,
            None => return Ok("no entity"),
        }
        Ok("given")
    }

    fn answer_written(
        &mut self,
        alloc: Global,
        word: &[u8],
        rest: &[u8],
        out: &mut Vec<u8>,
    ) -> Result<(), Memory> {
        let conforming = word == b"document".as_slice();
        let whole = Writing {
            conforming,
            room: 100_000,
        };
        if word != b"room".as_slice() {
            return answer_lines(alloc, &self.dtd, &mut self.texts, rest, whole, out);
        }
        let (size, events) = split_at(rest, b'\t');
        let room = number_of(size) as usize;
        let small = Writing { room, ..whole };
        answer_lines(alloc, &self.dtd, &mut self.texts, events, small, out)
    }

    fn answer_one(
        &mut self,
        alloc: Global,
        word: &[u8],
        rest: &[u8],
        out: &mut Vec<u8>,
    ) -> Result<(), Memory> {
        match word {
            b"add" => {
                let answer = self.declare(alloc, rest)?;
                put(out, answer)
            }
            b"text" => {
                let (name, text) = split_at(rest, b'\t');
                let answer = self.give(alloc, name, text)?;
                put(out, answer)
            }
            b"failing" => answer_failing(alloc, &self.dtd, &mut self.texts, rest, out),
            b"identifiers" => answer_identifiers(alloc, &self.dtd, &mut self.texts, rest, out),
            b"many" => answer_many(alloc, &self.dtd, rest, out),
            _ => self.answer_written(alloc, word, rest, out),
        }
    }
}

impl Cases {
    fn answer_case(
        &mut self,
        alloc: Global,
        word: &[u8],
        rest: &[u8],
        out: &mut Vec<u8>,
    ) -> Result<(), Memory> {
        put(out, " ::")?;
        if word == b"starts".as_slice() {
            return answer_starts(alloc, &self.dtd, &mut self.texts, rest, out);
        }
        put(out, " ")?;
        self.answer_one(alloc, word, rest, out)
    }
}

impl Trial for Cases {
    // A line, and the answer to it.
    fn answer(
        &mut self,
        rt: &HostRuntime,
        file: &str,
        line: &[u8],
        out: &mut Vec<u8>,
    ) -> Result<(), Memory> {
        let alloc = rt.alloc();
        let (word, rest) = split_at(line, b'\t');
        out.extend_from_slice(line)?;
        match word {
            b"" => {}
            b"syntax" => *self = Cases::under(alloc, &syntax_of(alloc, rest)?)?,
            [b' ', ..] => {}
            _ => self.answer_case(alloc, word, rest, out)?,
        }
        out.push(b'\n')?;
        Ok(())
    }
}
