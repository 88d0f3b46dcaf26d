//! Tries entities, attribute values, and what is read of declarations. Each line of a file is a case:
//! its kind, and what that kind reads, parted by TABs. For each case its line is printed, and the
//! answer behind it.
#![tactic(auto)]

mod entities;
mod forms;
mod lexing;
mod matching;
mod parts;
mod shown;
mod spelling;
mod stacks;
mod values;

use crate::spelling::{cut, put};
use sgml_text::Memory;
use sgml_trials::{Trial, answer_files};
use std::alloc::Global;

fn answer(alloc: Global, kind: &[u8], case: &[u8], out: &mut Vec<u8>) -> Result<(), Memory> {
    match kind {
        b"stack" => stacks::answer(alloc, case, out),
        b"entities" => entities::answer(alloc, case, out),
        b"texts" => entities::answer_texts(alloc, case, out),
        b"read" => values::answer_read(alloc, case, out),
        b"value" => values::answer_value(alloc, case, out),
        b"default" => values::answer_default(alloc, case, out),
        b"match" => matching::answer(alloc, case, out),
        b"end" => parts::answer_end(alloc, case, out),
        b"part" => parts::answer_part(alloc, case, out),
        b"due" => parts::answer_due(case, out),
        b"lexemes" => lexing::answer(alloc, case, out),
        b"short" => lexing::answer_short(alloc, case, out),
        b"fronts" => lexing::answer_fronts(alloc, case, out),
        b"form" => forms::answer(alloc, case, out),
        _ => put(out, b"of no kind"),
    }
}

#[derive(Clone, Copy)]
struct Declarations;

impl Trial for Declarations {
    // A line and its answer. Lines that begin with `#` are for the reader.
    fn answer(
        &mut self,
        rt: &HostRuntime,
        file: &str,
        line: &[u8],
        out: &mut Vec<u8>,
    ) -> Result<(), Memory> {
        if line.is_empty() || line.starts_with(b"#") {
            return Ok(());
        }
        out.extend_from_slice(line)?;
        put(out, b"\t= ")?;
        let (kind, case) = cut(line, b'\t');
        answer(rt.alloc(), kind, case, out)?;
        out.push(b'\n')?;
        Ok(())
    }
}

fn main(rt: HostRuntime) {
    answer_files(&rt, &mut Declarations);
}
