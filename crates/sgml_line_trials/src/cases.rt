// The cases of a file: a line each, a word that says what is tried and then what it is tried with.
use crate::lines::{answer_fronts, answer_grown, answer_lines, answer_room};
use crate::outside::{
    answer_failing, answer_fetch, answer_file as answer_real_file, answer_find, answer_records,
    answer_sink, answer_stream, size_of,
};
use crate::spelled::{number_of, put, put_spelled};
use sgml_esis::{one_reading, round_trip};
use sgml_gen::{document, sizes_of_documents};
use sgml_text::Memory;
use sgml_trials::{Trial, bytes_of, split_at};
use std::alloc::Global;

fn answer_book(alloc: Global, chapters: u64, out: &mut Vec<u8>) -> Result<(), Memory> {
    if chapters < 1 || chapters > 100_000 {
        return put(out, b"no book");
    }
    let text = document(alloc, chapters as u32)?;
    put_spelled(out, &text)
}

fn answer_outside(
    alloc: Global,
    rt: &HostRuntime,
    what: &[u8],
    rest: &[u8],
    out: &mut Vec<u8>,
) -> Result<(), Memory> {
    let (first, more) = split_at(rest, b' ');
    match what {
        b"fetch" => answer_fetch(alloc, first, number_of(more), out),
        b"find" => answer_find(alloc, first, out),
        b"failing" => answer_failing(alloc, number_of(first), out),
        b"sink" => {
            let (failing, words) = split_at(more, b' ');
            answer_sink(alloc, size_of(first), number_of(failing), words, out)
        }
        b"stream" => {
            let bytes = bytes_of(alloc, more)?;
            answer_stream(alloc, first, &bytes, out)
        }
        b"book" => answer_book(alloc, number_of(first), out),
        b"file" => {
            let name = bytes_of(alloc, rest)?;
            answer_real_file(alloc, rt, &name, out)
        }
        _ => put(out, b"no such case"),
    }
}

fn answer(
    alloc: Global,
    rt: &HostRuntime,
    what: &[u8],
    rest: &[u8],
    out: &mut Vec<u8>,
) -> Result<(), Memory> {
    match what {
        b"lines" => answer_lines(alloc, &bytes_of(alloc, rest)?, out),
        b"fronts" => answer_fronts(alloc, &bytes_of(alloc, rest)?, out),
        b"grown" => answer_grown(alloc, &bytes_of(alloc, rest)?, out),
        b"records" => answer_records(alloc, &bytes_of(alloc, rest)?, out),
        b"room" => {
            let (room, more) = split_at(rest, b' ');
            answer_room(alloc, size_of(room), &bytes_of(alloc, more)?, out)
        }
        _ => answer_outside(alloc, rt, what, rest, out),
    }
}

/// The trial of all lines.
#[derive(Clone, Copy)]
pub struct Lines;

impl Trial for Lines {
    // The answer to a case, a line each.
    fn answer(
        &mut self,
        rt: &HostRuntime,
        file: &str,
        line: &[u8],
        out: &mut Vec<u8>,
    ) -> Result<(), Memory> {
        one_reading();
        round_trip();
        sizes_of_documents();
        let (what, rest) = split_at(line, b' ');
        if !what.is_empty() {
            answer(rt.alloc(), rt, what, rest, out)?;
            put(out, b"\n")?;
        }
        Ok(())
    }
}
