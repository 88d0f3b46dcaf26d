// The cases of files, a line each; its parts stand between TABs. A line that begins with a blank is a heading.
//
// `none` forgets all files and the limit; `file NAME TEXT` stores a file, and `limit N` sets how many bytes a text may have.
// `run NAME WORD..` runs the command with these words and tells its exit code, its output and its log. `store NAME WORD..`,
// `out NAME WORD..` and `log NAME WORD..` run it again for each call of the store, or write to the output or to the log, and in each
// run that call fails. `fronts NAME WORD..` runs it over each front of the file that the last word names, whole and in pieces.
use crate::faults::tell_faults;
use crate::fronts::tell_fronts;
use crate::running::{Given, Part, run_once};
use crate::telling::tell_whole;
use sgml_io::MemoryFile;
use sgml_text::{Memory, Text};
use sgml_trials::{bytes_of, number_of, split_at};
use std::alloc::Global;
use std::marker::Sync;
use std::thread::Threads;

// The files that the cases are run with, and the limit of texts, where one is set.
#[derive(Drop)]
struct Cases {
    files: Vec<MemoryFile>,
    limit: Option<u64>,
}

// The words between TABs; none where nothing stands there. A word that isn't text is left out.
fn words_of(alloc: Global, parts: &[u8]) -> Result<Vec<String>, Memory> {
    let mut words = Vec::new(alloc);
    if parts.is_empty() {
        return Ok(words);
    }
    for part in parts.split(|b| *b == b'\t') {
        if let Ok(text) = std::str::from_utf8(part) {
            words.push(String::from_str(alloc, text)?)?;
        }
    }
    Ok(words)
}

impl Cases {
    fn store(&mut self, alloc: Global, rest: &[u8]) -> Result<(), Memory> {
        let (name, text) = split_at(rest, b'\t');
        let name = name.to_vec(alloc)?;
        let bytes = bytes_of(alloc, text)?;
        self.files.push(MemoryFile { name, bytes })?;
        Ok(())
    }

    // The name of the case and what is told of its runs.
    fn tell<R: Threads + Sync>(
        &self,
        rt: &R,
        alloc: Global,
        way: Way,
        rest: &[u8],
        out: &mut Vec<u8>,
    ) -> Result<(), Memory> {
        let (name, words) = split_at(rest, b'\t');
        let words = words_of(alloc, words)?;
        let given = Given {
            files: &self.files,
            words: &words,
            limit: self.limit,
        };
        out.extend_from_slice(name)?;
        out.push(b'\t')?;
        match way {
            Way::Once => tell_whole(alloc, &run_once(rt, alloc, given, None)?, out),
            Way::Failing(part) => tell_faults(rt, alloc, given, part, out),
            Way::Fronts => tell_fronts(rt, alloc, given, out),
        }
    }

    // What a line asks.
    fn follow<R: Threads + Sync>(
        &mut self,
        rt: &R,
        alloc: Global,
        asks: Asks,
        rest: &[u8],
        out: &mut Vec<u8>,
    ) -> Result<(), Memory> {
        match asks {
            Asks::Forget => {
                self.files.clear();
                self.limit = None;
                Ok(())
            }
            Asks::Limit => {
                self.limit = Some(number_of(rest) as u64);
                Ok(())
            }
            Asks::Store => self.store(alloc, rest),
            Asks::Run(way) => self.tell(rt, alloc, way, rest, out),
            Asks::Nothing => Ok(()),
        }
    }
}

// How the command is run.
#[derive(Clone, Copy)]
enum Way {
    Once,
    Failing(Part),
    Fronts,
}

// What a line asks.
#[derive(Clone, Copy)]
enum Asks {
    Forget,
    Store,
    Limit,
    Run(Way),
    Nothing,
}

fn asks_by(word: &[u8]) -> Asks {
    match word {
        b"none" => Asks::Forget,
        b"file" => Asks::Store,
        b"limit" => Asks::Limit,
        b"run" => Asks::Run(Way::Once),
        b"store" => Asks::Run(Way::Failing(Part::Store)),
        b"out" => Asks::Run(Way::Failing(Part::Out)),
        b"log" => Asks::Run(Way::Failing(Part::Log)),
        b"fronts" => Asks::Run(Way::Fronts),
        _ => Asks::Nothing,
    }
}

fn put_heading(line: &[u8], out: &mut Vec<u8>) -> Result<(), Memory> {
    out.extend_from_slice(line)?;
    out.push(b'\n')?;
    Ok(())
}

// Adds the answer to a line, or the heading that it is.
fn answer<R: Threads + Sync>(
    rt: &R,
    alloc: Global,
    cases: &mut Cases,
    line: &[u8],
    out: &mut Vec<u8>,
) -> Result<(), Memory> {
    if line.starts_with(b" ") {
        return put_heading(line, out);
    }
    let (word, rest) = split_at(line, b'\t');
    cases.follow(rt, alloc, asks_by(word), rest, out)
}

/// The answers to all lines.
pub fn answers_to<R: Threads + Sync>(
    rt: &R,
    alloc: Global,
    lines: &[Text],
) -> Result<Vec<u8>, Memory> {
    let mut cases = Cases {
        files: Vec::new(alloc),
        limit: None,
    };
    let mut out = Vec::new(alloc);
    for line in lines {
        answer(rt, alloc, &mut cases, line.items(), &mut out)?;
    }
    Ok(out)
}
