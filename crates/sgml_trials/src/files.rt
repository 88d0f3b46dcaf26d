// Files of cases.
use sgml_io::{FileStore, Sink, StdSink, fetch, write_whole};
use sgml_text::Memory;
use std::alloc::{AllocError, Global};
use std::env;

/// What is tried by the lines of files.
pub trait Trial {
    /// Adds what is printed for a line of the file with this name.
    fn answer(
        &mut self,
        rt: &HostRuntime,
        file: &str,
        line: &[u8],
        out: &mut Vec<u8>,
    ) -> Result<(), Memory>;
}

// Why there are no more answers.
#[derive(Drop)]
struct Stop;

impl From<Memory> for Stop {
    fn from(_: Memory) -> Self {
        Stop
    }
}

/// The words behind the program's name, or none where they can't be had as text.
pub fn words(alloc: Global, rt: &HostRuntime) -> Result<Vec<String>, AllocError> {
    let mut words = Vec::new(alloc);
    let Ok(args) = env::args(rt) else {
        return Ok(words);
    };
    for word in args.skip(1) {
        words.push(word)?;
    }
    Ok(words)
}

fn answer_lines<T: Trial, O: Sink>(
    rt: &HostRuntime,
    trial: &mut T,
    file: &str,
    bytes: &[u8],
    out: &mut O,
) -> Result<(), Stop> {
    for line in bytes.split(|b| *b == b'\n') {
        let mut text = Vec::new(rt.alloc());
        trial.answer(rt, file, line, &mut text)?;
        if write_whole(out, &text).is_err() {
            return Err(Stop);
        }
    }
    Ok(())
}

// The answers to the lines of one file, up to 1,000,000 bytes; none where it can't be had.
fn answer_file<T: Trial, O: Sink>(
    rt: &HostRuntime,
    trial: &mut T,
    file: &str,
    out: &mut O,
) -> Result<(), Stop> {
    let alloc = rt.alloc();
    let mut store = FileStore::new(alloc, rt);
    let Ok(Some(bytes)) = fetch(alloc, &mut store, file.as_bytes(), 1_000_000) else {
        return Err(Stop);
    };
    answer_lines(rt, trial, file, &bytes, out)
}

/// Prints the answers to all lines of the files that the command names. Where a file or memory can't be had, it ends
/// there, and the output is short.
pub fn answer_files<T: Trial>(rt: &HostRuntime, trial: &mut T) {
    let alloc = rt.alloc();
    let Ok(words) = words(alloc, rt) else {
        return;
    };
    let Ok(mut out) = StdSink::new(alloc, rt.stdout()) else {
        return;
    };
    for word in words.iter() {
        if answer_file(rt, trial, word.as_str(), &mut out).is_err() {
            return;
        }
    }
    let _ = out.flush();
}
