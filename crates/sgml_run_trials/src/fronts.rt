// Runs of the fronts of a file: the file cut to its first bytes.
use crate::running::{Given, Ran, run_once};
use sgml_cli::Status;
use sgml_io::MemoryFile;
use sgml_text::Memory;
use sgml_trials::{put, put_counted};
use std::alloc::Global;
use std::marker::Sync;
use std::thread::Threads;

// The words with pieces of 1 and of 7 bytes asked for.
#[derive(Drop)]
struct Pieced {
    by_one: Vec<String>,
    by_seven: Vec<String>,
}

// What the runs of a front have in common.
#[derive(Clone, Copy)]
enum Common {
    Conforming,
    Refused,
    Nothing,
}

// How many fronts conform, and how many are refused.
#[derive(Clone, Copy)]
struct Counts {
    conforming: u64,
    refused: u64,
}

// The words with `--piece` and this size before the last.
fn in_pieces(alloc: Global, words: &[String], size: &str) -> Result<Vec<String>, Memory> {
    let mut longer = Vec::new(alloc);
    let Some((file, options)) = words.split_last() else {
        return Ok(longer);
    };
    for word in options {
        longer.push(String::from_str(alloc, word.as_str())?)?;
    }
    for word in ["--piece", size, file.as_str()] {
        longer.push(String::from_str(alloc, word)?)?;
    }
    Ok(longer)
}

fn pieced_of(alloc: Global, words: &[String]) -> Result<Pieced, Memory> {
    Ok(Pieced {
        by_one: in_pieces(alloc, words, "1")?,
        by_seven: in_pieces(alloc, words, "7")?,
    })
}

// The length of the file that the last word names.
fn length_of(given: Given) -> Option<usize> {
    let name = given.words.last()?;
    for file in given.files {
        if file.name.as_slice() == name.as_bytes() {
            return Some(file.bytes.len());
        }
    }
    None
}

fn front_of(bytes: &[u8], length: usize) -> &[u8] {
    if length < bytes.len() {
        &bytes[..length]
    } else {
        bytes
    }
}

// The files, of which the one that the last word names has this length.
fn cut_to(alloc: Global, given: Given, length: usize) -> Result<Vec<MemoryFile>, Memory> {
    let mut files = Vec::new(alloc);
    for file in given.files {
        let bytes = match given.words.last() {
            Some(name) if file.name.as_slice() == name.as_bytes() => {
                front_of(&file.bytes, length).to_vec(alloc)?
            }
            _ => file.bytes.to_vec(alloc)?,
        };
        files.push(MemoryFile {
            name: file.name.to_vec(alloc)?,
            bytes,
        })?;
    }
    Ok(files)
}

fn is_same(ran: &Ran, whole: &Ran) -> bool {
    ran.status == whole.status
        && ran.out.bytes == whole.out.bytes
        && ran.log.bytes == whole.log.bytes
}

// Whether a run with these words does the same.
fn agrees<R: Threads + Sync>(
    rt: &R,
    alloc: Global,
    given: Given,
    words: &[String],
    whole: &Ran,
) -> Result<bool, Memory> {
    let Given { files, limit, .. } = given;
    let other = Given {
        files,
        words,
        limit,
    };
    let ran = run_once(rt, alloc, other, None)?;
    Ok(is_same(&ran, whole))
}

fn common_of(status: Status) -> Common {
    match status {
        Status::Conforming => Common::Conforming,
        Status::Refused(_) => Common::Refused,
        _ => Common::Nothing,
    }
}

// Runs with the words as they are, and in pieces.
fn run_thrice<R: Threads + Sync>(
    rt: &R,
    alloc: Global,
    given: Given,
    pieced: &Pieced,
) -> Result<Common, Memory> {
    let whole = run_once(rt, alloc, given, None)?;
    if !agrees(rt, alloc, given, &pieced.by_one, &whole)? {
        return Ok(Common::Nothing);
    }
    if !agrees(rt, alloc, given, &pieced.by_seven, &whole)? {
        return Ok(Common::Nothing);
    }
    Ok(common_of(whole.status))
}

impl Counts {
    // Counts a front, unless its runs differ.
    fn with(self, common: Common) -> Option<Counts> {
        let Counts {
            conforming,
            refused,
        } = self;
        match common {
            Common::Conforming => Some(Counts {
                conforming: conforming.saturating_add(1),
                refused,
            }),
            Common::Refused => Some(Counts {
                conforming,
                refused: refused.saturating_add(1),
            }),
            Common::Nothing => None,
        }
    }

    fn tell(self, alloc: Global, out: &mut Vec<u8>) -> Result<(), Memory> {
        let all = self.conforming.saturating_add(self.refused);
        put_counted(alloc, out, "fronts ", all)?;
        put_counted(alloc, out, "\tconforming ", self.conforming)?;
        put_counted(alloc, out, "\trefused ", self.refused)?;
        put(out, "\n")
    }
}

fn tell_difference(alloc: Global, length: usize, out: &mut Vec<u8>) -> Result<(), Memory> {
    put_counted(alloc, out, "front ", length as u64)?;
    put(out, " differs\n")
}

// What the runs over the file, cut to this length, have in common.
fn common_at<R: Threads + Sync>(
    rt: &R,
    alloc: Global,
    given: Given,
    pieced: &Pieced,
    length: usize,
) -> Result<Common, Memory> {
    let files = cut_to(alloc, given, length)?;
    let cut = Given {
        files: &files,
        words: given.words,
        limit: given.limit,
    };
    run_thrice(rt, alloc, cut, pieced)
}

/// Tells of each front of the file that the last word names, from none of its bytes to all, whether it is read whole as it is in
/// pieces: how many there are, how many conform and how many are refused, or the first that isn't answered so.
pub fn tell_fronts<R: Threads + Sync>(
    rt: &R,
    alloc: Global,
    given: Given,
    out: &mut Vec<u8>,
) -> Result<(), Memory> {
    let Some(all) = length_of(given) else {
        return put(out, "no file\n");
    };
    let pieced = pieced_of(alloc, given.words)?;
    let mut counts = Counts {
        conforming: 0,
        refused: 0,
    };
    for length in 0..=all {
        let common = common_at(rt, alloc, given, &pieced, length)?;
        match counts.with(common) {
            Some(more) => counts = more,
            None => return tell_difference(alloc, length, out),
        }
    }
    counts.tell(alloc, out)
}
