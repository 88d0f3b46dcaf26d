// Runs of the command in memory.
use sgml_cli::{Status, run, run_within};
use sgml_io::{FailingStore, FreeGate, MemoryFile, MemorySink};
use sgml_text::Memory;
use std::alloc::Global;
use std::marker::Sync;
use std::thread::Threads;

/// What a run is given.
#[derive(Clone, Copy)]
pub struct Given<'a> {
    pub files: &'a [MemoryFile],
    pub words: &'a [String],
    /// How many bytes a text may have, where that is set.
    pub limit: Option<u64>,
}

/// What a run calls.
#[derive(Clone, Copy, PartialEq, Eq)]
pub enum Part {
    Store,
    Out,
    Log,
}

/// A call of a part that fails, counted from 1.
#[derive(Clone, Copy)]
pub struct Fault {
    pub part: Part,
    pub call: u64,
}

/// What a sink has, and how often it was called.
#[derive(Drop)]
pub struct Written {
    pub bytes: Vec<u8>,
    pub calls: u64,
}

/// What a run answered and wrote.
#[derive(Drop)]
pub struct Ran {
    pub status: Status,
    pub store_calls: u64,
    pub out: Written,
    pub log: Written,
}

impl Ran {
    /// How many calls of a part it made.
    pub fn calls(&self, part: Part) -> u64 {
        match part {
            Part::Store => self.store_calls,
            Part::Out => self.out.calls,
            Part::Log => self.log.calls,
        }
    }
}

// More bytes than any case writes.
const ROOM: usize = 10_000;

fn copies(alloc: Global, files: &[MemoryFile]) -> Result<Vec<MemoryFile>, Memory> {
    let mut copied = Vec::new(alloc);
    for file in files {
        copied.push(MemoryFile {
            name: file.name.to_vec(alloc)?,
            bytes: file.bytes.to_vec(alloc)?,
        })?;
    }
    Ok(copied)
}

// The calls of a part that fail.
fn failing(alloc: Global, fault: Option<Fault>, part: Part) -> Result<Vec<u64>, Memory> {
    let mut calls = Vec::new(alloc);
    match fault {
        Some(fault) if fault.part == part => calls.push(fault.call)?,
        _ => (),
    }
    Ok(calls)
}

fn sink(alloc: Global, fault: Option<Fault>, part: Part) -> Result<MemorySink, Memory> {
    Ok(MemorySink::new(alloc, ROOM, failing(alloc, fault, part)?)?)
}

fn taken_by(sink: MemorySink) -> Written {
    let MemorySink { bytes, calls, .. } = sink;
    Written { bytes, calls }
}

/// A run, in which at most one call fails.
pub fn run_once<R: Threads + Sync>(
    rt: &R,
    alloc: Global,
    given: Given,
    fault: Option<Fault>,
) -> Result<Ran, Memory> {
    let files = copies(alloc, given.files)?;
    let mut store = FailingStore::new(alloc, files, failing(alloc, fault, Part::Store)?);
    let mut out = sink(alloc, fault, Part::Out)?;
    let mut log = sink(alloc, fault, Part::Log)?;
    let status = match given.limit {
        None => run(
            rt,
            alloc,
            given.words,
            &mut store,
            &mut out,
            &mut log,
            &FreeGate,
        ),
        Some(limit) => run_within(
            rt,
            alloc,
            given.words,
            &mut store,
            &mut out,
            &mut log,
            &FreeGate,
            limit,
        ),
    };
    Ok(Ran {
        status,
        store_calls: store.calls,
        out: taken_by(out),
        log: taken_by(log),
    })
}
