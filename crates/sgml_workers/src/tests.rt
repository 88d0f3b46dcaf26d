// Each call with ample memory, against answers worked out by hand.
ghost use Rattle.sgml_runs.specs.Rule.{opening_view};
ghost use Rattle.sgml_runs.specs.Names.{runs_of, known, IsPassOf};
ghost use Rattle.sgml_workers.specs.Working.{IsFor};
ghost use Rattle.std.specs.Prelude.{◌≡◌, ◌+◌, ◌<◌, ◌≤◌, ◌^◌, ◌%◌, [], ◌∷◌, vec_len, All, IfOk, slice_index};

use crate::{read_all, scan_all, work};
use sgml_io::{FreeGate, Gate};
use sgml_runs::{Board, Chunk, Entry, Pass, Run, Scan};
use sgml_steps::Steps;
use sgml_text::Memory;
use std::alloc::Global;
use std::marker::Brand;
use std::sync::atomic::{AtomicU64, Ordering};
use std::sync::ledger::{Blank, Ledger};
use std::test::Fail;
use std::thread::Threads;

#[derive(Drop)]
struct Bytes {
    all: Vec<u8>,
}

// A chunk has one token: its first byte, moved on by a number.
#[derive(Clone, Copy)]
struct Shift {
    by: u8,
}

impl Scan for Shift {
    type Texts = Bytes;

    type Token = u8;

    ghost lies = { λ bytes chunk. chunk.from < vec_len bytes.all };

    ghost scanned = { λ shift bytes chunk. record { at = chunk.from; token = (slice_index bytes.all.items chunk.from + shift.by) % 2 ^ 8 } ∷ [] };

    ghost cost = { λ shift bytes chunk. 1 };

    fn scan_chunk<L: Ledger>(
        &self,
        alloc: Global,
        texts: &Bytes,
        chunk: Chunk,
        steps: &mut Steps<L>,
    ) -> Result<Run<u8>, Memory> {
        steps.add(1);
        let token = texts.all[chunk.from as usize].wrapping_add(self.by);
        let mut entries = Vec::new(alloc);
        entries.push(Entry {
            at: chunk.from,
            token,
        })?;
        Ok(Run::new(chunk, entries))
    }
}

const SHIFT: Shift = Shift { by: 1 };

fn sgml(alloc: Global) -> Result<Bytes, Memory> {
    Ok(Bytes {
        all: b"SGML".to_vec(alloc)?,
    })
}

// A chunk for each byte.
fn chunks_of(alloc: Global, bytes: &Bytes) -> Result<Vec<Chunk>, Memory>
    requires { vec_len bytes.now.all < 2 ^ 32 }
    ensures count { IfOk result (λ chunks. vec_len chunks ≡ vec_len bytes.now.all) }
    ensures lie { IfOk result (λ chunks. All (λ chunk. chunk.from < vec_len bytes.now.all) chunks.items) }
{
    let mut chunks = Vec::new(alloc);
    for from in 0..bytes.all.len() as u64 {
        chunks.push(Chunk {
            text: 0,
            from,
            to: from + 1,
        })?;
    }
    Ok(chunks)
}

fn tokens_of(alloc: Global, entries: &[Entry<u8>]) -> Result<Vec<u8>, Memory> {
    let mut tokens = Vec::new(alloc);
    for entry in entries {
        tokens.push(entry.token)?;
    }
    Ok(tokens)
}

fn shifted<R: Threads>(
    rt: &R,
    alloc: Global,
    gate: &(impl Gate + Sync),
    workers: u32,
) -> Result<Vec<u8>, Memory>
    requires { workers < 64 }
{
    let bytes = sgml(alloc)?;
    if bytes.all.len() != 4 {
        return Err(Memory);
    }
    let chunks = chunks_of(alloc, &bytes)?;
    let entries = scan_all(rt, alloc, &SHIFT, &bytes, chunks, gate, workers)?;
    tokens_of(alloc, entries.as_slice())
}

#[test]
fn any_number_of_workers_reads_the_same(rt: HostRuntime) -> Result<(), Fail> {
    for workers in [0, 1, 3, 63] {
        let tokens = shifted(&rt, rt.alloc(), &FreeGate, workers)?;
        assert_eq!(rt; tokens.as_slice(), b"THNM".as_slice(), "with {workers}");
    }
    Ok(())
}

// Each waits at the gate until two have come, or a long time has passed.
#[derive(Drop)]
struct Meeting {
    arrived: AtomicU64,
    alone: AtomicU64,
}

impl Gate for Meeting {
    fn enter(&self, chunk: u32) {
        self.arrived.fetch_add(1, Ordering::SeqCst);
        for _ in 0..100_000_000u32 {
            if self.arrived.load(Ordering::SeqCst) >= 2 {
                return;
            }
        }
        self.alone.fetch_add(1, Ordering::SeqCst);
    }
}

#[test]
fn two_workers_scan_at_once(rt: HostRuntime) -> Result<(), Fail> {
    let meeting = Meeting {
        arrived: AtomicU64::new(0),
        alone: AtomicU64::new(0),
    };
    let tokens = shifted(&rt, rt.alloc(), &meeting, 2)?;
    assert_eq!(rt; tokens.as_slice(), b"THNM".as_slice());
    assert_eq!(rt; meeting.arrived.load(Ordering::SeqCst), 4);
    assert_eq!(rt; meeting.alone.load(Ordering::SeqCst), 0);
    Ok(())
}

type Opened = (Bytes, Board<Shift>, Pass<u8>);

fn opened(alloc: Global) -> Result<Opened, Memory>
    ensures board { IfOk result (λ o. IsFor ⟦<Shift as Scan>⟧.lies o.1 (record { by = 1 }) o.0) }
    ensures pass { IfOk result (λ o. IsPassOf ⟦<Shift as Scan>⟧.scanned o.1 o.2) }
    ensures view { IfOk result (λ o. known o.2 ≡ opening_view (runs_of ⟦<Shift as Scan>⟧.scanned o.1)) }
{
    let bytes = sgml(alloc)?;
    if bytes.all.len() != 4 {
        return Err(Memory);
    }
    let chunks = chunks_of(alloc, &bytes)?;
    let (board, pass) = Board::new(alloc, &SHIFT, &bytes, chunks)?;
    Ok((bytes, board, pass))
}

// What a worker alone found and posted, and what the reader then took.
fn posted<L: Ledger>(alloc: Global, blank: Blank) -> Result<(bool, u32, Vec<u8>), Memory>
    requires name { blank.name ≡ L.name }
    requires parts { blank.parts ≡ L.parts }
    requires some { 0 < blank.parts }
{
    let mut steps = Steps::<L>::new(blank);
    let (bytes, board, mut pass) = opened(alloc)?;
    let theirs = pass.split(&board);
    let theirs = work(alloc, &SHIFT, &bytes, &board, &FreeGate, theirs, &mut steps);
    let at_first = theirs.finished() && !pass.finished();
    let entries = read_all(alloc, &SHIFT, &bytes, &board, &mut pass, &mut steps)?;
    let taken = pass.taken();
    pass.join(&board, theirs);
    let tokens = tokens_of(alloc, entries.as_slice())?;
    Ok((at_first && pass.finished(), taken, tokens))
}

#[test]
fn the_reader_takes_what_was_posted(rt: HostRuntime) -> Result<(), Fail> {
    let (finished, taken, tokens) = posted::<Brand>(rt.alloc(), Blank::new(1))?;
    assert!(rt; finished);
    assert_eq!(rt; taken, 4);
    assert_eq!(rt; tokens.as_slice(), b"THNM".as_slice());
    Ok(())
}

#[test]
fn claims_rise_and_end(rt: HostRuntime) -> Result<(), Fail> {
    let (_, board, mut pass) = opened(rt.alloc())?;
    assert_eq!(rt; board.chunks().len(), 4);
    let Some(first) = board.claim(&mut pass) else {
        panic!(rt; "no chunk at all")
    };
    let Some(second) = board.claim(&mut pass) else {
        panic!(rt; "one chunk alone")
    };
    assert_eq!(rt; (first, second), (0, 1));
    assert!(rt; !board.look(&mut pass, 1));
    board.close(pass);
    Ok(())
}
