// Records, stores and sinks.
use crate::spelled::{number_of, put, put_spelled};
use sgml_io::{
    FailingStore, FetchError, FileStore, FreeGate, Gate, MemoryFile, MemorySink, MemoryStore,
    RecordReader, Sink, StdSink, Store, fetch, to_records, write_whole,
};
use sgml_text::Memory;
use sgml_trials::put_number;
use std::alloc::Global;

// The text of bytes that are pushed one by one.
fn one_by_one(alloc: Global, bytes: &[u8]) -> Result<Vec<u8>, Memory> {
    let mut text = Vec::new(alloc);
    let mut reader = RecordReader::new();
    for b in bytes {
        reader.push(&[*b], &mut text)?;
    }
    reader.end(&mut text)?;
    Ok(text)
}

/// The records of bytes, at once and pushed one by one.
pub fn answer_records(alloc: Global, bytes: &[u8], out: &mut Vec<u8>) -> Result<(), Memory> {
    let whole = to_records(alloc, bytes)?;
    put_spelled(out, &whole)?;
    put(out, b" ; ")?;
    let text = one_by_one(alloc, bytes)?;
    put_spelled(out, &text)
}

// The file `f` with the bytes `abcd`.
fn one_file(alloc: Global) -> Result<Vec<MemoryFile>, Memory> {
    let mut files = Vec::new(alloc);
    files.push(MemoryFile {
        name: b"f".to_vec(alloc)?,
        bytes: b"abcd".to_vec(alloc)?,
    })?;
    Ok(files)
}

fn put_error(out: &mut Vec<u8>, error: FetchError) -> Result<(), Memory> {
    match error {
        FetchError::Fault => put(out, b"fault"),
        FetchError::TooLarge => put(out, b"too large"),
        FetchError::Memory => put(out, b"no memory"),
    }
}

fn put_fetched<S: Store>(
    alloc: Global,
    out: &mut Vec<u8>,
    store: &mut S,
    name: &[u8],
    limit: u64,
) -> Result<(), Memory> {
    match fetch(alloc, store, name, limit) {
        Ok(Some(text)) => {
            put(out, b"text ")?;
            put_spelled(out, &text)
        }
        Ok(None) => put(out, b"absent"),
        Err(error) => put_error(out, error),
    }
}

/// A text of a store in memory, up to so many bytes.
pub fn answer_fetch(
    alloc: Global,
    name: &[u8],
    limit: u64,
    out: &mut Vec<u8>,
) -> Result<(), Memory> {
    let files = one_file(alloc)?;
    let mut store = MemoryStore::new(alloc, files);
    put_fetched(alloc, out, &mut store, name, limit)
}

/// A file of a store in memory, found twice.
pub fn answer_find(alloc: Global, name: &[u8], out: &mut Vec<u8>) -> Result<(), Memory> {
    let files = one_file(alloc)?;
    let mut store = MemoryStore::new(alloc, files);
    let first = store.find(name).ok().flatten();
    let second = store.find(name).ok().flatten();
    match (first, second) {
        (Some(a), Some(b)) if a != b => put(out, b"two ids"),
        (Some(_), Some(_)) => put(out, b"one id"),
        _ => put(out, b"absent"),
    }
}

/// The text of a store, one of whose calls fails.
pub fn answer_failing(alloc: Global, failing: u64, out: &mut Vec<u8>) -> Result<(), Memory> {
    let files = one_file(alloc)?;
    let mut calls = Vec::new(alloc);
    calls.push(failing)?;
    let mut store = FailingStore::new(alloc, files, calls);
    put_fetched(alloc, out, &mut store, b"f", 4)
}

// `*BYTES` is written whole, `-` is no byte, and other bytes are written once.
fn write_word(
    alloc: Global,
    sink: &mut MemorySink,
    word: &[u8],
    out: &mut Vec<u8>,
) -> Result<(), Memory> {
    let answer = match word {
        [b'*', bytes @ ..] => match write_whole(sink, bytes) {
            Ok(()) => Ok(bytes.len()),
            Err(fault) => Err(fault),
        },
        b"-" => sink.write(b""),
        bytes => sink.write(bytes),
    };
    match answer {
        Ok(count) => put_number(alloc, out, count as u64)?,
        Err(_) => put(out, b"fault")?,
    }
    put(out, b" ")
}

/// A sink in memory with so much room, of whose calls one fails, and what is written to it.
pub fn answer_sink(
    alloc: Global,
    room: usize,
    failing: u64,
    words: &[u8],
    out: &mut Vec<u8>,
) -> Result<(), Memory> {
    let mut calls = Vec::new(alloc);
    calls.push(failing)?;
    let mut sink = MemorySink::new(alloc, room, calls)?;
    for word in words.split(|b| *b == b' ') {
        write_word(alloc, &mut sink, word, out)?;
    }
    put(out, b": ")?;
    put_spelled(out, &sink.bytes)?;
    put(out, b", faults ")?;
    put_number(alloc, out, sink.faults)
}

fn put_result(out: &mut Vec<u8>, ok: bool) -> Result<(), Memory> {
    if ok {
        put(out, b"ok ")
    } else {
        put(out, b"fault ")
    }
}

// Bytes written to a stream that takes all.
fn answer_vec(alloc: Global, bytes: &[u8], out: &mut Vec<u8>) -> Result<(), Memory> {
    let mut taken = Vec::new(alloc);
    {
        let Ok(mut sink) = StdSink::new(alloc, &mut taken) else {
            return Err(Memory);
        };
        put_result(out, write_whole(&mut sink, bytes).is_ok())?;
        put_result(out, sink.flush().is_ok())?;
    }
    put_spelled(out, &taken)
}

// Bytes written to a stream that takes two.
fn answer_two(alloc: Global, bytes: &[u8], out: &mut Vec<u8>) -> Result<(), Memory> {
    let mut small = [0u8; 2];
    let Ok(mut sink) = StdSink::new(alloc, &mut small[..]) else {
        return Err(Memory);
    };
    put_result(out, write_whole(&mut sink, bytes).is_ok())?;
    put_result(out, sink.flush().is_ok())
}

/// Bytes written and flushed to a stream that takes all, or two.
pub fn answer_stream(
    alloc: Global,
    kind: &[u8],
    bytes: &[u8],
    out: &mut Vec<u8>,
) -> Result<(), Memory> {
    FreeGate.enter(0);
    match kind {
        b"all" => answer_vec(alloc, bytes, out),
        _ => answer_two(alloc, bytes, out),
    }
}

/// A real file of at most four bytes.
pub fn answer_file(
    alloc: Global,
    rt: &HostRuntime,
    name: &[u8],
    out: &mut Vec<u8>,
) -> Result<(), Memory> {
    let mut store = FileStore::new(alloc, rt);
    put_fetched(alloc, out, &mut store, name, 4)
}

/// The number that a word is, as a size.
pub fn size_of(word: &[u8]) -> usize {
    number_of(word) as usize
}
