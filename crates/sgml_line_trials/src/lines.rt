// Lines and texts with escapes.
use crate::spelled::{put, put_byte, put_spelled};
use sgml_esis::{EscUnit, Escaped, Line, LinesError, read_lines, write_lines};
use sgml_io::MemorySink;
use sgml_text::Memory;
use sgml_trials::put_number;
use std::alloc::Global;

// What bytes are as lines.
#[derive(Clone, Copy)]
enum Judged {
    /// So many lines, which are written back as they were, in one stretch.
    Lines(u64),
    /// Lines that are written back otherwise.
    Differ,
    /// The first line in no form.
    Bad(u64),
    NoMemory,
}

fn are_written_back(alloc: Global, lines: &[Line], bytes: &[u8]) -> bool {
    let Ok(mut sink) = MemorySink::new(alloc, 1000, Vec::new(alloc)) else {
        return false;
    };
    let written = write_lines(lines, &mut sink);
    written.is_ok() && sink.bytes.as_slice() == bytes && sink.calls <= 1
}

fn judge(alloc: Global, bytes: &[u8]) -> Judged {
    match read_lines(alloc, bytes) {
        Err(LinesError::BadLine { number }) => Judged::Bad(number),
        Err(LinesError::Memory) => Judged::NoMemory,
        Ok(lines) => {
            if are_written_back(alloc, &lines, bytes) {
                Judged::Lines(lines.len() as u64)
            } else {
                Judged::Differ
            }
        }
    }
}

/// How many lines the bytes are, or the first bad one.
pub fn answer_lines(alloc: Global, bytes: &[u8], out: &mut Vec<u8>) -> Result<(), Memory> {
    match judge(alloc, bytes) {
        Judged::Lines(count) => {
            put_number(alloc, out, count)?;
            put(out, b" lines")
        }
        Judged::Differ => put(out, b"written otherwise"),
        Judged::Bad(number) => {
            put(out, b"bad ")?;
            put_number(alloc, out, number)
        }
        Judged::NoMemory => put(out, b"no memory"),
    }
}

// The number of the first bad line, or 0.
fn bad_line(alloc: Global, bytes: &[u8]) -> u64 {
    match judge(alloc, bytes) {
        Judged::Bad(number) => number,
        _ => 0,
    }
}

/// The first bad line of each front of the bytes, from the empty one on: 0 where there is none.
pub fn answer_fronts(alloc: Global, bytes: &[u8], out: &mut Vec<u8>) -> Result<(), Memory> {
    for size in 0..bytes.len() {
        put_number(alloc, out, bad_line(alloc, &bytes[..size]))?;
        put(out, b" ")?;
    }
    Ok(())
}

fn unit_of(b: u8) -> EscUnit {
    if b == b'|' {
        EscUnit::Bar
    } else {
        EscUnit::Byte(b)
    }
}

fn text_of(alloc: Global, bytes: &[u8]) -> Result<Escaped, Memory> {
    let mut text = Escaped::of(Vec::new(alloc));
    for b in bytes {
        text.push(alloc, unit_of(*b))?;
    }
    Ok(text)
}

fn one_line(alloc: Global, bytes: &[u8]) -> Result<Vec<Line>, Memory> {
    let mut lines = Vec::new(alloc);
    let text = text_of(alloc, bytes)?;
    lines.push(Line::Chars(text))?;
    Ok(lines)
}

fn written(alloc: Global, bytes: &[u8], sink: &mut MemorySink) -> Result<bool, Memory> {
    let lines = one_line(alloc, bytes)?;
    Ok(write_lines(&lines, sink).is_ok())
}

/// A line of data, where `|` is a bar, written to a sink with so much room.
pub fn answer_room(
    alloc: Global,
    room: usize,
    bytes: &[u8],
    out: &mut Vec<u8>,
) -> Result<(), Memory> {
    let mut sink = MemorySink::new(alloc, room, Vec::new(alloc))?;
    if written(alloc, bytes, &mut sink)? {
        put(out, b"ok ")?;
    } else {
        put(out, b"fault ")?;
    }
    put_spelled(out, &sink.bytes)
}

fn put_unit(out: &mut Vec<u8>, unit: EscUnit) -> Result<(), Memory> {
    match unit {
        EscUnit::Byte(b) => put_byte(out, b),
        EscUnit::Bar => put(out, b"|"),
    }
}

fn put_units(alloc: Global, out: &mut Vec<u8>, text: &Escaped) -> Result<(), Memory> {
    put_number(alloc, out, text.len() as u64)?;
    put(out, b" ")?;
    for index in 0..text.len() {
        put_unit(out, text.unit(index))?;
    }
    Ok(())
}

fn grow(alloc: Global, text: &mut Escaped) -> Result<(), Memory> {
    text.push(alloc, EscUnit::Bar)?;
    text.push_bytes(alloc, b"c")
}

fn put_grown(alloc: Global, out: &mut Vec<u8>, line: &mut Line) -> Result<(), Memory> {
    match line {
        Line::Chars(text) => {
            grow(alloc, text)?;
            put_units(alloc, out, text)
        }
        _ => put(out, b"no data"),
    }
}

/// The units of the data that the first line is, with a bar and a `c` behind them.
pub fn answer_grown(alloc: Global, bytes: &[u8], out: &mut Vec<u8>) -> Result<(), Memory> {
    let Ok(mut lines) = read_lines(alloc, bytes) else {
        return put(out, b"no lines");
    };
    match lines.first_mut() {
        Some(line) => put_grown(alloc, out, line),
        None => put(out, b"no line"),
    }
}
