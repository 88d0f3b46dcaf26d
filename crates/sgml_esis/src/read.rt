// Lines, read.
ghost use Rattle.std.specs.Prelude.{◌≡◌, ◌≤◌, ◌<◌, length, IfOk, IfSome, drop, option_map};
ghost use Rattle.sgml_esis.specs.Grammar.{is_none};
ghost use Rattle.std.specs.List.{prefix_len};
ghost use Rattle.sgml_esis.specs.Outcome.{Reads, OneReading, RoundTrip};
ghost use Rattle.sgml_esis.specs.Reading.{line_of, marked_of, split_of, is_inner, next_of, name_line, text_line, texted_of, may_stand, word_of};
ghost use Rattle.sgml_esis.specs.declared.read.LinesError.TheVariants.{Memory as Memory_};

use crate::attributes::{read_attribute, read_external, read_internal};
use crate::escapes::read_text;
use crate::line::{Escaped, Line};
use crate::marks::{Mark, NameMark, TextMark, mark_of};
use crate::words::{read_word, word_run};
use sgml_text::{Memory, Name};
use std::alloc::{AllocFailed, Global};

/// Why bytes were not read as lines.
#[derive(Clone, Copy, Debug, PartialEq, Eq)]
pub enum LinesError {
    /// The first line in no form, counted from 1.
    BadLine { number: u64 },
    Memory,
}

impl From<Memory> for LinesError {
    ghost from_gives = { λ _ e. e ≡ Memory_ };

    fn from(_: Memory) -> Self {
        LinesError::Memory
    }
}

impl<T: Drop> From<AllocFailed<T>> for LinesError {
    ghost from_gives = { λ _ e. e ≡ Memory_ };

    fn from(_: AllocFailed<T>) -> Self {
        LinesError::Memory
    }
}

/// The lines of bytes. Each ends with LF; `#` may stand on the first alone, and `C` on the last.
pub fn read_lines(alloc: Global, bytes: &[u8]) -> Result<Vec<Line>, LinesError>
    ensures { Reads bytes.now result }
{
    let mut lines = Vec::new(alloc);
    let mut at = 0usize;
    while at < bytes.len() {
        let rest = rest_from(bytes, at);
        let first = is_first(&lines);
        match next_line(alloc, first, rest)? {
            Some((line, size)) => {
                lines.push(line)?;
                at += size;
            }
            None => {
                let number = lines.len() as u64 + 1;
                return Err(LinesError::BadLine { number });
            }
        }
    }
    Ok(lines)
}

/// A law: bytes are at most one file of lines, and then have no bad line; else one is the first.
pub fn one_reading()
    ensures { OneReading }
{}

/// A law: what was read is written back byte for byte, and what was written is read back.
pub fn round_trip()
    ensures { RoundTrip }
{}

fn rest_from(bytes: &[u8], at: usize) -> &[u8]
    requires { at ≤ length bytes.now }
    ensures { result.now ≡ drop at bytes.now }
{
    bytes.split_at(at).1
}

// Whether the next line is the first one.
fn is_first(lines: &[Line]) -> bool
    ensures { result ≡ is_none lines.now }
{
    lines.is_empty()
}

// The line at the front, and how many bytes it has with its LF.
fn next_line(alloc: Global, first: bool, bytes: &[u8]) -> Result<Option<(Line, usize)>, Memory>
    ensures next { IfOk result (λ found. found ≡ next_of first bytes.now) }
    ensures some { IfOk result (λ found. IfSome found (λ next. 0 < next.1)) }
    ensures within { IfOk result (λ found. IfSome found (λ next. next.1 ≤ length bytes.now)) }
{
    let size = line_size(bytes);
    if size >= bytes.len() {
        return Ok(None);
    }
    let last = size + 1 == bytes.len();
    match read_line(alloc, first, last, &bytes[..size])? {
        Some(line) => Ok(Some((line, size + 1))),
        None => Ok(None),
    }
}

// How many bytes stand before the next LF.
fn line_size(bytes: &[u8]) -> usize
    ensures value { result ≡ prefix_len is_inner bytes.now }
    ensures within { result ≤ length bytes.now }
{
    bytes.iter().take_while(|b| **b != 10).count()
}

fn read_line(alloc: Global, first: bool, last: bool, content: &[u8]) -> Result<Option<Line>, Memory>
    ensures { IfOk result (λ line. line ≡ line_of first last content.now) }
{
    match content {
        [] => Ok(None),
        [b, bytes @ ..] => match mark_of(*b) {
            Some(mark) => read_marked(alloc, first, last, mark, bytes),
            None => Ok(None),
        },
    }
}

fn read_marked(
    alloc: Global,
    first: bool,
    last: bool,
    mark: Mark,
    bytes: &[u8],
) -> Result<Option<Line>, Memory>
    ensures { IfOk result (λ line. line ≡ marked_of first last mark bytes.now) }
{
    match mark {
        Mark::Named(kind) => read_named(alloc, kind, bytes),
        Mark::Texted(kind) => read_texted(alloc, first, kind, bytes),
        Mark::Attribute => match split_name(bytes) {
            Some((name, tail)) => read_attribute(alloc, name, tail),
            None => Ok(None),
        },
        Mark::External => match split_name(bytes) {
            Some((name, tail)) => read_external(alloc, name, tail),
            None => Ok(None),
        },
        Mark::Internal => match split_name(bytes) {
            Some((name, tail)) => read_internal(alloc, name, tail),
            None => Ok(None),
        },
        Mark::Conforming => {
            if last && bytes.is_empty() {
                Ok(Some(Line::Conforming))
            } else {
                Ok(None)
            }
        }
    }
}

fn split_name(bytes: &[u8]) -> Option<(&[u8], &[u8])>
    ensures value { option_map (λ parts. (parts.0.now, parts.1.now)) result ≡ split_of bytes.now }
    ensures some { IfSome result (λ parts. 0 < length parts.0.now) }
{
    let size = word_run(bytes);
    if size == 0 {
        return None;
    }
    Some(bytes.split_at(size))
}

fn read_named(alloc: Global, kind: NameMark, bytes: &[u8]) -> Result<Option<Line>, Memory>
    ensures { IfOk result (λ line. line ≡ option_map (λ w. name_line kind w) (word_of bytes.now)) }
{
    match read_word(alloc, bytes)? {
        Some(name) => Ok(Some(name_line(kind, name))),
        None => Ok(None),
    }
}

fn name_line(kind: NameMark, name: Name) -> Line
    ensures { result ≡ name_line kind name }
{
    match kind {
        NameMark::Start => Line::Start(name),
        NameMark::Finish => Line::Finish(name),
        NameMark::DataRef => Line::DataRef(name),
        NameMark::DefineNotation => Line::DefineNotation(name),
    }
}

fn read_texted(
    alloc: Global,
    first: bool,
    kind: TextMark,
    bytes: &[u8],
) -> Result<Option<Line>, Memory>
    ensures { IfOk result (λ line. line ≡ texted_of first kind bytes.now) }
{
    if !may_stand(first, kind, bytes) {
        return Ok(None);
    }
    match read_text(alloc, bytes)? {
        Some(text) => Ok(Some(text_line(kind, text))),
        None => Ok(None),
    }
}

fn may_stand(first: bool, kind: TextMark, bytes: &[u8]) -> bool
    ensures { result ≡ may_stand first kind bytes.now }
{
    match kind {
        TextMark::Chars => !bytes.is_empty(),
        TextMark::AppInfo => first,
        TextMark::Pi => true,
        TextMark::Public => true,
        TextMark::System => true,
    }
}

fn text_line(kind: TextMark, text: Escaped) -> Line
    ensures { result ≡ text_line kind text }
{
    match kind {
        TextMark::Chars => Line::Chars(text),
        TextMark::Pi => Line::Pi(text),
        TextMark::Public => Line::Public(text),
        TextMark::System => Line::System(text),
        TextMark::AppInfo => Line::AppInfo(text),
    }
}
