// Storage bytes as records.
ghost use Rattle.std.specs.Prelude.{◌≡◌, ◌<◌, ◌≤◌, ◌+◌, ◌-◌, ◌++◌, ◌∷◌, List, ℕ, [], take, drop, length, false, IfOk, OnOk, IfSome, IfNone};
ghost use Rattle.memchr.specs.Find.{places_between, is_byte2};
ghost use Rattle.sgml_io.specs.Records.{ReadsOn, IsPlain, records, begun};
ghost use Rattle.sgml_io.specs.Storage.{RecordsLaw};

use memchr::{Memchr2, memchr2_iter};
use sgml_text::Memory;
use std::alloc::Global;

/// Makes the text of storage bytes that come in pieces.
#[derive(Clone, Copy, Debug)]
pub struct RecordReader {
    start: bool,
    after_cr: bool,
}

impl RecordReader {
    ghost use Rattle.std.specs.Prelude.{◌≡◌, ◌++◌, List, ℕ, [], OnOk, OnErr};
    ghost use Rattle.sgml_io.specs.Pieces.{HasMade, Makes, Ends};

    /// A reader that was pushed nothing.
    pub fn new() -> Self
        ensures { HasMade result [] [] }
    {
        RecordReader {
            start: true,
            after_cr: false,
        }
    }

    /// Appends the text of the next bytes, as far as they decide it.
    pub fn push(&mut self, bytes: &[u8], text: &mut Vec<u8>) -> Result<(), Memory>
        ensures pushed { OnOk result (Makes self.old self.new bytes.now text.old.items text.new.items) }
        ensures err { OnErr result ((self.new ≡ self.old) × (text.new.items ≡ text.old.items)) }
    {
        let before = text.len();
        match append_records(text, self.start, self.after_cr, bytes) {
            Ok(edge) => {
                self.start = edge.0;
                self.after_cr = edge.1;
                Ok(())
            }
            Err(e) => {
                text.truncate(before);
                Err(e)
            }
        }
    }

    /// Appends what the end of the bytes makes: nothing, since a record's end is written as it comes.
    pub fn end(&mut self, text: &mut Vec<u8>) -> Result<(), Memory>
        ensures ended { OnOk result (Ends self.old text.old.items text.new.items) }
        ensures fresh { OnOk result (HasMade self.new [] []) }
        ensures err { OnErr result ((self.new ≡ self.old) × (text.new.items ≡ text.old.items)) }
    {
        *self = RecordReader::new();
        Ok(())
    }
}

/// The text of storage bytes.
pub fn to_records(alloc: Global, bytes: &[u8]) -> Result<Vec<u8>, Memory>
    ensures { IfOk result (λ text. text.items ≡ records bytes.now) }
{
    let mut text = Vec::with_capacity(alloc, bytes.len())?;
    let mut reader = RecordReader::new();
    reader.push(bytes, &mut text)?;
    reader.end(&mut text)?;
    Ok(text)
}

/// A law: the text of stored records is RS, their characters and, for each end, RE; and all bytes
/// are stored records.
pub fn text_of_records()
    ensures { RecordsLaw }
{}

// Whether a record starts, and whether a CR ended the last one, after these bytes.
fn append_records(
    text: &mut Vec<u8>,
    start: bool,
    cr: bool,
    bytes: &[u8],
) -> Result<(bool, bool), Memory>
    ensures ok { IfOk result (λ next. ReadsOn text.old.items start cr bytes.now text.new.items next.0 next.1 []) }
    ensures err { take (length text.old.items) text.new.items ≡ text.old.items }
{
    let mut edge = (start, cr);
    let mut done = 0usize;
    let mut ends = memchr2_iter(b'\r', b'\n', bytes);
    'ends: while let Some(at) = next_end(&mut ends, bytes, done) {
        edge = take_line(text, edge.0, edge.1, &bytes[done..at], bytes[at])?;
        done = at + 1;
    }
    take_stretch(text, edge.0, edge.1, &bytes[done..])
}

// The next byte that ends a record, where those from one place on are left.
#[inline(always)]
fn next_end(ends: &mut Memchr2, bytes: &[u8], from: usize) -> Option<usize>
    requires left { ends.old ≡ places_between (is_byte2 13 10) bytes.now from (length bytes.now) }
    requires within { from ≤ length bytes.now }
    ensures low { IfSome result (λ at. from ≤ at) }
    ensures high { IfSome result (λ at. at < length bytes.now) }
    ensures plain { IfSome result (λ at. IsPlain (take (at - from) (drop from bytes.now))) }
    ensures left { IfSome result (λ at. ends.new ≡ places_between (is_byte2 13 10) bytes.now (at + 1) (length bytes.now)) }
    ensures fewer { IfSome result (λ at. length ends.new < length ends.old) }
    ensures last { IfNone result (IsPlain (drop from bytes.now)) }
{
    match ends.next() {
        Some(at) => Some(at),
        None => None,
    }
}

// The same after a stretch without a record's end and one byte behind it.
fn take_line(
    text: &mut Vec<u8>,
    start: bool,
    cr: bool,
    stretch: &[u8],
    end: u8,
) -> Result<(bool, bool), Memory>
    requires plain { IsPlain stretch.now }
    ensures ok { IfOk result (λ next. ReadsOn text.old.items start cr (stretch.now ++ end ∷ []) text.new.items next.0 next.1 []) }
    ensures err { take (length text.old.items) text.new.items ≡ text.old.items }
{
    let edge = take_stretch(text, start, cr, stretch)?;
    take_byte(text, edge.0, edge.1, end)
}

// The same after a stretch without a record's end, which may be empty.
fn take_stretch(
    text: &mut Vec<u8>,
    start: bool,
    cr: bool,
    bytes: &[u8],
) -> Result<(bool, bool), Memory>
    requires plain { IsPlain bytes.now }
    ensures ok { IfOk result (λ next. ReadsOn text.old.items start cr bytes.now text.new.items next.0 next.1 []) }
    ensures err { take (length text.old.items) text.new.items ≡ text.old.items }
{
    if bytes.is_empty() {
        return Ok((start, cr));
    }
    begin_record(text, start)?;
    text.extend_from_slice(bytes)?;
    Ok((false, false))
}

// The same after one more byte.
fn take_byte(text: &mut Vec<u8>, start: bool, cr: bool, b: u8) -> Result<(bool, bool), Memory>
    ensures ok { IfOk result (λ next. ReadsOn text.old.items start cr (b ∷ []) text.new.items next.0 next.1 []) }
    ensures err { take (length text.old.items) text.new.items ≡ text.old.items }
{
    if b == 10 && cr {
        return Ok((true, false));
    }
    begin_record(text, start)?;
    put(text, b)
}

// The RS of a record that begins.
fn begin_record(text: &mut Vec<u8>, start: bool) -> Result<(), Memory>
    ensures ok { OnOk result ((rest : List ℕ) → text.new.items ++ rest ≡ text.old.items ++ begun start rest) }
    ensures err { take (length text.old.items) text.new.items ≡ text.old.items }
{
    if start {
        text.push(10)?;
    }
    Ok(())
}

fn put(text: &mut Vec<u8>, b: u8) -> Result<(bool, bool), Memory>
    ensures ok { IfOk result (λ next. ReadsOn text.old.items false false (b ∷ []) text.new.items next.0 next.1 []) }
    ensures err { take (length text.old.items) text.new.items ≡ text.old.items }
{
    if b == 13 {
        text.push(13)?;
        return Ok((true, true));
    }
    if b == 10 {
        text.push(13)?;
        return Ok((true, false));
    }
    text.push(b)?;
    Ok((false, false))
}
