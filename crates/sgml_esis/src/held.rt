// Bytes on their way to a sink, so that it is asked for long stretches.
ghost use Rattle.std.specs.List.{list_all, prefix_len};
ghost use Rattle.std.specs.Prelude.{◌≡◌, ◌++◌, ◌∷◌, ◌+◌, ◌<◌, ◌≤◌, List, ℕ, Bool, [], length, take, true, false, None};
ghost use Rattle.sgml_esis.specs.Plain.{is_plain};
ghost use Rattle.sgml_esis.specs.Writing.{PutsInto, where_wanted};

use crate::escapes::{all_plain, is_plain};
use crate::short::Short;
use sgml_io::{Sink, write_whole};
use std::marker::Model;

const ROOM: usize = 16384;

/// Bytes that a sink hasn't been given, and whether it failed.
#[derive(Drop)]
pub struct Held {
    bytes: [u8; 16384],
    used: usize,
    failed: bool,
}

impl Model for Held {
    ghost use Rattle.std.specs.Prelude.{◌≤◌, List, ℕ, Bool, take};

    ghost Value = { List ℕ × Bool };

    ghost view = { λ h. (take h.used h.bytes, h.failed) };

    ghost invariant = { λ h. h.used ≤ 16384 };
}

impl Held {
    pub fn new() -> Self
        ensures { result ≡ ([], false) }
    {
        Held {
            bytes: [0; 16384],
            used: 0,
            failed: false,
        }
    }

    pub fn failed(&self) -> bool
        ensures { result ≡ self.now.1 }
    {
        self.failed
    }

    fn room(&self) -> usize
        ensures { result + length self.now.0 ≡ 16384 }
    {
        ROOM - self.used
    }

    fn items(&self) -> &[u8]
        ensures { result.now ≡ self.now.0 }
    {
        &self.bytes[..self.used]
    }

    pub fn push(&mut self, b: u8)
        requires { length self.old.0 < 16384 }
        ensures { self.new ≡ (self.old.0 ++ b ∷ [], self.old.1) }
    {
        self.bytes[self.used] = b;
        self.used += 1;
    }

    #[inline(always)]
    pub fn extend(&mut self, bytes: &[u8])
        requires { length self.old.0 + length bytes.now ≤ 16384 }
        ensures { self.new ≡ (self.old.0 ++ bytes.now, self.old.1) }
    {
        let end = self.used + bytes.len();
        self.bytes[self.used..end].copy_from_slice(bytes);
        self.used = end;
    }

    // Holds a byte where it is wanted.
    #[inline(always)]
    fn push_where(&mut self, wanted: bool, b: u8)
        requires { length self.old.0 < 16384 }
        ensures { self.new ≡ (self.old.0 ++ where_wanted wanted b, self.old.1) }
    {
        self.bytes[self.used] = b;
        self.used += usize::from(wanted);
    }

    // Holds few bytes.
    #[inline(always)]
    fn extend_short(&mut self, short: &Short)
        requires { length self.old.0 + 24 ≤ 16384 }
        ensures { self.new ≡ (self.old.0 ++ short.now, self.old.1) }
    {
        let end = self.used + 24;
        self.bytes[self.used..end].copy_from_slice(short.room());
        self.used += short.len();
    }

    // Holds the bytes at the front that stand for themselves, byte by byte, and tells how many they are.
    #[inline(always)]
    fn extend_each(&mut self, bytes: &[u8]) -> usize
        requires { length self.old.0 + length bytes.now ≤ 16384 }
        ensures count { result ≡ prefix_len is_plain bytes.now }
        ensures held { self.new ≡ (self.old.0 ++ take result bytes.now, self.old.1) }
    {
        let used = self.used;
        let mut count = 0;
        'plain: while count < bytes.len() && is_plain(bytes[count]) {
            self.bytes[used + count] = bytes[count];
            count += 1;
        }
        self.used = used + count;
        count
    }

    fn clear(&mut self)
        ensures { self.new ≡ ([], self.old.1) }
    {
        self.used = 0;
    }

    fn fail(&mut self)
        ensures { self.new ≡ ([], true) }
    {
        self.used = 0;
        self.failed = true;
    }
}

/// Gives the sink what is held.
#[inline(never)]
pub fn flush<O: Sink>(held: &mut Held, sink: &mut O)
    ensures puts { PutsInto O.taken O.faults sink.old held.old sink.new held.new [] }
    ensures none { held.new.0 ≡ [] }
{
    if held.failed() {
        held.clear();
        return;
    }
    match write_whole(sink, held.items()) {
        Ok(()) => held.clear(),
        Err(_) => held.fail(),
    }
}

/// Puts whatever bytes into a sink that keeps none.
#[inline(always)]
pub fn put_unseen<O: Sink>(held: &mut Held, sink: &O)
    requires { O.taken sink.now ≡ None }
    ensures { (bytes : List ℕ) → PutsInto O.taken O.faults sink.now held.old sink.now held.new bytes }
{
    held.clear();
}

/// Puts bytes.
#[inline]
pub fn put<O: Sink>(held: &mut Held, sink: &mut O, bytes: &[u8])
    ensures { PutsInto O.taken O.faults sink.old held.old sink.new held.new bytes.now }
{
    if sink.goes_nowhere() {
        put_unseen(held, sink);
        return;
    }
    if bytes.len() <= held.room() {
        held.extend(bytes);
        return;
    }
    put_past(held, sink, bytes);
}

// Puts bytes for which there is no room beside what is held.
#[cold]
#[inline(never)]
fn put_past<O: Sink>(held: &mut Held, sink: &mut O, bytes: &[u8])
    ensures { PutsInto O.taken O.faults sink.old held.old sink.new held.new bytes.now }
{
    flush(held, sink);
    put_stretch(held, sink, bytes);
}

/// Puts a byte.
#[inline]
pub fn put_byte<O: Sink>(held: &mut Held, sink: &mut O, b: u8)
    ensures { PutsInto O.taken O.faults sink.old held.old sink.new held.new (b ∷ []) }
{
    if sink.goes_nowhere() {
        put_unseen(held, sink);
        return;
    }
    make_room(held, sink);
    held.push(b);
}

/// Puts the line of a mark and bytes.
#[inline]
pub fn put_whole_line<O: Sink>(held: &mut Held, sink: &mut O, mark: u8, bytes: &[u8])
    ensures { PutsInto O.taken O.faults sink.old held.old sink.new held.new (mark ∷ bytes.now ++ 10 ∷ []) }
{
    if sink.goes_nowhere() {
        put_unseen(held, sink);
        return;
    }
    if bytes.len() + 2 <= held.room() {
        held.push(mark);
        held.extend(bytes);
        held.push(10);
        return;
    }
    put_parts(held, sink, mark, bytes);
}

// Puts the same part by part.
#[cold]
#[inline(never)]
fn put_parts<O: Sink>(held: &mut Held, sink: &mut O, mark: u8, bytes: &[u8])
    ensures { PutsInto O.taken O.faults sink.old held.old sink.new held.new (mark ∷ bytes.now ++ 10 ∷ []) }
{
    put_byte(held, sink, mark);
    put(held, sink, bytes);
    put_byte(held, sink, 10);
}

// Puts bytes where nothing is held.
fn put_stretch<O: Sink>(held: &mut Held, sink: &mut O, bytes: &[u8])
    requires { held.old.0 ≡ [] }
    ensures { PutsInto O.taken O.faults sink.old held.old sink.new held.new bytes.now }
{
    if bytes.len() <= ROOM {
        held.extend(bytes);
        return;
    }
    if held.failed() {
        return;
    }
    match write_whole(sink, bytes) {
        Ok(()) => {}
        Err(_) => held.fail(),
    }
}

/// Puts the line of a mark and of few bytes, of which the last ends it, behind a line that is open.
#[inline(always)]
pub fn put_short_line<O: Sink>(held: &mut Held, sink: &mut O, within: bool, mark: u8, short: &Short)
    ensures { PutsInto O.taken O.faults sink.old held.old sink.new held.new (where_wanted within 10 ++ (mark ∷ short.now)) }
{
    if sink.goes_nowhere() {
        put_unseen(held, sink);
        return;
    }
    make_wide_room(held, sink);
    held.push_where(within, 10);
    held.push(mark);
    held.extend_short(short);
}

/// Puts a byte where it is wanted, and those of few bytes at the front that stand for themselves. Tells
/// how many these are.
#[inline(always)]
pub fn put_plain<O: Sink>(held: &mut Held, sink: &mut O, wanted: bool, b: u8, bytes: &[u8]) -> usize
    requires { length bytes.now ≤ 32 }
    ensures count { result ≡ prefix_len is_plain bytes.now }
    ensures puts { PutsInto O.taken O.faults sink.old held.old sink.new held.new (where_wanted wanted b ++ take result bytes.now) }
{
    make_wide_room(held, sink);
    held.push_where(wanted, b);
    extend_plain(held, bytes)
}

// Holds the bytes at the front that stand for themselves, and tells how many they are.
#[inline(always)]
fn extend_plain(held: &mut Held, bytes: &[u8]) -> usize
    requires { length held.old.0 + length bytes.now ≤ 16384 }
    ensures count { result ≡ prefix_len is_plain bytes.now }
    ensures held { held.new ≡ (held.old.0 ++ take result bytes.now, held.old.1) }
{
    let count = extend_blocks(held, bytes);
    let (_, rest) = bytes.split_at(count);
    count + held.extend_each(rest)
}

// Holds bytes at the front that stand for themselves, eight at a time, and tells how many they are.
#[inline(always)]
fn extend_blocks(held: &mut Held, bytes: &[u8]) -> usize
    requires { length held.old.0 + length bytes.now ≤ 16384 }
    ensures within { result ≤ length bytes.now }
    ensures plain { list_all is_plain (take result bytes.now) ≡ true }
    ensures held { held.new ≡ (held.old.0 ++ take result bytes.now, held.old.1) }
{
    let mut count = 0;
    'eights: while bytes.len() - count >= 8 && all_plain(&bytes[count..count + 8]) {
        held.extend(&bytes[count..count + 8]);
        count += 8;
    }
    count
}

// Makes room for 33 bytes.
#[inline(always)]
fn make_wide_room<O: Sink>(held: &mut Held, sink: &mut O)
    ensures puts { PutsInto O.taken O.faults sink.old held.old sink.new held.new [] }
    ensures room { length held.new.0 + 33 ≤ 16384 }
{
    if held.room() < 33 {
        flush(held, sink);
    }
}

/// Makes room for four bytes.
#[inline]
pub fn make_room<O: Sink>(held: &mut Held, sink: &mut O)
    ensures puts { PutsInto O.taken O.faults sink.old held.old sink.new held.new [] }
    ensures room { length held.new.0 + 4 ≤ 16384 }
{
    if held.room() < 4 {
        flush(held, sink);
    }
}
