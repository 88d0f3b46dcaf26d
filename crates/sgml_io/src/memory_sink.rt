// A sink in memory.
ghost use Rattle.std.specs.Prelude.{◌≡◌, ◌≤◌, [], IfOk, vec_len, vec_capacity};

use crate::outside::{Sink, SinkFault};
use std::alloc::{AllocError, Global};

/// A sink in memory that takes at most `room` bytes, reserved when it is made. Its calls that
/// `failing` lists, counted from 1, fail, and so does each that finds it full.
#[derive(Debug, Drop)]
pub struct MemorySink {
    pub bytes: Vec<u8>,
    pub room: usize,
    pub failing: Vec<u64>,
    pub calls: u64,
    pub faults: u64,
    ghost reserved: { room ≤ vec_capacity bytes },
    ghost within: { vec_len bytes ≤ room },
}

impl MemorySink {
    pub fn new(alloc: Global, room: usize, failing: Vec<u64>) -> Result<Self, AllocError>
        ensures bytes { IfOk result (λ sink. sink.bytes.items ≡ []) }
        ensures room { IfOk result (λ sink. sink.room ≡ room) }
        ensures failing { IfOk result (λ sink. sink.failing ≡ failing) }
        ensures calls { IfOk result (λ sink. sink.calls ≡ 0) }
        ensures faults { IfOk result (λ sink. sink.faults ≡ 0) }
    {
        Ok(MemorySink {
            bytes: Vec::with_capacity(alloc, room)?,
            room,
            failing,
            calls: 0,
            faults: 0,
        })
    }
}

impl Sink for MemorySink {
    ghost use Rattle.std.specs.Prelude.{◌≡◌, ◌<◌, ◌-◌, Some, false, length, min, is_err, IfOk};
    ghost use Rattle.std.specs.Io.{WritesAtMost};
    ghost use Rattle.std.specs.Io.KnownBytes.{WriteAppends};
    ghost use Rattle.sgml_io.specs.Causes.{CountsFault};
    ghost use Rattle.sgml_io.specs.Failing.{next_call, write_fails};

    ghost taken = { λ s. Some s.bytes.items };

    ghost faults = { λ s. s.faults };

    fn write(&mut self, bytes: &[u8]) -> Result<usize, SinkFault>
        ensures bound { WritesAtMost result bytes.now }
        ensures bytes { WriteAppends (Some self.old.bytes.items) (Some self.new.bytes.items) result bytes.now }
        ensures some { IfOk result (λ count. 0 < length bytes.now → 0 < count) }
        ensures cause { CountsFault self.old.faults self.new.faults result }
        // It fails exactly in its listed calls and where it is full and there is a byte to take.
        ensures fails { is_err result ≡ write_fails self.old bytes.now }
        // It takes what it has room for.
        ensures takes { IfOk result (λ count. count ≡ min (length bytes.now) (self.old.room - length self.old.bytes.items)) }
        ensures calls { self.new.calls ≡ next_call self.old.calls }
        ensures room { self.new.room ≡ self.old.room }
        ensures failing { self.new.failing ≡ self.old.failing }
    {
        self.calls = self.calls.saturating_add(1);
        let count = bytes.len().min(self.room - self.bytes.len());
        let full = count == 0 && !bytes.is_empty();
        if full
            || self.failing.contains(&self.calls)
            || self.bytes.extend_from_slice(&bytes[..count]).is_err()
        {
            self.faults = self.faults.saturating_add(1);
            return Err(SinkFault);
        }
        Ok(count)
    }

    fn goes_nowhere(&self) -> bool
        ensures { result ≡ false }
    {
        false
    }
}
