// A sink that keeps nothing.
use sgml_io::{Sink, SinkFault};

/// Takes all bytes, and keeps none.
#[derive(Drop)]
pub(crate) struct Nowhere;

impl Sink for Nowhere {
    ghost use Rattle.std.specs.Prelude.{◌<◌, None, length, IfOk};
    ghost use Rattle.std.specs.Io.{WritesAtMost};
    ghost use Rattle.std.specs.Io.KnownBytes.{WriteAppends};
    ghost use Rattle.sgml_io.specs.Causes.{CountsFault};

    ghost taken = { λ s. None };

    ghost faults = { λ s. 0 };

    fn write(&mut self, bytes: &[u8]) -> Result<usize, SinkFault>
        ensures bound { WritesAtMost result bytes.now }
        ensures bytes { WriteAppends None None result bytes.now }
        ensures some { IfOk result (λ count. 0 < length bytes.now → 0 < count) }
        ensures cause { CountsFault 0 0 result }
    {
        Ok(bytes.len())
    }

    fn goes_nowhere(&self) -> bool {
        true
    }
}
