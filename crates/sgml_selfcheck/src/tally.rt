// A sink that counts.
ghost use Rattle.std.specs.Prelude.{◌≡◌, ◌++◌, [], true, length, count_by, IfOk};
ghost use Rattle.sgml_selfcheck.specs.Counts.{is_line_end, elements_in, begins_after, summary_of};

use crate::counts::{begins_after, elements_in, lines_in, summary_text};
use boxcar::tag::{Names, Tag};
use sgml_io::{Sink, SinkFault};
use sgml_text::{Memory, Text};
use std::alloc::Global;

/// Takes all bytes and keeps their counts alone. Clauses see the bytes by `taken`, which has none of them.
#[derive(Drop)]
pub(crate) struct Tally {
    elements: u64,
    lines: u64,
    bytes: u64,
    begins: bool,
    faults: u64,
    pub(crate) taken: Tag,
    ghost elements_counted: { elements ≡ elements_in true taken.numbers },
    ghost lines_counted: { lines ≡ count_by is_line_end taken.numbers },
    ghost bytes_counted: { bytes ≡ length taken.numbers },
    ghost line_begins: { begins ≡ begins_after true taken.numbers },
}

impl Tally {
    /// Nothing was taken.
    pub(crate) fn new() -> Self
        ensures { result.taken.numbers ≡ [] }
    {
        Tally {
            elements: 0,
            lines: 0,
            bytes: 0,
            begins: true,
            faults: 0,
            taken: Tag::empty(),
        }
    }

    /// The summary of what was taken.
    pub(crate) fn summary(&self, alloc: Global) -> Result<Text, Memory>
        ensures { IfOk result (λ text. text ≡ summary_of self.now.taken.numbers) }
    {
        let text = summary_text(alloc, self.elements, self.lines, self.bytes)?;
        Text::copied(alloc, text.as_bytes())
    }
}

/// What was taken, and what is taken next.
#[derive(Drop)]
struct More<'a> {
    before: &'a Tag,
    bytes: &'a [u8],
}

struct Following;

impl<'a> Names<More<'a>> for Following {
    ghost numbers = { λ more. more.before.now.numbers ++ more.bytes.now };
}

/// The bytes that were taken, with these after them.
fn appended(before: &Tag, bytes: &[u8]) -> Tag
    ensures { result.numbers ≡ before.now.numbers ++ bytes.now }
{
    Tag::of::<More<'_>, Following>(&More { before, bytes })
}

impl Sink for Tally {
    ghost use Rattle.std.specs.Prelude.{Some, false};

    ghost taken = { λ tally. Some tally.taken.numbers };

    ghost faults = { λ tally. tally.faults };

    fn write(&mut self, bytes: &[u8]) -> Result<usize, SinkFault> {
        // A count that fits no more is a fault.
        let Some(size) = self.bytes.checked_add(bytes.len() as u64) else {
            self.faults = self.faults.saturating_add(1);
            return Err(SinkFault);
        };
        *self = Tally {
            elements: self.elements + elements_in(self.begins, bytes) as u64,
            lines: self.lines + lines_in(bytes) as u64,
            bytes: size,
            begins: begins_after(self.begins, bytes),
            faults: self.faults,
            taken: appended(&self.taken, bytes),
        };
        Ok(bytes.len())
    }

    fn goes_nowhere(&self) -> bool
        ensures { result ≡ false }
    {
        false
    }
}
