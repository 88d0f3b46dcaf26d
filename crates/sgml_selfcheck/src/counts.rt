// Bytes counted: their lines, and those of them that start an element.
ghost use Rattle.std.specs.Prelude.{◌≡◌, ◌≤◌, length, count_by, IfOk, string_bytes};
ghost use Rattle.sgml_selfcheck.specs.Counts.{is_line_end, elements_in, begins_after, summary_text};

use std::alloc::{AllocError, Global};

/// How many lines end in bytes.
pub(crate) fn lines_in(bytes: &[u8]) -> usize
    ensures value { result ≡ count_by is_line_end bytes.now }
    ensures few { result ≤ length bytes.now }
{
    bytes.iter().filter(|b| **b == 10).count()
}

/// How many lines of bytes begin an element. `begins`: the first byte begins a line.
pub(crate) fn elements_in(begins: bool, bytes: &[u8]) -> usize
    ensures value { result ≡ elements_in begins bytes.now }
    ensures few { result ≤ length bytes.now }
{
    let mut begins = begins;
    let mut count = 0usize;
    'bytes: for b in bytes {
        if begins && *b == 40 {
            count += 1;
        }
        begins = *b == 10;
    }
    count
}

/// Whether a line begins after bytes.
pub(crate) fn begins_after(begins: bool, bytes: &[u8]) -> bool
    ensures { result ≡ begins_after begins bytes.now }
{
    let mut begins = begins;
    'bytes: for b in bytes {
        begins = *b == 10;
    }
    begins
}

/// The line that says these counts.
pub(crate) fn summary_text(
    alloc: Global,
    elements: u64,
    lines: u64,
    bytes: u64,
) -> Result<String, AllocError>
    ensures { IfOk result (λ text. string_bytes text ≡ summary_text elements lines bytes) }
{
    format!(in alloc; "elements {elements} lines {lines} bytes {bytes}\n")
}
