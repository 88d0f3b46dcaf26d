// Answers as text.
use sgml_text::Memory;
use sgml_trials::put;
use std::alloc::Global;

pub fn put_yes(out: &mut Vec<u8>, holds: bool) -> Result<(), Memory> {
    put(out, if holds { "yes" } else { "no" })
}
