// Answers as text.
use sgml_text::Memory;
use std::alloc::Global;

/// Adds a word.
pub fn put(out: &mut Vec<u8>, word: &str) -> Result<(), Memory> {
    out.extend_from_slice(word.as_bytes())?;
    Ok(())
}

/// Adds a number in decimal digits.
pub fn put_number(alloc: Global, out: &mut Vec<u8>, number: u64) -> Result<(), Memory> {
    let digits = format!(in alloc; "{number}")?;
    put(out, &digits)
}

/// Adds a word and a number.
pub fn put_counted(
    alloc: Global,
    out: &mut Vec<u8>,
    word: &str,
    number: u64,
) -> Result<(), Memory> {
    put(out, word)?;
    put_number(alloc, out, number)
}
