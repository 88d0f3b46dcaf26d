// What the fields of a line spell.
use sgml_text::Memory;

fn meant(b: u8) -> u8 {
    match b {
        b'n' => b'\n',
        b'r' => b'\r',
        b't' => b'\t',
        _ => b,
    }
}

/// Adds what a part of a line spells: `\n`, `\r`, `\t` and `\\` stand for the characters that a line can't have.
pub fn put_meant(out: &mut Vec<u8>, part: &[u8]) -> Result<(), Memory> {
    let mut is_escaped = false;
    for b in part {
        if is_escaped {
            out.push(meant(*b))?;
            is_escaped = false;
        } else if *b == b'\\' {
            is_escaped = true;
        } else {
            out.push(*b)?;
        }
    }
    Ok(())
}

/// What stands before the first of these bytes, and what follows it.
pub fn split_at(bytes: &[u8], b: u8) -> (&[u8], &[u8]) {
    match bytes.iter().position(|other| *other == b) {
        Some(at) => (&bytes[..at], &bytes[at + 1..]),
        None => (bytes, &[]),
    }
}

/// The number that these digits spell, or the greatest.
pub fn number_of(digits: &[u8]) -> u32 {
    let mut number = 0u32;
    for digit in digits {
        number = number
            .saturating_mul(10)
            .saturating_add((digit % 16) as u32);
    }
    number
}
