// What the fields of a line spell.
use sgml_text::{Memory, Name};
use std::alloc::Global;

/// Whether this is the word.
pub fn is(bytes: &[u8], word: &str) -> bool {
    bytes == word.as_bytes()
}

fn half_of(digit: u8) -> u8 {
    match digit {
        b'A'..=b'F' => digit - b'A' + 10,
        _ => digit % 16,
    }
}

/// The bytes that are spelled: `\` and two digits of base 16 are the byte of this number.
pub fn bytes_of(alloc: Global, spelled: &[u8]) -> Result<Vec<u8>, Memory> {
    let mut bytes = Vec::new(alloc);
    for (i, part) in spelled.split(|b| *b == b'\\').enumerate() {
        match part {
            [high, low, rest @ ..] if i > 0 => {
                let byte = half_of(*high) as u32 * 16 + half_of(*low) as u32;
                bytes.push((byte % 256) as u8)?;
                bytes.extend_from_slice(rest)?;
            }
            _ => bytes.extend_from_slice(part)?,
        }
    }
    Ok(bytes)
}

/// The words between these bytes.
pub fn words_of(alloc: Global, bytes: &[u8], b: u8) -> Result<Vec<Name>, Memory> {
    let mut words = Vec::new(alloc);
    for word in bytes.split(|other| *other == b) {
        if !word.is_empty() {
            words.push(Name::copied(alloc, word)?)?;
        }
    }
    Ok(words)
}
