// Answers as text.
use sgml_text::{Memory, Name, Unit};
use sgml_trials::{put, put_number};
use std::alloc::Global;

/// A word before a number, where there is one.
pub fn put_found(
    alloc: Global,
    out: &mut Vec<u8>,
    word: &str,
    number: Option<u32>,
) -> Result<(), Memory> {
    match number {
        Some(number) => {
            put(out, word)?;
            put_number(alloc, out, number as u64)
        }
        None => Ok(()),
    }
}

/// These names as a group behind a word, where there are any.
pub fn put_group(out: &mut Vec<u8>, word: &str, names: &[Name]) -> Result<(), Memory> {
    if names.is_empty() {
        return Ok(());
    }
    put(out, word)?;
    out.push(b'(')?;
    for (i, name) in names.iter().enumerate() {
        if i > 0 {
            out.push(b'|')?;
        }
        out.extend_from_slice(name.items())?;
    }
    out.push(b')')?;
    Ok(())
}

/// The characters of a value.
pub fn put_value(out: &mut Vec<u8>, units: &[Unit]) -> Result<(), Memory> {
    put(out, " '")?;
    for unit in units {
        match unit {
            Unit::Byte(b) => out.push(*b)?,
            Unit::Coded(b) => out.push(*b)?,
            Unit::Sdata(_) => out.push(b'?')?,
        }
    }
    put(out, "'")
}
