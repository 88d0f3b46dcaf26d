// Units of literals, each spelled as a letter and a number: `b97` is a character, `c32` one from a
// numeric reference, `s2` the text of an SDATA entity.
use crate::reading::{is, words_of};
use crate::writing::put_yes;
use sgml_text::{Memory, Unit, Units};
use sgml_trials::{number_of, put_number};
use std::alloc::Global;

fn units_of(alloc: Global, words: &[u8]) -> Result<Units, Memory> {
    let mut units = Vec::new(alloc);
    for word in words_of(alloc, words, b' ')?.iter() {
        match word.items() {
            [b'b', digits @ ..] => units.push(Unit::Byte((number_of(digits) % 256) as u8))?,
            [b'c', digits @ ..] => units.push(Unit::Coded((number_of(digits) % 256) as u8))?,
            [b's', digits @ ..] => units.push(Unit::Sdata(number_of(digits)))?,
            _ => {}
        }
    }
    Ok(Units::of(units))
}

fn put_units(alloc: Global, out: &mut Vec<u8>, units: &[Unit]) -> Result<(), Memory> {
    for unit in units {
        let (letter, number) = match unit {
            Unit::Byte(b) => (b'b', *b as u32),
            Unit::Coded(b) => (b'c', *b as u32),
            Unit::Sdata(number) => (b's', *number),
        };
        out.push(letter)?;
        put_number(alloc, out, number as u64)?;
        out.push(b' ')?;
    }
    Ok(())
}

pub fn tell(
    alloc: Global,
    word: &[u8],
    field: &[u8],
    bytes: &[u8],
    out: &mut Vec<u8>,
) -> Result<(), Memory> {
    if is(word, "units") {
        put_units(alloc, out, units_of(alloc, bytes)?.copy(alloc)?.items())
    } else if is(word, "units as they are kept") {
        put_units(alloc, out, units_of(alloc, bytes)?.into_items().as_slice())
    } else if is(word, "units of bytes") {
        put_units(alloc, out, Units::of_bytes(alloc, bytes)?.items())
    } else {
        put_yes(out, units_of(alloc, field)? == units_of(alloc, bytes)?)
    }
}
