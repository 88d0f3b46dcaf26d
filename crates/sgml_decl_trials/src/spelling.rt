// How cases and answers are spelled: `\0D` is the byte of these two digits, in units `{20}` a
// character from a reference and `{@7}` the SDATA entity of that number.
use sgml_text::{Memory, Name, Names, Unit, Units};
use std::alloc::Global;

/// What stands before the first such byte, and what follows it.
pub fn cut(bytes: &[u8], mark: u8) -> (&[u8], &[u8]) {
    match bytes.iter().position(|b| *b == mark) {
        Some(at) => (&bytes[..at], &bytes[at + 1..]),
        None => (bytes, &[]),
    }
}

fn digit_of(b: u8) -> u8 {
    match b {
        b'0'..=b'9' => b - b'0',
        b'A'..=b'F' => b - b'A' + 10,
        _ => 0,
    }
}

fn byte_of(high: u8, low: u8) -> u8 {
    digit_of(high).wrapping_mul(16).wrapping_add(digit_of(low))
}

/// The number of these digits.
pub fn number_of(digits: &[u8]) -> u64 {
    let mut number = 0u64;
    for digit in digits {
        number = number
            .saturating_mul(10)
            .saturating_add(u64::from(digit_of(*digit)));
    }
    number
}

/// The same, as the number of an entity or a limit.
pub fn small_of(digits: &[u8]) -> u32 {
    number_of(digits).min(4_294_967_295) as u32
}

pub fn put(out: &mut Vec<u8>, bytes: &[u8]) -> Result<(), Memory> {
    out.extend_from_slice(bytes)?;
    Ok(())
}

pub fn put_number(alloc: Global, out: &mut Vec<u8>, number: u64) -> Result<(), Memory> {
    let digits = format!(in alloc; "{number}")?;
    put(out, digits.as_bytes())
}

fn hexadecimal(n: u8) -> u8 {
    match n {
        0..=9 => b'0' + n,
        10..=15 => b'A' + (n - 10),
        _ => b'?',
    }
}

fn put_byte(out: &mut Vec<u8>, b: u8) -> Result<(), Memory> {
    out.push(hexadecimal(b / 16))?;
    out.push(hexadecimal(b % 16))?;
    Ok(())
}

/// These bytes, as a case has them.
pub fn put_text(out: &mut Vec<u8>, bytes: &[u8]) -> Result<(), Memory> {
    for b in bytes {
        if *b < 32 || *b > 126 || *b == b'\\' {
            out.push(b'\\')?;
            put_byte(out, *b)?;
        } else {
            out.push(*b)?;
        }
    }
    Ok(())
}

fn add_escaped(out: &mut Vec<u8>, piece: &[u8]) -> Result<(), Memory> {
    match piece {
        [high, low, rest @ ..] => {
            out.push(byte_of(*high, *low))?;
            put(out, rest)
        }
        _ => Ok(()),
    }
}

/// The bytes that a case spells.
pub fn spelled(alloc: Global, text: &[u8]) -> Result<Vec<u8>, Memory> {
    let mut out = Vec::new(alloc);
    for (i, piece) in text.split(|b| *b == b'\\').enumerate() {
        if i == 0 {
            put(&mut out, piece)?;
        } else {
            add_escaped(&mut out, piece)?;
        }
    }
    Ok(out)
}

fn add_bytes(alloc: Global, units: &mut Vec<Unit>, text: &[u8]) -> Result<(), Memory> {
    let bytes = spelled(alloc, text)?;
    for b in &bytes {
        units.push(Unit::Byte(*b))?;
    }
    Ok(())
}

fn add_marked(alloc: Global, units: &mut Vec<Unit>, piece: &[u8]) -> Result<(), Memory> {
    match piece {
        [b'@', number, b'}', rest @ ..] => {
            units.push(Unit::Sdata(u32::from(digit_of(*number))))?;
            add_bytes(alloc, units, rest)
        }
        [high, low, b'}', rest @ ..] => {
            units.push(Unit::Coded(byte_of(*high, *low)))?;
            add_bytes(alloc, units, rest)
        }
        _ => Ok(()),
    }
}

/// The units that a case spells.
pub fn units_of(alloc: Global, text: &[u8]) -> Result<Units, Memory> {
    let mut units = Vec::new(alloc);
    for (i, piece) in text.split(|b| *b == b'{').enumerate() {
        if i == 0 {
            add_bytes(alloc, &mut units, piece)?;
        } else {
            add_marked(alloc, &mut units, piece)?;
        }
    }
    Ok(Units::of(units))
}

fn put_unit(alloc: Global, out: &mut Vec<u8>, unit: Unit) -> Result<(), Memory> {
    match unit {
        Unit::Byte(b) => put_text(out, &[b]),
        Unit::Coded(b) => {
            out.push(b'{')?;
            put_byte(out, b)?;
            put(out, b"}")
        }
        Unit::Sdata(number) => {
            put(out, b"{@")?;
            put_number(alloc, out, u64::from(number))?;
            put(out, b"}")
        }
    }
}

pub fn put_units(alloc: Global, out: &mut Vec<u8>, units: &[Unit]) -> Result<(), Memory> {
    for unit in units {
        put_unit(alloc, out, *unit)?;
    }
    Ok(())
}

/// Each name behind a blank.
pub fn put_names(out: &mut Vec<u8>, names: &[Name]) -> Result<(), Memory> {
    for name in names {
        put(out, b" ")?;
        put_text(out, name.items())?;
    }
    Ok(())
}

/// The name of these bytes; of no bytes it is `-`.
pub fn name_of(alloc: Global, bytes: &[u8]) -> Result<Name, Memory> {
    match bytes {
        [] => Name::copied(alloc, b"-"),
        _ => Name::copied(alloc, bytes),
    }
}

/// The names between commas.
pub fn names_of(alloc: Global, text: &[u8]) -> Result<Names, Memory> {
    let mut names = Vec::new(alloc);
    for word in text.split(|b| *b == b',') {
        let name = name_of(alloc, word)?;
        names.push(name)?;
    }
    Ok(Names::of(names))
}

pub fn put_bool(out: &mut Vec<u8>, holds: bool) -> Result<(), Memory> {
    put(out, if holds { b"yes" } else { b"no" })
}
