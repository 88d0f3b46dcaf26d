// Texts as cases and answers spell them, and values as answers.
//
// `^` and a character stand for the control character whose code is 64 less: `^M` is RE, `^J` RS,
// `^I` TAB.
use sgml_attr::AttrValue;
use sgml_dtd::Dtd;
use sgml_said::entity_name;
use sgml_text::{Memory, Name, Unit};
use sgml_trials::put;
use std::alloc::Global;

/// The bytes that are spelled.
pub fn bytes_of(alloc: Global, spelled: &[u8]) -> Result<Vec<u8>, Memory> {
    let mut bytes = Vec::new(alloc);
    let mut control = false;
    for b in spelled {
        if control {
            bytes.push(*b % 32)?;
            control = false;
        } else if *b == b'^' {
            control = true;
        } else {
            bytes.push(*b)?;
        }
    }
    Ok(bytes)
}

fn put_byte(out: &mut Vec<u8>, b: u8) -> Result<(), Memory> {
    if b < 32 {
        out.push(b'^')?;
        out.push(b + 64)?;
    } else {
        out.push(b)?;
    }
    Ok(())
}

/// Puts lines, with ` / ` in the place of each LF and a full stop behind them.
pub fn put_lines(out: &mut Vec<u8>, bytes: &[u8]) -> Result<(), Memory> {
    for b in bytes {
        if *b == b'\n' {
            put(out, " / ")?;
        } else {
            put_byte(out, *b)?;
        }
    }
    put(out, ".")
}

fn put_between(out: &mut Vec<u8>, before: u8, bytes: &[u8], after: u8) -> Result<(), Memory> {
    out.push(before)?;
    out.extend_from_slice(bytes)?;
    out.push(after)?;
    Ok(())
}

// A unit: that of an SDATA entity is its name in braces.
fn put_unit(out: &mut Vec<u8>, dtd: &Dtd, unit: Unit) -> Result<(), Memory> {
    match unit {
        Unit::Byte(b) => put_byte(out, b),
        Unit::Coded(b) => put_byte(out, b),
        Unit::Sdata(entity) => put_between(out, b'{', entity_name(dtd, entity), b'}'),
    }
}

fn put_units(out: &mut Vec<u8>, dtd: &Dtd, units: &[Unit]) -> Result<(), Memory> {
    put(out, " CDATA '")?;
    for unit in units {
        put_unit(out, dtd, *unit)?;
    }
    put(out, "'")
}

fn put_names(out: &mut Vec<u8>, names: &[Name]) -> Result<(), Memory> {
    put(out, " TOKEN")?;
    for name in names {
        out.push(b' ')?;
        out.extend_from_slice(name.items())?;
    }
    Ok(())
}

fn put_entities(out: &mut Vec<u8>, dtd: &Dtd, numbers: &[u32]) -> Result<(), Memory> {
    put(out, " ENTITY")?;
    for number in numbers {
        out.push(b' ')?;
        out.extend_from_slice(entity_name(dtd, *number))?;
    }
    Ok(())
}

fn put_notation(out: &mut Vec<u8>, notation: &Name) -> Result<(), Memory> {
    put(out, " NOTATION ")?;
    out.extend_from_slice(notation.items())?;
    Ok(())
}

/// Puts a value.
pub fn put_value(out: &mut Vec<u8>, dtd: &Dtd, value: &AttrValue) -> Result<(), Memory> {
    match value {
        AttrValue::Implied => put(out, " IMPLIED"),
        AttrValue::Cdata(units) => put_units(out, dtd, units.items()),
        AttrValue::Notation(notation) => put_notation(out, notation),
        AttrValue::Entities(numbers) => put_entities(out, dtd, numbers.items()),
        AttrValue::Tokens(names) => put_names(out, names.items()),
    }
}
