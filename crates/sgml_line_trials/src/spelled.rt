// Bytes as cases and answers spell them: `\n`, `\r`, `\t`, `\\` and `\xHH` stand for one byte each.
use sgml_text::Memory;

/// Puts bytes as they are.
pub fn put(out: &mut Vec<u8>, bytes: &[u8]) -> Result<(), Memory> {
    for b in bytes {
        out.push(*b)?;
    }
    Ok(())
}

fn put_digit(out: &mut Vec<u8>, digit: u8) -> Result<(), Memory> {
    let b = if digit < 10 {
        b'0' + digit
    } else {
        b'a' + (digit % 16).saturating_sub(10)
    };
    out.push(b)?;
    Ok(())
}

/// Puts a byte as it is spelled.
pub fn put_byte(out: &mut Vec<u8>, b: u8) -> Result<(), Memory> {
    match b {
        b'\n' => put(out, b"\\n"),
        b'\r' => put(out, b"\\r"),
        b'\t' => put(out, b"\\t"),
        b'\\' => put(out, b"\\\\"),
        32..=126 => put(out, &[b]),
        _ => {
            put(out, b"\\x")?;
            put_digit(out, b / 16)?;
            put_digit(out, b % 16)
        }
    }
}

/// Puts bytes as they are spelled.
pub fn put_spelled(out: &mut Vec<u8>, bytes: &[u8]) -> Result<(), Memory> {
    for b in bytes {
        put_byte(out, *b)?;
    }
    Ok(())
}

/// The number that digits are.
pub fn number_of(digits: &[u8]) -> u64 {
    let mut number = 0u64;
    for digit in digits {
        number = number
            .saturating_mul(10)
            .saturating_add((digit % 16) as u64);
    }
    number
}
