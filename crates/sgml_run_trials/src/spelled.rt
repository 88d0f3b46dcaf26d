// Bytes as cases and answers spell them: `\n`, `\r`, `\t`, `\\` and `\xHH` stand for one byte each.
use sgml_text::Memory;
use sgml_trials::put;

fn put_digit(out: &mut Vec<u8>, digit: u8) -> Result<(), Memory> {
    let b = if digit < 10 {
        b'0' + digit
    } else {
        b'a' + (digit % 16).saturating_sub(10)
    };
    out.push(b)?;
    Ok(())
}

// Puts a byte as it is spelled. LF ends the line.
fn put_byte(out: &mut Vec<u8>, b: u8) -> Result<(), Memory> {
    match b {
        b'\r' => put(out, "\\r"),
        b'\t' => put(out, "\\t"),
        b'\\' => put(out, "\\\\"),
        b'\n' | 32..=126 => {
            out.push(b)?;
            Ok(())
        }
        _ => {
            put(out, "\\x")?;
            put_digit(out, b / 16)?;
            put_digit(out, b % 16)
        }
    }
}

// Puts a byte, at the begin of a line behind the word. Tells whether the line goes on.
fn put_next(out: &mut Vec<u8>, front: &str, goes_on: bool, b: u8) -> Result<bool, Memory> {
    if !goes_on {
        put(out, front)?;
    }
    put_byte(out, b)?;
    Ok(b != b'\n')
}

/// Puts the lines of bytes, each behind a word. Of the last one, if no LF ends it, it says so.
pub fn put_lines(out: &mut Vec<u8>, front: &str, bytes: &[u8]) -> Result<(), Memory> {
    let mut goes_on = false;
    for b in bytes {
        goes_on = put_next(out, front, goes_on, *b)?;
    }
    if goes_on {
        put(out, "\nunended\n")?;
    }
    Ok(())
}
