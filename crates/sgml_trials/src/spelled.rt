// Bytes as cases and answers spell them: `\n`, `\r`, `\t`, `\\` and `\xHH` stand for one byte each.
use sgml_text::Memory;
use std::alloc::Global;

// What the next byte is.
#[derive(Clone, Copy)]
enum Next {
    Plain,
    Escaped,
    High,
    Low(u8),
}

fn digit(b: u8) -> u8 {
    if b >= b'a' { b - b'a' + 10 } else { b % 16 }
}

fn control(b: u8) -> u8 {
    match b {
        b'n' => b'\n',
        b'r' => b'\r',
        b't' => b'\t',
        _ => b,
    }
}

fn take(bytes: &mut Vec<u8>, next: Next, b: u8) -> Result<Next, Memory> {
    match next {
        Next::Plain if b == b'\\' => return Ok(Next::Escaped),
        Next::Plain => bytes.push(b)?,
        Next::Escaped if b == b'x' => return Ok(Next::High),
        Next::Escaped => bytes.push(control(b))?,
        Next::High => return Ok(Next::Low(digit(b))),
        Next::Low(high) => bytes.push((high % 16) * 16 + digit(b) % 16)?,
    }
    Ok(Next::Plain)
}

/// The bytes that are spelled.
pub fn bytes_of(alloc: Global, spelled: &[u8]) -> Result<Vec<u8>, Memory> {
    let mut bytes = Vec::new(alloc);
    let mut next = Next::Plain;
    for b in spelled {
        next = take(&mut bytes, next, *b)?;
    }
    Ok(bytes)
}
