// What is told of the words of the command.
use sgml_text::Memory;
use sgml_trials::{put, put_counted};
use sgml_words::{Command, Mode, command_of};
use std::alloc::Global;

// The words between TABs; none where nothing stands there. A word that isn't text is left out.
fn words_of(alloc: Global, parts: &[u8]) -> Result<Vec<String>, Memory> {
    let mut words = Vec::new(alloc);
    if parts.is_empty() {
        return Ok(words);
    }
    for part in parts.split(|b| *b == b'\t') {
        if let Ok(text) = std::str::from_utf8(part) {
            words.push(String::from_str(alloc, text)?)?;
        }
    }
    Ok(words)
}

fn put_mode(alloc: Global, mode: Mode, out: &mut Vec<u8>) -> Result<(), Memory> {
    match mode {
        Mode::Esis => put(out, "esis"),
        Mode::Full => put(out, "full"),
        Mode::Check => put(out, "check"),
        Mode::Lines => put(out, "lines"),
        Mode::Selfcheck { number } => put_counted(alloc, out, "selfcheck ", number as u64),
    }
}

fn put_command(alloc: Global, command: &Command, out: &mut Vec<u8>) -> Result<(), Memory> {
    put_mode(alloc, command.mode, out)?;
    if let Some(catalog) = &command.catalog {
        put(out, ", catalog ")?;
        out.extend_from_slice(catalog.items())?;
    }
    put_counted(alloc, out, ", piece ", command.limits.piece as u64)?;
    put_counted(alloc, out, ", expand ", command.limits.expand)?;
    put(out, ", file ")?;
    out.extend_from_slice(command.file.items())?;
    Ok(())
}

/// The command that the words between TABs tell, or `usage`.
pub fn tell_command(alloc: Global, parts: &[u8], out: &mut Vec<u8>) -> Result<(), Memory> {
    let words = words_of(alloc, parts)?;
    match command_of(alloc, &words)? {
        Some(command) => put_command(alloc, &command, out),
        None => put(out, "usage"),
    }
}
