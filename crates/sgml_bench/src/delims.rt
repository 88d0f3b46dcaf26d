// Delimiters and short reference strings, looked for at each byte of a generated book.
use sgml_delim::{Mode, Recognised, recognise};
use sgml_shortref::{Matched, longest};
use std::time::Instant;

fn delimiters(text: &[u8], mode: Mode) -> u64 {
    let syntax = sgml_syntax::implied();
    let mut found: u64 = 0;
    for at in 0..text.len() {
        match recognise(&syntax, mode, true, text, at, true) {
            Recognised::Plain => {}
            _ => found = found.saturating_add(1),
        }
    }
    found
}

fn strings(text: &[u8]) -> u64 {
    let mut found: u64 = 0;
    for at in 0..text.len() {
        match longest(text, at, true) {
            Matched::Plain => {}
            _ => found = found.saturating_add(1),
        }
    }
    found
}

fn measure_mode(rt: &HostRuntime, text: &[u8], mode: Mode) {
    let Ok(start) = Instant::now(rt) else {
        return;
    };
    let found = delimiters(text, mode);
    let Ok(time) = start.elapsed(rt) else {
        return;
    };
    let _ = println!(rt;
        "{:?}: {} of {} bytes begin a delimiter: {:?}",
        mode,
        found,
        text.len(),
        time
    );
}

pub fn measure(rt: &HostRuntime, size: &str) {
    let Ok(size) = size.parse::<u32>() else {
        return;
    };
    if size == 0 || size > 100_000 {
        return;
    }
    let Ok(text) = sgml_gen::document(rt.alloc(), size) else {
        return;
    };
    measure_mode(rt, &text, Mode::Con);
    measure_mode(rt, &text, Mode::Lit);
    measure_strings(rt, &text);
}

fn measure_strings(rt: &HostRuntime, text: &[u8]) {
    let Ok(start) = Instant::now(rt) else {
        return;
    };
    let found = strings(text);
    let Ok(time) = start.elapsed(rt) else {
        return;
    };
    let _ = println!(rt;
        "{} of {} bytes begin a short reference string: {:?}",
        found,
        text.len(),
        time
    );
}
