// The tokens of a generated book's instance, one after another.
ghost use Rattle.std.specs.Prelude.{◌≡◌, ◌<◌, ◌≤◌, length};

use sgml_delim::Mode;
use sgml_scan::{ScanState, Scanned, scan};
use sgml_steps::Steps;
use sgml_syntax::Syntax;
use std::marker::Brand;
use std::sync::ledger::{Blank, Ledger};
use std::time::Instant;

// How many tokens the text has. A byte at which none begins is passed over.
fn tokens<L: Ledger>(blank: Blank, syntax: &Syntax, state: ScanState, text: &[u8]) -> u64
    requires name { blank.name ≡ L.name }
    requires parts { blank.parts ≡ L.parts }
    requires some { 0 < blank.parts }
    requires mode { state.mode ≡ Mode.Con }
{
    let mut steps = Steps::<L>::new(blank);
    let mut found: u64 = 0;
    let mut at = 0;
    'tokens: while at < text.len() {
        match scan(syntax, state, text, at, true, &mut steps) {
            Scanned::Token(token) => {
                found = found.saturating_add(1);
                at = next(text, at, token.length as usize);
            }
            _ => at += 1,
        }
    }
    found
}

// The place after a token, which is a byte on at least.
fn next(text: &[u8], at: usize, size: usize) -> usize
    requires { at < length text.now }
    ensures further { at < result }
    ensures within { result ≤ length text.now }
{
    if size == 0 || size > text.len() - at {
        at + 1
    } else {
        at + size
    }
}

pub fn measure(rt: &HostRuntime, size: &str) {
    let Ok(size) = size.parse::<u32>() else {
        return;
    };
    if size == 0 || size > 100_000 {
        return;
    }
    let Ok(text) = sgml_gen::document(rt.alloc(), size) else {
        return;
    };
    let state = ScanState {
        mode: Mode::Con,
        net: false,
        maps: false,
    };
    let Ok(start) = Instant::now(rt) else {
        return;
    };
    let found = tokens::<Brand>(Blank::new(1), &sgml_syntax::implied(), state, &text);
    let Ok(time) = start.elapsed(rt) else {
        return;
    };
    let _ = println!(rt; "{} tokens in {} bytes: {:?}", found, text.len(), time);
}
