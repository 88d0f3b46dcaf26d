// The token that a text begins with.
ghost use Rattle.std.specs.Prelude.{◌≡◌, ◌<◌, length, IsTrue};
ghost use Rattle.sgml_scan.specs.Classes.{is_scanned};

use crate::reading::is;
use crate::settings::mode_of;
use sgml_delim::Mode;
use sgml_markup::TokenKind;
use sgml_scan::{ScanState, Scanned, scan};
use sgml_steps::Steps;
use sgml_syntax::implied;
use sgml_text::Memory;
use sgml_trials::{put, put_number};
use std::alloc::Global;
use std::marker::Brand;
use std::sync::ledger::{Blank, Ledger};

fn counted<L: Ledger>(blank: Blank, state: ScanState, text: &[u8], ended: bool) -> Scanned
    requires name { blank.name ≡ L.name }
    requires parts { blank.parts ≡ L.parts }
    requires some { 0 < blank.parts }
    requires mode { IsTrue (is_scanned state.mode) }
    requires there { 0 < length text.now }
{
    let mut steps = Steps::<L>::new(blank);
    scan(&implied(), state, text, 0, ended, &mut steps)
}

// A mode in which texts are scanned, or Con.
fn scanned_mode(mode: Mode) -> Mode
    ensures { IsTrue (is_scanned result) }
{
    match mode {
        Mode::Con | Mode::Rcd | Mode::Cdt | Mode::Rcs | Mode::Cds | Mode::Ign | Mode::Ds => mode,
        _ => Mode::Con,
    }
}

// The token of a text, where NET and a map are in force or aren't; more is needed of an empty one.
fn token_of(mode: Mode, in_force: bool, text: &[u8], ended: bool) -> Scanned {
    if text.is_empty() {
        return Scanned::NeedMore;
    }
    let state = ScanState {
        mode: scanned_mode(mode),
        net: in_force,
        maps: in_force,
    };
    counted::<Brand>(Blank::new(1), state, text, ended)
}

// Whether a cut text is undecided, has the token of the whole one, or begins with a stretch.
fn is_cut_of(cut: Scanned, whole: Scanned) -> bool {
    match cut {
        Scanned::NeedMore => true,
        Scanned::Token(token)
            if token.kind == TokenKind::Chars || token.kind == TokenKind::Separators => { true }
        _ => cut == whole,
    }
}

// The token at the end of a text, and how many of the cut texts have another.
fn tell_token(alloc: Global, mode: Mode, text: &[u8], out: &mut Vec<u8>) -> Result<(), Memory> {
    let whole = token_of(mode, false, text, true);
    let mut others = 0u64;
    for n in 0..text.len() {
        if !is_cut_of(token_of(mode, false, &text[..n], false), whole) {
            others = others.saturating_add(1);
        }
    }
    let told = format!(in alloc; "{whole:?}, {others}")?;
    put(out, &told)
}

// The token in content where NET and a map are in force.
fn tell_in_force(alloc: Global, ended: bool, text: &[u8], out: &mut Vec<u8>) -> Result<(), Memory> {
    let scanned = token_of(Mode::Con, true, text, ended);
    let told = format!(in alloc; "{scanned:?}")?;
    put(out, &told)
}

// What each byte is at the end of a text, with the first of each run of bytes that are the same.
fn tell_bytes(alloc: Global, mode: Mode, out: &mut Vec<u8>) -> Result<(), Memory> {
    let mut last = Scanned::NeedMore;
    for b in 0..=255u8 {
        let scanned = token_of(mode, false, &[b], true);
        if scanned != last {
            put_number(alloc, out, b as u64)?;
            let told = format!(in alloc; " {scanned:?}; ")?;
            put(out, &told)?;
        }
        last = scanned;
    }
    Ok(())
}

pub fn tell(
    alloc: Global,
    word: &[u8],
    field: &[u8],
    text: &[u8],
    out: &mut Vec<u8>,
) -> Result<(), Memory> {
    if is(word, "token") {
        tell_token(alloc, mode_of(field), text, out)
    } else if is(word, "token with NET and a map") {
        tell_in_force(alloc, is(field, "END"), text, out)
    } else {
        tell_bytes(alloc, mode_of(field), out)
    }
}
