// Text with escapes, read.
ghost use Rattle.std.specs.Prelude.{◌≡◌, ◌≤◌, [], IfOk, length, map, option_map};
ghost use Rattle.std.specs.List.{list_all, prefix_len};
ghost use Rattle.sgml_esis.specs.declared.line.EscUnit.TheVariants.{Byte};
ghost use Rattle.sgml_esis.specs.Grammar.{is_bar};
ghost use Rattle.sgml_esis.specs.Plain.{is_plain};
ghost use Rattle.sgml_esis.specs.Reading.{unit_in, mode_in, units_on, text_of, paired_only, GoesOn};

use crate::line::{EscUnit, Escaped, push_bytes};
use sgml_text::Memory;
use std::alloc::Global;

/// What the next byte is: the first of a unit, or one after a backslash, after the first octal digit,
/// or after the second one, which is kept.
#[derive(Clone, Copy, Debug, PartialEq, Eq)]
pub enum Mode {
    Plain,
    Escape,
    Octal,
    Low(u8),
}

/// The text that these bytes spell, if they spell one.
pub fn read_text(alloc: Global, bytes: &[u8]) -> Result<Option<Escaped>, Memory>
    ensures { IfOk result (λ text. text ≡ text_of bytes.now) }
{
    let run = plain_run(bytes);
    if run == bytes.len() {
        return Ok(Some(Escaped::plain(alloc, bytes)?));
    }
    match read_units(alloc, bytes, run)? {
        Some(units) => Ok(paired(units)),
        None => Ok(None),
    }
}

// How many bytes at the front stand for themselves.
fn plain_run(bytes: &[u8]) -> usize
    ensures value { result ≡ prefix_len is_plain bytes.now }
    ensures within { result ≤ length bytes.now }
{
    bytes.iter().take_while(|b| is_plain(**b)).count()
}

pub(crate) fn is_plain(b: u8) -> bool
    ensures { result ≡ is_plain b }
{
    b >= 32 && b != 92
}

/// Whether each byte stands for itself. No byte ends the loop, so that several are looked at in one step.
pub fn all_plain(bytes: &[u8]) -> bool
    ensures { result ≡ list_all is_plain bytes.now }
{
    let mut plain = true;
    for b in bytes {
        plain &= is_plain(*b);
    }
    plain
}

fn paired(units: Vec<EscUnit>) -> Option<Escaped>
    ensures { result ≡ paired_only units.items }
{
    let bars = units.iter().filter(|unit| is_bar(**unit)).count();
    if bars % 2 == 0 {
        Some(Escaped::of(units))
    } else {
        None
    }
}

fn is_bar(unit: EscUnit) -> bool
    ensures { result ≡ is_bar unit }
{
    match unit {
        EscUnit::Byte(_) => false,
        EscUnit::Bar => true,
    }
}

// The units of these bytes, of which the first `run` stand for themselves.
fn read_units(alloc: Global, bytes: &[u8], run: usize) -> Result<Option<Vec<EscUnit>>, Memory>
    requires plain { run ≡ prefix_len is_plain bytes.now }
    requires within { run ≤ length bytes.now }
    ensures { IfOk result (λ units. option_map (λ v. v.items) units ≡ units_on [] Mode.Plain bytes.now) }
{
    let (plain, rest) = bytes.split_at(run);
    let mut units = Vec::with_capacity(alloc, bytes.len())?;
    push_bytes(&mut units, plain)?;
    read_on(units, rest)
}

// These units and those of the bytes behind them.
fn read_on(units: Vec<EscUnit>, bytes: &[u8]) -> Result<Option<Vec<EscUnit>>, Memory>
    ensures { IfOk result (λ all. option_map (λ v. v.items) all ≡ units_on units.items Mode.Plain bytes.now) }
{
    let mut units = units;
    let mut mode = Mode::Plain;
    for b in bytes {
        match take_byte(&mut units, mode, *b)? {
            Some(next) => mode = next,
            None => return Ok(None),
        }
    }
    match mode {
        Mode::Plain => Ok(Some(units)),
        _ => Ok(None),
    }
}

// One more byte of the text, and where the next one stands; None where no text goes on so.
fn take_byte(units: &mut Vec<EscUnit>, mode: Mode, b: u8) -> Result<Option<Mode>, Memory>
    ensures { IfOk result (λ next. GoesOn units.old.items mode b units.new.items next) }
{
    if let Some(unit) = unit_in(mode, b) {
        units.push(unit)?;
        return Ok(Some(Mode::Plain));
    }
    Ok(mode_in(mode, b))
}

// The unit that one more byte ends.
fn unit_in(mode: Mode, b: u8) -> Option<EscUnit>
    ensures { result ≡ unit_in mode b }
{
    match mode {
        Mode::Plain => plain_unit(b),
        Mode::Escape => escaped_unit(b),
        Mode::Octal => None,
        Mode::Low(middle) => octal_unit(middle, b),
    }
}

fn plain_unit(b: u8) -> Option<EscUnit>
    ensures { result ≡ unit_in Mode.Plain b }
{
    if b == 92 || b < 32 {
        return None;
    }
    Some(EscUnit::Byte(b))
}

fn escaped_unit(b: u8) -> Option<EscUnit>
    ensures { result ≡ unit_in Mode.Escape b }
{
    match b {
        92 => Some(EscUnit::Byte(92)),
        b'n' => Some(EscUnit::Byte(13)),
        b'|' => Some(EscUnit::Bar),
        _ => None,
    }
}

fn octal_unit(middle: u8, b: u8) -> Option<EscUnit>
    ensures { result ≡ unit_in (Mode.Low middle) b }
{
    if b < 48 || b > 55 {
        return None;
    }
    let byte = 8 * (middle % 4) + (b - 48);
    if byte == 13 {
        return None;
    }
    Some(EscUnit::Byte(byte))
}

// Where the byte after this one stands, where it ends no unit.
fn mode_in(mode: Mode, b: u8) -> Option<Mode>
    ensures { result ≡ mode_in mode b }
{
    match mode {
        Mode::Plain if b == 92 => Some(Mode::Escape),
        Mode::Escape if b == 48 => Some(Mode::Octal),
        Mode::Octal if b >= 48 && b <= 51 => Some(Mode::Low(b - 48)),
        _ => None,
    }
}
