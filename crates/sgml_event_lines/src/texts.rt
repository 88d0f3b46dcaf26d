// Names and texts on their way to a sink.
ghost use Rattle.std.specs.Prelude.{◌≡◌, ◌≤◌, ◌∷◌, ◌++◌, [], length, drop, take, flat_map, if◌then◌else◌, false, ◌&&◌};
ghost use Rattle.std.specs.List.{prefix_len};
ghost use Rattle.sgml_esis.specs.Plain.{is_plain};
ghost use Rattle.sgml_esis.specs.Spelling.{spell_byte, spell_names};
ghost use Rattle.sgml_esis.specs.Writing.{PutsInto};
ghost use Rattle.sgml_theory_reading.specs.Lines.{single_from};
ghost use Rattle.sgml_event_lines.specs.Spelled.{beginning};
ghost use Rattle.sgml_event_lines.specs.Standing.{text_bytes, unit_bytes, spaced_bytes};

use sgml_dtd::Dtd;
use sgml_esis::{Held, all_plain, put, put_byte, put_plain, put_unseen, put_whole_line};
use sgml_io::Sink;
use sgml_said::sdata_text;
use sgml_text::{Name, Unit, is_separator};

fn is_plain(b: u8) -> bool
    ensures { result ≡ is_plain b }
{
    b >= 32 && b != 92
}

// How many bytes at the front stand for themselves.
fn plain_run(bytes: &[u8]) -> usize
    ensures value { result ≡ prefix_len is_plain bytes.now }
    ensures within { result ≤ length bytes.now }
{
    bytes.iter().take_while(|b| is_plain(**b)).count()
}

// Puts a byte with its escape.
fn put_escape<O: Sink>(held: &mut Held, sink: &mut O, b: u8)
    ensures { PutsInto O.taken O.faults sink.old held.old sink.new held.new (spell_byte b) }
{
    match b {
        92 => put(held, sink, &[92, 92]),
        13 => put(held, sink, &[92, b'n']),
        _ if b < 32 => put(held, sink, &[92, 48, 48 + b / 8, 48 + b % 8]),
        _ => put_byte(held, sink, b),
    }
}

// Puts the first byte with its escape, and tells what follows it.
fn put_first<'a, O: Sink>(held: &mut Held, sink: &mut O, bytes: &'a [u8]) -> &'a [u8]
    ensures puts { PutsInto O.taken O.faults sink.old held.old sink.new held.new (text_bytes (take 1 bytes.now)) }
    ensures rest { result.now ≡ drop 1 bytes.now }
{
    match bytes {
        [] => bytes,
        [b, rest @ ..] => {
            put_escape(held, sink, *b);
            rest
        }
    }
}

/// Puts a text with its escapes.
#[inline(always)]
pub(crate) fn put_text<O: Sink>(held: &mut Held, sink: &mut O, text: &[u8])
    ensures { PutsInto O.taken O.faults sink.old held.old sink.new held.new (text_bytes text.now) }
{
    if sink.goes_nowhere() {
        put_unseen(held, sink);
        return;
    }
    if all_plain(text) {
        put(held, sink, text);
        return;
    }
    put_stretches(held, sink, text);
}

// Puts the same: bytes that stand for themselves in whole stretches.
#[inline(never)]
fn put_stretches<O: Sink>(held: &mut Held, sink: &mut O, text: &[u8])
    ensures { PutsInto O.taken O.faults sink.old held.old sink.new held.new (text_bytes text.now) }
{
    let mut rest = text;
    'stretches: while !rest.is_empty() {
        let (plain, after) = rest.split_at(plain_run(rest));
        put(held, sink, plain);
        rest = put_first(held, sink, after);
    }
}

// Puts a unit of data: the text of an SDATA entity between bars.
fn put_unit<O: Sink>(held: &mut Held, sink: &mut O, dtd: &Dtd, unit: Unit)
    ensures { PutsInto O.taken O.faults sink.old held.old sink.new held.new (unit_bytes dtd.now unit) }
{
    match unit {
        Unit::Byte(b) => put_escape(held, sink, b),
        Unit::Coded(b) => put_escape(held, sink, b),
        Unit::Sdata(entity) => put_barred(held, sink, sdata_text(dtd, entity)),
    }
}

// Puts the escape that stands before and after the text of an SDATA entity.
fn put_bar<O: Sink>(held: &mut Held, sink: &mut O)
    ensures { PutsInto O.taken O.faults sink.old held.old sink.new held.new (92 ∷ 124 ∷ []) }
{
    put(held, sink, b"\\|");
}

fn put_barred<O: Sink>(held: &mut Held, sink: &mut O, text: &[u8])
    ensures { PutsInto O.taken O.faults sink.old held.old sink.new held.new (92 ∷ 124 ∷ text_bytes text.now ++ 92 ∷ 124 ∷ []) }
{
    put_bar(held, sink);
    put_text(held, sink, text);
    put_bar(held, sink);
}

/// Puts units of data.
pub(crate) fn put_units<O: Sink>(held: &mut Held, sink: &mut O, dtd: &Dtd, units: &[Unit])
    ensures { PutsInto O.taken O.faults sink.old held.old sink.new held.new (flat_map (unit_bytes dtd.now) units.now) }
{
    if sink.goes_nowhere() {
        put_unseen(held, sink);
        return;
    }
    for unit in units {
        put_unit(held, sink, dtd, *unit);
    }
}

/// Puts a text of data, behind the begin of its line unless that is open.
#[inline(always)]
pub(crate) fn put_data_text<O: Sink>(held: &mut Held, sink: &mut O, within: bool, text: &[u8])
    ensures { PutsInto O.taken O.faults sink.old held.old sink.new held.new (beginning within ++ text_bytes text.now) }
{
    if sink.goes_nowhere() {
        put_unseen(held, sink);
        return;
    }
    if text.len() <= 16 {
        put_short_data(held, sink, within, text);
        return;
    }
    put_long_data(held, sink, within, text);
}

// Puts the same byte by byte.
#[inline(always)]
fn put_short_data<O: Sink>(held: &mut Held, sink: &mut O, within: bool, text: &[u8])
    requires { length text.now ≤ 32 }
    ensures { PutsInto O.taken O.faults sink.old held.old sink.new held.new (beginning within ++ text_bytes text.now) }
{
    let (_, rest) = text.split_at(put_plain(held, sink, !within, b'-', text));
    if !rest.is_empty() {
        put_stretches(held, sink, rest);
    }
}

// Puts the same in stretches.
#[inline(never)]
fn put_long_data<O: Sink>(held: &mut Held, sink: &mut O, within: bool, text: &[u8])
    ensures { PutsInto O.taken O.faults sink.old held.old sink.new held.new (beginning within ++ text_bytes text.now) }
{
    put_beginning(held, sink, within);
    put_text(held, sink, text);
}

/// Begins a line of data, unless one is open.
pub(crate) fn put_beginning<O: Sink>(held: &mut Held, sink: &mut O, within: bool)
    ensures { PutsInto O.taken O.faults sink.old held.old sink.new held.new (beginning within) }
{
    if !within {
        put_byte(held, sink, b'-');
    }
}

// Puts a blank, if there is to be one.
fn put_blank<O: Sink>(held: &mut Held, sink: &mut O, begun: bool, pending: bool)
    ensures { PutsInto O.taken O.faults sink.old held.old sink.new held.new (if begun && pending then 32 ∷ [] else []) }
{
    if begun {
        if pending {
            put(held, sink, b" ");
        }
    }
}

// Puts a byte that isn't white space, behind a blank where white space stood within the text.
fn put_spaced<O: Sink>(held: &mut Held, sink: &mut O, begun: bool, pending: bool, b: u8)
    ensures { PutsInto O.taken O.faults sink.old held.old sink.new held.new (spaced_bytes begun pending b) }
{
    if is_separator(b) {
        return;
    }
    put_blank(held, sink, begun, pending);
    put_escape(held, sink, b);
}

/// Puts a text with its white space made single and its ends trimmed.
pub(crate) fn put_single<O: Sink>(held: &mut Held, sink: &mut O, text: &[u8])
    ensures { PutsInto O.taken O.faults sink.old held.old sink.new held.new (text_bytes (single_from false false text.now)) }
{
    let mut begun = false;
    let mut pending = false;
    for b in text {
        put_spaced(held, sink, begun, pending, *b);
        pending = is_separator(*b);
        begun |= !pending;
    }
}

/// Puts a byte and bytes.
pub(crate) fn put_marked<O: Sink>(held: &mut Held, sink: &mut O, mark: u8, bytes: &[u8])
    ensures { PutsInto O.taken O.faults sink.old held.old sink.new held.new (mark ∷ bytes.now) }
{
    put_byte(held, sink, mark);
    put(held, sink, bytes);
}

/// Puts the line of a mark and a name.
#[inline(always)]
pub(crate) fn put_name_line<O: Sink>(held: &mut Held, sink: &mut O, mark: u8, name: &[u8])
    ensures { PutsInto O.taken O.faults sink.old held.old sink.new held.new (mark ∷ name.now ++ 10 ∷ []) }
{
    put_whole_line(held, sink, mark, name);
}

/// Puts the line of a mark and a text.
pub(crate) fn put_text_line<O: Sink>(held: &mut Held, sink: &mut O, mark: u8, text: &[u8])
    ensures { PutsInto O.taken O.faults sink.old held.old sink.new held.new (mark ∷ text_bytes text.now ++ 10 ∷ []) }
{
    put_byte(held, sink, mark);
    put_text(held, sink, text);
    put_byte(held, sink, b'\n');
}

/// Puts names, each after a blank.
pub(crate) fn put_names<O: Sink>(held: &mut Held, sink: &mut O, names: &[Name])
    ensures { PutsInto O.taken O.faults sink.old held.old sink.new held.new (spell_names names.now) }
{
    for name in names {
        put_marked(held, sink, b' ', name.items());
    }
}
