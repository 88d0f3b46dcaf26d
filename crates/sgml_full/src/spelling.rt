// Data, references and names on their way to a sink.
ghost use Rattle.std.specs.Prelude.{◌≡◌, ◌∷◌, [], decimal, flat_map};
ghost use Rattle.sgml_esis.specs.Writing.{PutsInto};
ghost use Rattle.sgml_said.specs.theory_reading.Types.{name_of_entity};
ghost use Rattle.sgml_full.specs.Spelled.{number_reference, entity_reference, has_map, is_itself, spelled_byte, spelled_unit, spelled_data, raw_byte, raw_unit, raw_data, line_byte, instruction};

use sgml_dtd::Dtd;
use sgml_esis::{Held, put};
use sgml_events::{Parts, Stretch};
use sgml_io::Sink;
use sgml_said::entity_name;
use sgml_text::Unit;

// A number of at most three digits.
fn put_decimal<O: Sink>(held: &mut Held, sink: &mut O, b: u8)
    ensures { PutsInto O.taken O.faults sink.old held.old sink.new held.new (decimal b) }
{
    if b >= 100 {
        put(held, sink, &[48 + b / 100, 48 + b / 10 % 10, 48 + b % 10]);
    } else if b >= 10 {
        put(held, sink, &[48 + b / 10, 48 + b % 10]);
    } else {
        put(held, sink, &[48 + b]);
    }
}

fn put_number_reference<O: Sink>(held: &mut Held, sink: &mut O, b: u8)
    ensures { PutsInto O.taken O.faults sink.old held.old sink.new held.new (number_reference b) }
{
    put(held, sink, b"&#");
    put_decimal(held, sink, b);
    put(held, sink, b";");
}

/// A reference to a general entity.
pub(crate) fn put_entity_reference<O: Sink>(held: &mut Held, sink: &mut O, dtd: &Dtd, entity: u32)
    ensures { PutsInto O.taken O.faults sink.old held.old sink.new held.new (entity_reference (name_of_entity dtd.now entity)) }
{
    put(held, sink, b"&");
    put(held, sink, entity_name(dtd, entity));
    put(held, sink, b";");
}

/// Whether a short reference map is declared.
pub(crate) fn has_map(dtd: &Dtd) -> bool
    ensures { result ≡ has_map dtd.now }
{
    dtd.maps().count() != 0
}

fn is_itself(mapped: bool, b: u8) -> bool
    ensures { result ≡ is_itself mapped b }
{
    b.is_ascii_alphabetic() || b.is_ascii_digit() || b == b'.' || b >= 128 || (b == b' ' && !mapped)
}

fn put_byte<O: Sink>(held: &mut Held, sink: &mut O, mapped: bool, b: u8)
    ensures { PutsInto O.taken O.faults sink.old held.old sink.new held.new (spelled_byte mapped b) }
{
    if is_itself(mapped, b) {
        put(held, sink, &[b]);
    } else {
        put_number_reference(held, sink, b);
    }
}

fn put_unit<O: Sink>(held: &mut Held, sink: &mut O, dtd: &Dtd, mapped: bool, unit: Unit)
    requires { mapped ≡ has_map dtd.now }
    ensures { PutsInto O.taken O.faults sink.old held.old sink.new held.new (spelled_unit dtd.now unit) }
{
    match unit {
        Unit::Byte(b) => put_byte(held, sink, mapped, b),
        Unit::Coded(b) => put_byte(held, sink, mapped, b),
        Unit::Sdata(entity) => put_entity_reference(held, sink, dtd, entity),
    }
}

/// Data, by references.
pub(crate) fn put_units<O: Sink>(held: &mut Held, sink: &mut O, dtd: &Dtd, units: &[Unit])
    ensures { PutsInto O.taken O.faults sink.old held.old sink.new held.new (spelled_data dtd.now units.now) }
{
    let mapped = has_map(dtd);
    for unit in units {
        put_unit(held, sink, dtd, mapped, *unit);
    }
}

fn put_bytes<O: Sink>(held: &mut Held, sink: &mut O, mapped: bool, bytes: &[u8])
    ensures { PutsInto O.taken O.faults sink.old held.old sink.new held.new (flat_map (spelled_byte mapped) bytes.now) }
{
    for b in bytes {
        put_byte(held, sink, mapped, *b);
    }
}

/// A stretch of data, by references.
pub(crate) fn put_stretch<O: Sink>(held: &mut Held, sink: &mut O, dtd: &Dtd, stretch: &Stretch)
    ensures { PutsInto O.taken O.faults sink.old held.old sink.new held.new (spelled_data dtd.now stretch.now) }
{
    match stretch.parts() {
        Parts::Bytes(bytes) => put_bytes(held, sink, has_map(dtd), bytes),
        Parts::Units(units) => put_units(held, sink, dtd, units),
    }
}

fn put_raw_byte<O: Sink>(held: &mut Held, sink: &mut O, b: u8)
    ensures { PutsInto O.taken O.faults sink.old held.old sink.new held.new (raw_byte b ∷ []) }
{
    if b == 13 {
        put(held, sink, &[10]);
    } else {
        put(held, sink, &[b]);
    }
}

fn put_raw_unit<O: Sink>(held: &mut Held, sink: &mut O, dtd: &Dtd, unit: Unit)
    ensures { PutsInto O.taken O.faults sink.old held.old sink.new held.new (raw_unit dtd.now unit) }
{
    match unit {
        Unit::Byte(b) => put_raw_byte(held, sink, b),
        Unit::Coded(b) => put_raw_byte(held, sink, b),
        Unit::Sdata(entity) => put_entity_reference(held, sink, dtd, entity),
    }
}

fn put_raw_units<O: Sink>(held: &mut Held, sink: &mut O, dtd: &Dtd, units: &[Unit])
    ensures { PutsInto O.taken O.faults sink.old held.old sink.new held.new (raw_data dtd.now units.now) }
{
    for unit in units {
        put_raw_unit(held, sink, dtd, *unit);
    }
}

fn put_raw_bytes<O: Sink>(held: &mut Held, sink: &mut O, bytes: &[u8])
    ensures { PutsInto O.taken O.faults sink.old held.old sink.new held.new (flat_map (λ b. raw_byte b ∷ []) bytes.now) }
{
    for b in bytes {
        put_raw_byte(held, sink, *b);
    }
}

/// A stretch of CDATA content, as it is.
pub(crate) fn put_raw_stretch<O: Sink>(held: &mut Held, sink: &mut O, dtd: &Dtd, stretch: &Stretch)
    ensures { PutsInto O.taken O.faults sink.old held.old sink.new held.new (raw_data dtd.now stretch.now) }
{
    match stretch.parts() {
        Parts::Bytes(bytes) => put_raw_bytes(held, sink, bytes),
        Parts::Units(units) => put_raw_units(held, sink, dtd, units),
    }
}

fn put_line_byte<O: Sink>(held: &mut Held, sink: &mut O, b: u8)
    ensures { PutsInto O.taken O.faults sink.old held.old sink.new held.new (line_byte b) }
{
    if b != 13 {
        put(held, sink, &[b]);
    }
}

fn put_line<O: Sink>(held: &mut Held, sink: &mut O, text: &[u8])
    ensures { PutsInto O.taken O.faults sink.old held.old sink.new held.new (flat_map line_byte text.now) }
{
    for b in text {
        put_line_byte(held, sink, *b);
    }
}

/// A processing instruction, with a line feed for each of its record ends.
pub(crate) fn put_instruction<O: Sink>(held: &mut Held, sink: &mut O, text: &[u8])
    ensures { PutsInto O.taken O.faults sink.old held.old sink.new held.new (instruction text.now) }
{
    put(held, sink, b"<?");
    put_line(held, sink, text);
    put(held, sink, b">");
}
