// Tags with nothing left out.
ghost use Rattle.std.specs.Prelude.{◌∷◌, map};
ghost use Rattle.sgml_esis.specs.Spelling.{spell_names};
ghost use Rattle.sgml_esis.specs.Writing.{PutsInto};
ghost use Rattle.sgml_said.specs.theory_reading.Types.{name_of_entity};
ghost use Rattle.sgml_said.specs.Told.{entity_names, name_at};
ghost use Rattle.sgml_full.specs.Spelled.{spaced, spelled_value, valued, specification, specifications, tag_of_start, end_tag};

use crate::spelling::put_units;
use sgml_attr::{AttrValue, Definition};
use sgml_dtd::Dtd;
use sgml_esis::{Held, put};
use sgml_io::Sink;
use sgml_said::{defined_values, definitions, element_name, entity_name};
use sgml_text::Name;

// A name behind a space.
fn put_spaced<O: Sink>(held: &mut Held, sink: &mut O, name: &[u8])
    ensures { PutsInto O.taken O.faults sink.old held.old sink.new held.new (32 ∷ name.now) }
{
    put(held, sink, b" ");
    put(held, sink, name);
}

fn put_more_names<O: Sink>(held: &mut Held, sink: &mut O, names: &[Name])
    ensures { PutsInto O.taken O.faults sink.old held.old sink.new held.new (spell_names names.now) }
{
    for name in names {
        put_spaced(held, sink, name.items());
    }
}

// Names with a space between each two.
fn put_names<O: Sink>(held: &mut Held, sink: &mut O, names: &[Name])
    ensures { PutsInto O.taken O.faults sink.old held.old sink.new held.new (spaced names.now) }
{
    if let Some((first, rest)) = names.split_first() {
        put(held, sink, first.items());
        put_more_names(held, sink, rest);
    }
}

fn put_more_entities<O: Sink>(held: &mut Held, sink: &mut O, dtd: &Dtd, numbers: &[u32])
    ensures { PutsInto O.taken O.faults sink.old held.old sink.new held.new (entity_names dtd.now numbers.now) }
{
    for number in numbers {
        put_spaced(held, sink, entity_name(dtd, *number));
    }
}

// The names of entities with a space between each two.
fn put_entities<O: Sink>(held: &mut Held, sink: &mut O, dtd: &Dtd, numbers: &[u32])
    ensures { PutsInto O.taken O.faults sink.old held.old sink.new held.new (spaced (map (name_of_entity dtd.now) numbers.now)) }
{
    if let Some((first, rest)) = numbers.split_first() {
        put(held, sink, entity_name(dtd, *first));
        put_more_entities(held, sink, dtd, rest);
    }
}

fn put_value<O: Sink>(held: &mut Held, sink: &mut O, dtd: &Dtd, value: &AttrValue)
    ensures { PutsInto O.taken O.faults sink.old held.old sink.new held.new (spelled_value dtd.now value.now) }
{
    match value {
        AttrValue::Implied => {}
        AttrValue::Cdata(units) => put_units(held, sink, dtd, units.items()),
        AttrValue::Notation(notation) => put(held, sink, notation.items()),
        AttrValue::Entities(numbers) => put_entities(held, sink, dtd, numbers.items()),
        AttrValue::Tokens(tokens) => put_names(held, sink, tokens.items()),
    }
}

// A name and a value in its literal.
fn put_given<O: Sink>(held: &mut Held, sink: &mut O, dtd: &Dtd, name: &[u8], value: &AttrValue)
    ensures { PutsInto O.taken O.faults sink.old held.old sink.new held.new (valued dtd.now name.now value.now) }
{
    put(held, sink, b" ");
    put(held, sink, name);
    put(held, sink, b"=\"");
    put_value(held, sink, dtd, value);
    put(held, sink, b"\"");
}

fn put_specification<O: Sink>(
    held: &mut Held,
    sink: &mut O,
    dtd: &Dtd,
    name: &[u8],
    value: &AttrValue,
)
    ensures { PutsInto O.taken O.faults sink.old held.old sink.new held.new (specification dtd.now name.now value.now) }
{
    match value {
        AttrValue::Implied => {}
        AttrValue::Cdata(_) => put_given(held, sink, dtd, name, value),
        AttrValue::Notation(_) => put_given(held, sink, dtd, name, value),
        AttrValue::Entities(_) => put_given(held, sink, dtd, name, value),
        AttrValue::Tokens(_) => put_given(held, sink, dtd, name, value),
    }
}

fn put_specifications<O: Sink>(
    held: &mut Held,
    sink: &mut O,
    dtd: &Dtd,
    definitions: &[Definition],
    values: &[AttrValue],
)
    ensures { PutsInto O.taken O.faults sink.old held.old sink.new held.new (specifications dtd.now definitions.now values.now) }
{
    for i in 0..defined_values(definitions, values) {
        put_specification(held, sink, dtd, definitions[i].name.items(), &values[i]);
    }
}

/// A start-tag with all values that there are.
pub(crate) fn put_start_tag<O: Sink>(
    held: &mut Held,
    sink: &mut O,
    dtd: &Dtd,
    element: u32,
    values: &[AttrValue],
)
    ensures { PutsInto O.taken O.faults sink.old held.old sink.new held.new (tag_of_start dtd.now element values.now) }
{
    put(held, sink, b"<");
    put(held, sink, element_name(dtd, element));
    put_specifications(held, sink, dtd, definitions(dtd, element), values);
    put(held, sink, b">");
}

/// An end-tag.
pub(crate) fn put_end_tag<O: Sink>(held: &mut Held, sink: &mut O, dtd: &Dtd, element: u32)
    ensures { PutsInto O.taken O.faults sink.old held.old sink.new held.new (end_tag (name_at dtd.now element)) }
{
    put(held, sink, b"</");
    put(held, sink, element_name(dtd, element));
    put(held, sink, b">");
}
