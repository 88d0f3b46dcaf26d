// The lines of values, of starts and of other events that aren't data.
ghost use Rattle.std.specs.Prelude.{◌≡◌, ◌∷◌, ◌++◌, true, IsTrue};
ghost use Rattle.std.specs.List.{list_all};
ghost use Rattle.sgml_esis.specs.Writing.{PutsInto};
ghost use Rattle.sgml_said.specs.Told.{entity_names};
ghost use Rattle.sgml_event_lines.specs.Marks.{is_value_of, is_number_of, is_event_of};
ghost use Rattle.sgml_event_lines.specs.Standing.{DefinesInto, value_named, value_bytes, value_placed, values_placed, reference_placed, event_placed, is_other};

use crate::defining::{define_entities, define_entity, define_notation};
use crate::pen::Pen;
use crate::texts::{put_marked, put_name_line, put_names, put_text_line, put_units};
use sgml_attr::{AttrValue, Definition};
use sgml_dtd::Dtd;
use sgml_esis::{Held, put};
use sgml_events::Event;
use sgml_io::Sink;
use sgml_said::{defined_values, entity_name};
use sgml_text::Name;

// The names of entities, each after a blank.
fn put_entity_names<O: Sink>(held: &mut Held, sink: &mut O, dtd: &Dtd, numbers: &[u32])
    ensures { PutsInto O.taken O.faults sink.old held.old sink.new held.new (entity_names dtd.now numbers.now) }
{
    for number in numbers {
        put_marked(held, sink, b' ', entity_name(dtd, *number));
    }
}

// A mark, a name and a word.
fn put_field<O: Sink>(held: &mut Held, sink: &mut O, mark: u8, name: &[u8], word: &[u8])
    ensures { PutsInto O.taken O.faults sink.old held.old sink.new held.new (mark ∷ name.now ++ word.now) }
{
    put_marked(held, sink, mark, name);
    put(held, sink, word);
}

// Defines what a value names.
fn define_for<O: Sink>(pen: &mut Pen, sink: &mut O, dtd: &Dtd, value: &AttrValue)
    requires { IsTrue (is_value_of dtd.now value.now) }
    ensures { DefinesInto dtd.now (value_named value.now) O.taken O.faults sink.old pen.old sink.new pen.new }
{
    match value {
        AttrValue::Notation(notation) => define_notation(pen, sink, dtd, notation),
        AttrValue::Entities(numbers) => define_entities(pen, sink, dtd, numbers.items()),
        AttrValue::Implied => {}
        AttrValue::Cdata(_) => {}
        AttrValue::Tokens(_) => {}
    }
}

// What follows the name of an attribute on the line of its value.
fn put_value<O: Sink>(held: &mut Held, sink: &mut O, dtd: &Dtd, value: &AttrValue)
    ensures { PutsInto O.taken O.faults sink.old held.old sink.new held.new (value_bytes dtd.now value.now) }
{
    match value {
        AttrValue::Implied => put(held, sink, b" IMPLIED"),
        AttrValue::Cdata(units) => {
            put(held, sink, b" CDATA ");
            put_units(held, sink, dtd, units.items());
        }
        AttrValue::Notation(notation) => {
            put(held, sink, b" NOTATION ");
            put(held, sink, notation.items());
        }
        AttrValue::Entities(numbers) => {
            put(held, sink, b" ENTITY");
            put_entity_names(held, sink, dtd, numbers.items());
        }
        AttrValue::Tokens(tokens) => {
            put(held, sink, b" TOKEN");
            put_names(held, sink, tokens.items());
        }
    }
}

// The line of an attribute's value, what it names before it.
fn put_attribute<O: Sink>(pen: &mut Pen, sink: &mut O, dtd: &Dtd, name: &Name, value: &AttrValue)
    requires { IsTrue (is_value_of dtd.now value.now) }
    ensures { DefinesInto dtd.now (value_placed name.now value.now) O.taken O.faults sink.old pen.old sink.new pen.new }
{
    define_for(pen, sink, dtd, value);
    put_marked(&mut pen.held, sink, b'A', name.items());
    put_value(&mut pen.held, sink, dtd, value);
    put(&mut pen.held, sink, b"\n");
}

/// The lines of a start's values, in the order of their definitions.
#[inline(never)]
pub(crate) fn put_attributes<O: Sink>(
    pen: &mut Pen,
    sink: &mut O,
    dtd: &Dtd,
    definitions: &[Definition],
    values: &[AttrValue],
)
    requires { IsTrue (list_all (is_value_of dtd.now) values.now) }
    ensures { DefinesInto dtd.now (values_placed definitions.now values.now) O.taken O.faults sink.old pen.old sink.new pen.new }
{
    for i in 0..defined_values(definitions, values) {
        put_attribute(pen, sink, dtd, &definitions[i].name, &values[i]);
    }
}

fn put_reference<O: Sink>(pen: &mut Pen, sink: &mut O, dtd: &Dtd, entity: u32)
    requires { IsTrue (is_number_of dtd.now entity) }
    ensures { DefinesInto dtd.now (reference_placed entity) O.taken O.faults sink.old pen.old sink.new pen.new }
{
    let name = entity_name(dtd, entity);
    define_entity(pen, sink, dtd, name);
    put_name_line(&mut pen.held, sink, b'&', name);
}

/// The lines of an event that is neither data nor a tag, what they name before them.
pub(crate) fn put_lines<O: Sink>(pen: &mut Pen, sink: &mut O, dtd: &Dtd, event: &Event)
    requires of { IsTrue (is_event_of dtd.now event.now) }
    requires other { is_other event.now ≡ true }
    ensures { DefinesInto dtd.now (event_placed event.now) O.taken O.faults sink.old pen.old sink.new pen.new }
{
    match event {
        Event::Pi { text, .. } => put_text_line(&mut pen.held, sink, b'?', text.items()),
        Event::DataRef { entity } => put_reference(pen, sink, dtd, *entity),
        Event::Start { .. } => {}
        Event::End { .. } => {}
        Event::Chars(_) => {}
    }
}
