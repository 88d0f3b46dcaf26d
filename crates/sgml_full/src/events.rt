// Events, each as it is spelled where it stands.
ghost use Rattle.std.specs.Prelude.{◌≡◌};
ghost use Rattle.sgml_esis.specs.Writing.{PutsInto};
ghost use Rattle.sgml_full.specs.declared.inside.Inside.TheVariants as inside;
ghost use Rattle.sgml_said.specs.Told.{name_at};
ghost use Rattle.sgml_full.specs.Full.{ending, instruction_by};
ghost use Rattle.sgml_full.specs.Events.{data_in, spelled_event, after_event, spelled_events};

use crate::inside::{Inside, after_data, inside_after};
use crate::spelling::{put_entity_reference, put_instruction, put_raw_stretch, put_stretch};
use crate::tags::{put_end_tag, put_start_tag};
use sgml_dtd::Dtd;
use sgml_esis::{Held, put};
use sgml_events::{Event, Stretch};
use sgml_io::Sink;
use sgml_text::Text;

fn put_ending<O: Sink>(held: &mut Held, sink: &mut O, dtd: &Dtd, inside: Inside, element: u32)
    ensures { PutsInto O.taken O.faults sink.old held.old sink.new held.new (ending inside (name_at dtd.now element)) }
{
    match inside {
        Inside::Nothing => {}
        Inside::Lines => {
            put(held, sink, &[10]);
            put_end_tag(held, sink, dtd, element);
        }
        Inside::Mixed => put_end_tag(held, sink, dtd, element),
        Inside::Characters => put_end_tag(held, sink, dtd, element),
    }
}

// The first data of CDATA content.
fn put_first_line<O: Sink>(held: &mut Held, sink: &mut O, dtd: &Dtd, stretch: &Stretch)
    ensures { PutsInto O.taken O.faults sink.old held.old sink.new held.new (data_in dtd.now inside.Characters stretch.now) }
{
    if stretch.is_empty() {
        return;
    }
    put(held, sink, &[10]);
    put_raw_stretch(held, sink, dtd, stretch);
}

fn put_data<O: Sink>(held: &mut Held, sink: &mut O, dtd: &Dtd, inside: Inside, stretch: &Stretch)
    ensures { PutsInto O.taken O.faults sink.old held.old sink.new held.new (data_in dtd.now inside stretch.now) }
{
    match inside {
        Inside::Characters => put_first_line(held, sink, dtd, stretch),
        Inside::Lines => put_raw_stretch(held, sink, dtd, stretch),
        Inside::Mixed => put_stretch(held, sink, dtd, stretch),
        Inside::Nothing => put_stretch(held, sink, dtd, stretch),
    }
}

fn put_pi<O: Sink>(held: &mut Held, sink: &mut O, dtd: &Dtd, text: &Text, entity: &Option<u32>)
    ensures { PutsInto O.taken O.faults sink.old held.old sink.new held.new (instruction_by dtd.now text.now entity.now) }
{
    match entity {
        Some(entity) => put_entity_reference(held, sink, dtd, *entity),
        None => put_instruction(held, sink, text.items()),
    }
}

fn put_event<O: Sink>(held: &mut Held, sink: &mut O, dtd: &Dtd, inside: Inside, event: &Event)
    ensures { PutsInto O.taken O.faults sink.old held.old sink.new held.new (spelled_event dtd.now inside event.now) }
{
    match event {
        Event::Start {
            element,
            values,
            ..
        } => put_start_tag(held, sink, dtd, *element, values.items()),
        Event::End { element } => put_ending(held, sink, dtd, inside, *element),
        Event::Chars(stretch) => put_data(held, sink, dtd, inside, stretch),
        Event::Pi { text, entity, .. } => put_pi(held, sink, dtd, text, entity),
        Event::DataRef { entity } => put_entity_reference(held, sink, dtd, *entity),
    }
}

fn after_event(dtd: &Dtd, inside: Inside, event: &Event) -> Inside
    ensures { result ≡ after_event dtd.now inside event.now }
{
    match event {
        Event::Start {
            element,
            values,
            ..
        } => inside_after(dtd, *element, values.items()),
        Event::End { .. } => Inside::Mixed,
        Event::Chars(stretch) => after_data(inside, stretch),
        Event::Pi { .. } => inside,
        Event::DataRef { .. } => inside,
    }
}

/// Events one after another, outside all elements at first.
pub(crate) fn put_events<O: Sink>(held: &mut Held, sink: &mut O, dtd: &Dtd, events: &[Event])
    ensures { PutsInto O.taken O.faults sink.old held.old sink.new held.new (spelled_events dtd.now inside.Mixed events.now) }
{
    let mut inside = Inside::Mixed;
    for event in events {
        put_event(held, sink, dtd, inside, event);
        inside = after_event(dtd, inside, event);
    }
}
