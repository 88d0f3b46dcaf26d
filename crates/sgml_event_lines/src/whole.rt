// All events at once.
ghost use Rattle.std.specs.Prelude.{IsTrue};
ghost use Rattle.std.specs.List.{list_all};
ghost use Rattle.sgml_event_lines.specs.Marks.{is_event_of};
ghost use Rattle.sgml_event_lines.specs.Whole.{WritesAllInto};

use crate::writer::Writer;
use sgml_dtd::Dtd;
use sgml_events::Event;
use sgml_io::{Sink, SinkFault};
use sgml_text::Memory;
use std::alloc::Global;

/// Why not all lines were written.
#[derive(Clone, Copy, Debug, PartialEq, Eq)]
pub enum EventsError {
    /// The sink failed. It has a front of the lines.
    Fault,
    /// Nothing was written.
    Memory,
}

/// Writes the lines of all events, with `C` exactly where the document conforms.
pub fn write_events<O: Sink>(
    alloc: Global,
    dtd: &Dtd,
    events: &[Event],
    conforming: bool,
    sink: &mut O,
) -> Result<(), EventsError>
    requires { IsTrue (list_all (is_event_of dtd.now) events.now) }
    ensures { WritesAllInto dtd.now events.now conforming O.taken O.faults sink.old sink.new result }
{
    let Ok(mut writer) = Writer::begin(alloc, dtd) else {
        return Err(EventsError::Memory);
    };
    for event in events {
        match writer.write(dtd, event, sink) {
            Ok(()) => {}
            Err(_) => return Err(EventsError::Fault),
        }
    }
    match writer.finish(conforming, sink) {
        Ok(()) => Ok(()),
        Err(_) => Err(EventsError::Fault),
    }
}
