// The lines of events.
ghost use Rattle.std.specs.Prelude.{◌≡◌, length, IsTrue};
ghost use Rattle.std.specs.List.{list_all};
ghost use Rattle.sgml_event_lines.specs.Marks.{is_event_of};

use crate::events::event;
use crate::writing::put_lines as put_written;
use sgml_attr::Currents;
use sgml_dtd::Dtd;
use sgml_entity::Texts;
use sgml_event_lines::{
    EventsError, are_events_of, lines_are_read_back, lines_are_those_of_reading, write_events,
};
use sgml_events::Event;
use sgml_io::MemorySink;
use sgml_text::Memory;
use sgml_trials::put;
use std::alloc::Global;

fn push_event(
    alloc: Global,
    dtd: &Dtd,
    texts: &mut Texts,
    currents: &mut Currents,
    spelled: &[u8],
    events: &mut Vec<Event>,
) -> Result<(), Memory>
    requires lists { length currents.old ≡ length dtd.now.lists }
    ensures lists { length currents.new ≡ length dtd.now.lists }
{
    if let Some(event) = event(alloc, dtd, texts, currents, spelled)? {
        events.push(event)?;
    }
    Ok(())
}

fn push_events(
    alloc: Global,
    dtd: &Dtd,
    texts: &mut Texts,
    currents: &mut Currents,
    spelled: &[u8],
    events: &mut Vec<Event>,
) -> Result<(), Memory>
    requires lists { length currents.old ≡ length dtd.now.lists }
    ensures lists { length currents.new ≡ length dtd.now.lists }
{
    for one in spelled.split(|b| *b == b'\t') {
        push_event(alloc, dtd, texts, currents, one, events)?;
    }
    Ok(())
}

/// The events that are spelled between TABs.
pub fn events_of(
    alloc: Global,
    dtd: &Dtd,
    texts: &mut Texts,
    spelled: &[u8],
) -> Result<Vec<Event>, Memory> {
    let mut events = Vec::new(alloc);
    let mut currents = Currents::new(alloc, dtd.lists())?;
    push_events(alloc, dtd, texts, &mut currents, spelled, &mut events)?;
    Ok(events)
}

fn told(answer: Result<(), EventsError>) -> &'static str {
    match answer {
        Ok(()) => "",
        Err(EventsError::Fault) => "fault ",
        Err(EventsError::Memory) => "no memory ",
    }
}

// How the lines of events are written.
#[derive(Clone, Copy)]
pub struct Writing {
    pub conforming: bool,
    /// How many bytes the sink takes.
    pub room: usize,
}

fn put_written_lines(
    alloc: Global,
    dtd: &Dtd,
    events: &[Event],
    writing: Writing,
    out: &mut Vec<u8>,
) -> Result<(), Memory> {
    lines_are_those_of_reading();
    lines_are_read_back();
    if !are_events_of(dtd, events) {
        return put(out, "an undeclared notation");
    }
    let mut sink = MemorySink::new(alloc, writing.room, Vec::new(alloc))?;
    let answer = write_events(alloc, dtd, events, writing.conforming, &mut sink);
    put(out, told(answer))?;
    put_written(out, &sink.bytes)
}

/// The lines of these events, with ` / ` in the place of each LF.
pub fn answer_lines(
    alloc: Global,
    dtd: &Dtd,
    texts: &mut Texts,
    spelled: &[u8],
    writing: Writing,
    out: &mut Vec<u8>,
) -> Result<(), Memory> {
    let events = events_of(alloc, dtd, texts, spelled)?;
    put_written_lines(alloc, dtd, &events, writing, out)
}

// What a sink has that fails at its write of this number, and whether there was none.
fn written_until(
    alloc: Global,
    dtd: &Dtd,
    events: &[Event],
    call: u64,
) -> Result<(Vec<u8>, bool), Memory>
    requires { IsTrue (list_all (is_event_of dtd.now) events.now) }
{
    let mut failing = Vec::new(alloc);
    failing.push(call)?;
    let mut sink = MemorySink::new(alloc, 100_000, failing)?;
    let is_whole = write_events(alloc, dtd, events, true, &mut sink).is_ok();
    Ok((sink.bytes, is_whole))
}

/// Whether a sink that fails at one of its writes has a front of the lines, whichever it is.
pub fn answer_failing(
    alloc: Global,
    dtd: &Dtd,
    texts: &mut Texts,
    spelled: &[u8],
    out: &mut Vec<u8>,
) -> Result<(), Memory> {
    let events = events_of(alloc, dtd, texts, spelled)?;
    if !are_events_of(dtd, &events) {
        return put(out, "an undeclared notation");
    }
    let (whole, _) = written_until(alloc, dtd, &events, 0)?;
    for call in 1..1000u64 {
        let (front, is_whole) = written_until(alloc, dtd, &events, call)?;
        if !whole.starts_with(&front) {
            return put(out, "no front");
        }
        if is_whole {
            return put(out, if call == 1 { "no write" } else { "fronts" });
        }
    }
    put(out, "no end")
}
