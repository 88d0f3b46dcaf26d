// A full document.
ghost use Rattle.std.specs.Prelude.{◌≡◌, IfSome, None, true, false};
ghost use Rattle.std.specs.List.{list_all};
ghost use Rattle.sgml_io.specs.Causes.{CountsFault, HasCause};
ghost use Rattle.sgml_io.specs.Writes.{Writes};
ghost use Rattle.sgml_said.specs.Told.{all_said};
ghost use Rattle.sgml_full.specs.Full.{full_document};
ghost use Rattle.sgml_full.specs.Events.{is_spelled, IsFirstUnspelled};
ghost use Rattle.sgml_full.specs.Spelled.{is_paired};
ghost use Rattle.sgml_full.specs.Writing.{WritesFullInto};

use crate::events::put_events;
use sgml_dtd::Dtd;
use sgml_esis::{Held, flush, put};
use sgml_events::Event;
use sgml_io::{Sink, SinkFault};

/// Why a full document wasn't written whole.
#[derive(Clone, Copy, Debug, PartialEq, Eq)]
pub enum FullError {
    /// The sink failed. It has a front of the document.
    SinkFault,
    /// The event of this number, counted from 0, is a processing instruction with a record end that no text of a file has:
    /// RE without RS after it, or RS without RE before it. Nothing was written.
    PiNotSpelled { index: usize },
}

/// Writes a document in which every tag stands, and every attribute that has a value: the prolog as it was given, the events of
/// the instance, and a line feed.
pub fn write_full<O: Sink>(
    prolog: &[u8],
    dtd: &Dtd,
    events: &[Event],
    sink: &mut O,
) -> Result<(), FullError>
    ensures writes { WritesFullInto prolog.now dtd.now events.now O.taken O.faults sink.old sink.new result }
    ensures cause { HasCause FullError.SinkFault (O.faults sink.old) (O.faults sink.new) result }
{
    if let Some(index) = first_unspelled(events) {
        return Err(FullError::PiNotSpelled { index });
    }
    match write_spelled(prolog, dtd, events, sink) {
        Ok(()) => Ok(()),
        Err(_) => Err(FullError::SinkFault),
    }
}

// The same, whether each event can be spelled or not.
fn write_spelled<O: Sink>(
    prolog: &[u8],
    dtd: &Dtd,
    events: &[Event],
    sink: &mut O,
) -> Result<(), SinkFault>
    ensures bytes { Writes (O.taken sink.old) (O.taken sink.new) result (full_document prolog.now dtd.now (all_said dtd.now events.now)) }
    ensures cause { CountsFault (O.faults sink.old) (O.faults sink.new) result }
{
    let mut held = Held::new();
    put(&mut held, sink, prolog);
    put_events(&mut held, sink, dtd, events);
    put(&mut held, sink, b"\n");
    flush(&mut held, sink);
    if held.failed() {
        return Err(SinkFault);
    }
    Ok(())
}

// RS stands exactly where RE stands before it, and RE doesn't stand last.
fn is_paired(text: &[u8]) -> bool
    ensures { result ≡ is_paired false text.now }
{
    let mut after_end = false;
    for b in text {
        if (*b == 10) != after_end {
            return false;
        }
        after_end = *b == 13;
    }
    !after_end
}

fn is_spelled(event: &Event) -> bool
    ensures { result ≡ is_spelled event.now }
{
    match event {
        Event::Pi { text, entity, .. } => entity.is_some() || is_paired(text.items()),
        Event::Start { .. } => true,
        Event::End { .. } => true,
        Event::Chars(_) => true,
        Event::DataRef { .. } => true,
    }
}

// The number of the first event that can't be spelled.
fn first_unspelled(events: &[Event]) -> Option<usize>
    ensures some { IfSome result (IsFirstUnspelled events.now) }
    ensures none { result ≡ None → list_all is_spelled events.now ≡ true }
{
    for (index, event) in events.iter().enumerate() {
        if !is_spelled(event) {
            return Some(index);
        }
    }
    None
}
