// Writing events.
ghost use Rattle.std.specs.Prelude.{◌≡◌, List, [], Option, Ok, Err, Some, IfOk, OnOk, OnErr, IfSome, IsSome, true};
ghost use Rattle.sgml_io.specs.Causes.{HasCause};
ghost use Rattle.sgml_dtd.specs.Doctypes.{Doctype};
ghost use Rattle.sgml_events.specs.declared.event.Event.{Event as Event_};
ghost use Rattle.sgml_said.specs.Told.{all_said};
ghost use Rattle.sgml_idents.specs.Judged.{HasNoted};
ghost use Rattle.sgml_event_lines.specs.Standing.{EndsLines};
ghost use Rattle.sgml_conversion.specs.Lines.{AppendsSome};
ghost use Rattle.sgml_conversion.specs.Writing.{IsJudgedBy, is_conforming, ending_of, TakesEventInto, TakesInto, StandSince, FaultIsCounted, FinishesInto, FinishesByCause, EndsByFault};

use crate::answer::{Ending, Failure};
use sgml_dtd::Dtd;
use sgml_event_lines::{Writer, is_event_of};
use sgml_events::Event;
use sgml_idents::{IdError, Idents};
use sgml_io::Sink;
use sgml_said::start_definitions;
use sgml_text::{Reason, Refusal};
use std::alloc::Global;

/// Notes the identifiers of events and writes their lines, one event after another.
pub(crate) fn take_events<O: Sink>(
    writer: &mut Writer,
    idents: &mut Idents,
    dtd: &Dtd,
    events: &[Event],
    out: &mut O,
) -> Result<(), Failure>
    ensures takes { TakesInto O.taken O.faults out.old writer.old idents.old out.new writer.new idents.new dtd.now events.now result }
    ensures cause { FaultIsCounted dtd.now O.taken O.faults out.old writer.old idents.old out.new result }
    ensures store { result ≡ Err Failure.Store → ⊥ }
{
    for event in events {
        match take_event(writer, idents, dtd, event, out) {
            Ok(()) => {}
            Err(failure) => return Err(failure),
        }
    }
    Ok(())
}

/// Notes the identifiers of an event, and writes its lines.
#[inline(always)]
fn take_event<O: Sink>(
    writer: &mut Writer,
    idents: &mut Idents,
    dtd: &Dtd,
    event: &Event,
    out: &mut O,
) -> Result<(), Failure>
    ensures takes { TakesEventInto O.taken O.faults out.old writer.old idents.old out.new writer.new idents.new dtd.now event.now result }
    ensures cause { FaultIsCounted dtd.now O.taken O.faults out.old writer.old idents.old out.new result }
    ensures store { result ≡ Err Failure.Store → ⊥ }
{
    // A parser tells no event that isn't of its document type. That isn't proved yet, so it is tested here.
    if !is_event_of(dtd, event) {
        return Err(Failure::Memory);
    }
    let definitions = start_definitions(dtd, event);
    match idents.note_defined(definitions, event) {
        Ok(()) => {}
        Err(_) => return Err(Failure::Memory),
    }
    match writer.write_defined(dtd, definitions, event, out) {
        Ok(()) => Ok(()),
        Err(_) => Err(Failure::Sink),
    }
}

/// The same, where the list is empty afterwards.
pub(crate) fn take_told<O: Sink>(
    writer: &mut Writer,
    idents: &mut Idents,
    dtd: &Dtd,
    told: &mut Vec<Event>,
    out: &mut O,
) -> Result<(), Failure>
    ensures takes { TakesInto O.taken O.faults out.old writer.old idents.old out.new writer.new idents.new dtd.now told.old.items result }
    ensures cause { FaultIsCounted dtd.now O.taken O.faults out.old writer.old idents.old out.new result }
    ensures store { result ≡ Err Failure.Store → ⊥ }
    ensures none { OnOk result (told.new.items ≡ []) }
{
    match take_events(writer, idents, dtd, told, out) {
        Ok(()) => {
            told.clear();
            Ok(())
        }
        Err(failure) => Err(failure),
    }
}

/// A writer that has written these events, and their identifiers.
pub(crate) fn write_early<O: Sink>(
    alloc: Global,
    dtd: &Dtd,
    early: &[Event],
    out: &mut O,
) -> Result<(Writer, Idents), Failure>
    ensures ok { IfOk result (λ made. StandSince O.taken O.faults out.old out.new made dtd.now early.now) }
    ensures err { OnErr result (AppendsSome (O.taken out.old) (O.taken out.new) dtd.now (all_said dtd.now early.now)) }
    ensures cause { HasCause Failure.Sink (O.faults out.old) (O.faults out.new) result }
    ensures store { result ≡ Err Failure.Store → ⊥ }
{
    let Ok(mut writer) = Writer::begin(alloc, dtd) else {
        return Err(Failure::Memory);
    };
    let mut idents = Idents::new(alloc);
    match take_events(&mut writer, &mut idents, dtd, early, out) {
        Ok(()) => Ok((writer, idents)),
        Err(failure) => Err(failure),
    }
}

/// Ends the lines of a document that was read to its end.
pub(crate) fn finish<O: Sink>(
    writer: &mut Writer,
    idents: &Idents,
    out: &mut O,
) -> Result<Ending, Failure>
    ensures finishes { FinishesInto O.taken O.faults out.old writer.old idents.now out.new result }
    ensures cause { FinishesByCause O.taken O.faults out.old writer.old idents.now out.new result }
    ensures store { result ≡ Err Failure.Store → ⊥ }
{
    match judged(idents) {
        Some(outcome) => end_lines(writer, outcome, out),
        // what was noted is judged
        None => Err(Failure::Memory),
    }
}

/// What is answered of a document that was read to its end.
fn judged(idents: &Idents) -> Option<Ending>
    ensures judged { (d : Doctype) (es : List Event_) → HasNoted idents.now d es → IfSome result (IsJudgedBy d es) }
    ensures some { (d : Doctype) (es : List Event_) → HasNoted idents.now d es → IsSome result }
{
    ending_of(idents.judge())
}

/// The same of the answer of identifiers, unless no memory was there for it.
pub(crate) fn ending_of(judged: Result<(), IdError>) -> Option<Ending>
    ensures { result ≡ ending_of judged }
{
    match judged {
        Ok(()) => Some(Ending::Conforming),
        Err(IdError::Repeated(place)) => Some(Ending::Refused(Refusal {
            place,
            reason: Reason::Repeated,
        })),
        Err(IdError::Dangling(place)) => Some(Ending::Refused(Refusal {
            place,
            reason: Reason::Dangling,
        })),
        Err(IdError::Memory) => None,
    }
}

/// Ends the lines with this outcome.
pub(crate) fn end_lines<O: Sink>(
    writer: &mut Writer,
    outcome: Ending,
    out: &mut O,
) -> Result<Ending, Failure>
    ensures lines { EndsLines (is_conforming outcome) O.taken O.faults out.old writer.old out.new result }
    ensures outcome { IfOk result (λ o. o ≡ outcome) }
    ensures cause { EndsByFault O.taken O.faults out.old writer.old out.new result }
    ensures store { result ≡ Err Failure.Store → ⊥ }
{
    match writer.finish(is_conforming(outcome), out) {
        Ok(()) => Ok(outcome),
        Err(_) => Err(Failure::Sink),
    }
}

fn is_conforming(outcome: Ending) -> bool
    ensures { result ≡ is_conforming outcome }
{
    match outcome {
        Ending::Conforming => true,
        Ending::Refused(_) => false,
    }
}
