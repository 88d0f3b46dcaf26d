// The instance of a document.
ghost use Rattle.std.specs.Prelude.{◌≡◌, ◌<◌, ℕ, [], Option, length, Err, Ok, Some, IfOk, OnOk, true, false, None};
ghost use Rattle.sgml_io.specs.Causes.{HasCause};
ghost use Rattle.sgml_source.specs.parse.Parsing.{doctype_in, is_in_instance, is_out_of_memory};
ghost use Rattle.sgml_source.specs.Feeding.{IsGoing};
ghost use Rattle.sgml_conversion.specs.Writing.{FaultIsCounted};
ghost use Rattle.sgml_conversion.specs.Showing.{EndsInstance, TurnsInstance};

use crate::answer::{Ending, Failure, failure_of};
use crate::writing::{end_lines, finish, take_told};
use sgml_event_lines::Writer;
use sgml_events::Event;
use sgml_idents::Idents;
use sgml_io::{Sink, Store};
use sgml_source::{Parser, Paused, Source, told_many};
use sgml_steps::Steps;
use std::alloc::Global;
use std::sync::ledger::Ledger;

/// Writes the lines of what is told of the instance, up to its end or to where reading stops.
pub(crate) fn read_instance<S: Store, O: Sink, L: Ledger>(
    alloc: Global,
    store: &mut S,
    source: &mut Source,
    parser: &mut Parser,
    buffer: &mut [u8],
    steps: &mut Steps<L>,
    writer: &mut Writer,
    idents: &mut Idents,
    out: &mut O,
) -> Result<Ending, Failure>
    requires given { S.given store.old source.old.id }
    requires going { IsGoing source.old parser.old }
    requires room { 0 < length buffer.old }
    requires instance { is_in_instance parser.old.reading ≡ true }
    ensures ends { EndsInstance S.files S.left O.taken O.faults store.old source.old parser.old out.old writer.old idents.old parser.new out.new result }
    ensures store { HasCause Failure.Store (S.faults store.old) (S.faults store.new) result }
    ensures sink { FaultIsCounted (doctype_in parser.old.reading) O.taken O.faults out.old writer.old idents.old out.new result }
    ensures usable { OnOk result (is_out_of_memory parser.new.failed ≡ false) }
{
    let mut told = Vec::new(alloc);
    'instance: for _ in 0..u64::MAX {
        let answer = match turn(
            alloc, store, source, parser, buffer, steps, &mut told, writer, idents, out,
        ) {
            Ok(answer) => answer,
            Err(failure) => return Err(failure),
        };
        match answer {
            Some(outcome) => return Ok(outcome),
            None => {}
        }
    }
    Err(Failure::Memory)
}

/// The events that are told next, written. Their list is used again.
fn turn<S: Store, O: Sink, L: Ledger>(
    alloc: Global,
    store: &mut S,
    source: &mut Source,
    parser: &mut Parser,
    buffer: &mut [u8],
    steps: &mut Steps<L>,
    told: &mut Vec<Event>,
    writer: &mut Writer,
    idents: &mut Idents,
    out: &mut O,
) -> Result<Option<Ending>, Failure>
    requires given { S.given store.old source.old.id }
    requires going { IsGoing source.old parser.old }
    requires room { 0 < length buffer.old }
    requires instance { is_in_instance parser.old.reading ≡ true }
    requires none { told.old.items ≡ [] }
    ensures turns { TurnsInstance S.files S.left O.taken O.faults store.old source.old parser.old out.old writer.old idents.old store.new source.new parser.new out.new writer.new idents.new result }
    ensures none { OnOk result (told.new.items ≡ []) }
    ensures going { IfOk result (λ answer. answer ≡ None → IsGoing source.new parser.new) }
    ensures instance { OnOk result (is_in_instance parser.new.reading ≡ true) }
    ensures usable { OnOk result (is_out_of_memory parser.new.failed ≡ false) }
    ensures id { source.new.id ≡ source.old.id }
    ensures given { (id : ℕ) → S.given store.old id → S.given store.new id }
    ensures files { S.files store.new ≡ S.files store.old }
    ensures room { length buffer.new ≡ length buffer.old }
    ensures store { HasCause Failure.Store (S.faults store.old) (S.faults store.new) result }
    ensures sink { FaultIsCounted (doctype_in parser.old.reading) O.taken O.faults out.old writer.old idents.old out.new result }
{
    let paused = match told_many(alloc, store, source, parser, buffer, steps, told) {
        Ok(paused) => paused,
        Err(error) => return Err(failure_of(error)),
    };
    match take_told(writer, idents, parser.dtd(), told, out) {
        Ok(()) => {}
        Err(failure) => return Err(failure),
    }
    match paused {
        Paused::Going => Ok(None),
        Paused::Finished => match finish(writer, idents, out) {
            Ok(outcome) => Ok(Some(outcome)),
            Err(failure) => Err(failure),
        },
        Paused::Refused(refusal) => match end_lines(writer, Ending::Refused(refusal), out) {
            Ok(outcome) => Ok(Some(outcome)),
            Err(failure) => Err(failure),
        },
    }
}
