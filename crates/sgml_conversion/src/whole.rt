// Reading a document to its end before anything is written.
ghost use Rattle.std.specs.Prelude.{◌≡◌, ◌<◌, ℕ, [], length, Err, Ok, IfOk, OnOk, OnErr, true, false};
ghost use Rattle.sgml_io.specs.Causes.{HasCause};
ghost use Rattle.sgml_source.specs.parse.Parsing.{doctype_in, is_in_instance, is_out_of_memory};
ghost use Rattle.sgml_source.specs.Feeding.{IsGoing};
ghost use Rattle.sgml_conversion.specs.Writing.{IsJudgedBy};
ghost use Rattle.sgml_conversion.specs.Telling.{ReadsToEnd, HasMore, RestReadsBy, TellsRest, Tells};
ghost use Rattle.sgml_source.specs.declared.told.Paused.TheVariants.{Going};

use crate::answer::{Ending, Failure, failure_of};
use crate::beginning::read_prolog;
use crate::writing::ending_of;
use sgml_dtd::Dtd;
use sgml_events::Event;
use sgml_idents::check_ids;
use sgml_io::Store;
use sgml_source::{Parser, Paused, Source, told_many};
use sgml_steps::Steps;
use sgml_text::Refusal;
use std::alloc::Global;
use std::sync::ledger::Ledger;

/// How a document was read.
#[derive(Clone, Copy, Debug, PartialEq, Eq)]
pub(crate) enum WholeRead {
    /// To its end, and its identifiers agree. The events after its prolog begin at `from`, and the prolog has `at` bytes of the
    /// document's text.
    Whole { from: usize, at: u64 },
    Refused(Refusal),
}

/// Reads a document of which nothing was read, and keeps its events.
pub(crate) fn read_whole<S: Store, L: Ledger>(
    alloc: Global,
    store: &mut S,
    source: &mut Source,
    parser: &mut Parser,
    buffer: &mut [u8],
    steps: &mut Steps<L>,
    events: &mut Vec<Event>,
) -> Result<WholeRead, Failure>
    requires given { S.given store.old source.old.id }
    requires going { IsGoing source.old parser.old }
    requires prolog { is_in_instance parser.old.reading ≡ false }
    requires room { 0 < length buffer.old }
    requires none { events.old.items ≡ [] }
    ensures reads { IfOk result (ReadsToEnd (S.files store.old) (S.left store.old) source.old parser.old parser.new events.new.items) }
    ensures usable { OnOk result (is_out_of_memory parser.new.failed ≡ false) }
    ensures cause { HasCause Failure.Store (S.faults store.old) (S.faults store.new) result }
    ensures sink { result ≡ Err Failure.Sink → ⊥ }
{
    let refused = match read_prolog(alloc, store, source, parser, buffer, steps, events) {
        Ok(refused) => refused,
        Err(failure) => return Err(failure),
    };
    match refused {
        Some(refusal) => Ok(WholeRead::Refused(refusal)),
        None => read_rest(alloc, store, source, parser, buffer, steps, events),
    }
}

/// The same where the prolog has been read, and nothing of the instance.
fn read_rest<S: Store, L: Ledger>(
    alloc: Global,
    store: &mut S,
    source: &mut Source,
    parser: &mut Parser,
    buffer: &mut [u8],
    steps: &mut Steps<L>,
    events: &mut Vec<Event>,
) -> Result<WholeRead, Failure>
    requires given { S.given store.old source.old.id }
    requires going { IsGoing source.old parser.old }
    requires instance { is_in_instance parser.old.reading ≡ true }
    requires usable { is_out_of_memory parser.old.failed ≡ false }
    requires room { 0 < length buffer.old }
    ensures reads { IfOk result (RestReadsBy S.files S.left store.old source.old parser.old events.old.items parser.new events.new.items) }
    ensures usable { OnOk result (is_out_of_memory parser.new.failed ≡ false) }
    ensures cause { HasCause Failure.Store (S.faults store.old) (S.faults store.new) result }
    ensures sink { result ≡ Err Failure.Sink → ⊥ }
{
    let at = parser.place().at;
    let from = events.len();
    let refused = match read_all(alloc, store, source, parser, buffer, steps, events) {
        Ok(refused) => refused,
        Err(failure) => return Err(failure),
    };
    match refused {
        Some(refusal) => Ok(WholeRead::Refused(refusal)),
        None => match judged(alloc, parser.dtd(), events) {
            Ok(Ending::Conforming) => Ok(WholeRead::Whole { from, at }),
            Ok(Ending::Refused(refusal)) => Ok(WholeRead::Refused(refusal)),
            Err(failure) => Err(failure),
        },
    }
}

/// What is answered of a document that was read to its end, by the identifiers of its events.
fn judged(alloc: Global, dtd: &Dtd, events: &[Event]) -> Result<Ending, Failure>
    ensures judged { IfOk result (IsJudgedBy dtd.now events.now) }
    ensures memory { OnErr result (result ≡ Err Failure.Memory) }
{
    match ending_of(check_ids(alloc, dtd, events)) {
        Some(ending) => Ok(ending),
        None => Err(Failure::Memory),
    }
}

/// Keeps what is told of the instance, up to its end or to where reading stops.
fn read_all<S: Store, L: Ledger>(
    alloc: Global,
    store: &mut S,
    source: &mut Source,
    parser: &mut Parser,
    buffer: &mut [u8],
    steps: &mut Steps<L>,
    events: &mut Vec<Event>,
) -> Result<Option<Refusal>, Failure>
    requires given { S.given store.old source.old.id }
    requires going { IsGoing source.old parser.old }
    requires instance { is_in_instance parser.old.reading ≡ true }
    requires room { 0 < length buffer.old }
    ensures more { OnOk result (HasMore events.old.items events.new.items) }
    ensures tables { OnOk result (doctype_in parser.new.reading ≡ doctype_in parser.old.reading) }
    ensures tells { TellsRest S.files S.left store.old source.old parser.old events.old.items parser.new events.new.items result }
    ensures usable { OnOk result (is_out_of_memory parser.new.failed ≡ false) }
    ensures cause { HasCause Failure.Store (S.faults store.old) (S.faults store.new) result }
    ensures sink { result ≡ Err Failure.Sink → ⊥ }
{
    'instance: for _ in 0..u64::MAX {
        let paused = match take_turn(alloc, store, source, parser, buffer, steps, events) {
            Ok(paused) => paused,
            Err(failure) => return Err(failure),
        };
        match paused {
            Paused::Going => {}
            Paused::Finished => return Ok(None),
            Paused::Refused(refusal) => return Ok(Some(refusal)),
        }
    }
    Err(Failure::Memory)
}

/// The events that are told next, kept behind those before.
fn take_turn<S: Store, L: Ledger>(
    alloc: Global,
    store: &mut S,
    source: &mut Source,
    parser: &mut Parser,
    buffer: &mut [u8],
    steps: &mut Steps<L>,
    events: &mut Vec<Event>,
) -> Result<Paused, Failure>
    requires given { S.given store.old source.old.id }
    requires going { IsGoing source.old parser.old }
    requires instance { is_in_instance parser.old.reading ≡ true }
    requires room { 0 < length buffer.old }
    ensures more { OnOk result (HasMore events.old.items events.new.items) }
    ensures turns { Tells S.files S.left store.old source.old parser.old events.old.items store.new source.new parser.new events.new.items result }
    ensures going { IfOk result (λ paused. paused ≡ Going → IsGoing source.new parser.new) }
    ensures instance { OnOk result (is_in_instance parser.new.reading ≡ true) }
    ensures tables { OnOk result (doctype_in parser.new.reading ≡ doctype_in parser.old.reading) }
    ensures usable { OnOk result (is_out_of_memory parser.new.failed ≡ false) }
    ensures id { source.new.id ≡ source.old.id }
    ensures given { (id : ℕ) → S.given store.old id → S.given store.new id }
    ensures files { S.files store.new ≡ S.files store.old }
    ensures room { length buffer.new ≡ length buffer.old }
    ensures cause { HasCause Failure.Store (S.faults store.old) (S.faults store.new) result }
    ensures sink { result ≡ Err Failure.Sink → ⊥ }
{
    let mut told = Vec::new(alloc);
    let paused = match told_many(alloc, store, source, parser, buffer, steps, &mut told) {
        Ok(paused) => paused,
        Err(error) => return Err(failure_of(error)),
    };
    match events.append(&mut told) {
        Ok(()) => Ok(paused),
        Err(_) => Err(Failure::Memory),
    }
}
