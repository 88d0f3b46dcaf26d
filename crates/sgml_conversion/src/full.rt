// A document with all its tags.
ghost use Rattle.std.specs.Prelude.{◌≡◌, ◌<◌, Ok, Err, IfSome, false, length, slice_get};
ghost use Rattle.sgml_io.specs.Causes.{HasCause, Rose};
ghost use Rattle.sgml_source.specs.parse.Parsing.{is_in_instance};
ghost use Rattle.sgml_source.specs.Feeding.{IsGoing};
ghost use Rattle.sgml_conversion.specs.Documents.{source_of};
ghost use Rattle.sgml_conversion.specs.Full.{ConvertsFullOver};
ghost use Rattle.sgml_conversion.specs.Telling.{FullFedFrom, FullFoundIn, WritesDocument, WritesRead, IsAtPlace};

use crate::answer::{Ending, Failure, Outcome};
use crate::conversion::{empty_buffer, find, outcome_of};
use crate::document::{parser_of, read_document};
use crate::whole::{WholeRead, read_whole};
use sgml_dtd::Dtd;
use sgml_events::Event;
use sgml_full::{FullError, write_full};
use sgml_io::{Sink, Store};
use sgml_source::{Options, Parser, Phase, Source};
use sgml_steps::Steps;
use sgml_storage::stored;
use sgml_syntax::Syntax;
use sgml_text::{Place, Reason, Refusal};
use std::alloc::Global;
use std::sync::Arc;
use std::sync::ledger::Ledger;

/// Reads the document whose file is `options.base` from a store, in pieces of so many bytes at most, and, where it conforms and
/// each instruction can be spelled, writes it to a sink with every tag and every value that isn't implied. It and the texts that it
/// opens have at most `limit` bytes each: a longer document is cut there. `declaration` is the syntax of the SGML declaration that a
/// catalog names, where it names one (TR9401).
pub fn convert_full<S: Store, O: Sink, L: Ledger>(
    alloc: Global,
    options: Arc<Options>,
    declaration: Option<Syntax>,
    store: &mut S,
    limit: usize,
    piece: usize,
    out: &mut O,
    steps: &mut Steps<L>,
) -> Result<Outcome, Failure>
    requires { 0 < piece }
    ensures converts { ConvertsFullOver limit (S.files store.old) options.value declaration (O.taken out.old) (O.taken out.new) result }
    ensures store { HasCause Failure.Store (S.faults store.old) (S.faults store.new) result }
    ensures sink { HasCause Failure.Sink (O.faults out.old) (O.faults out.new) result }
    ensures absent { result ≡ Ok Outcome.Absent → Rose (S.absents store.old) (S.absents store.new) }
{
    let found = match find(store, options.base.items()) {
        Ok(found) => found,
        Err(failure) => return Err(failure),
    };
    match found {
        Some(id) => full_found(
            alloc,
            options,
            declaration,
            store,
            id,
            limit,
            piece,
            out,
            steps,
        ),
        None => Ok(Outcome::Absent),
    }
}

/// The same of the document of this id, of which nothing was read.
fn full_found<S: Store, O: Sink, L: Ledger>(
    alloc: Global,
    options: Arc<Options>,
    declaration: Option<Syntax>,
    store: &mut S,
    id: u32,
    limit: usize,
    piece: usize,
    out: &mut O,
    steps: &mut Steps<L>,
) -> Result<Outcome, Failure>
    requires piece { 0 < piece }
    requires given { S.given store.old id }
    ensures converts { FullFoundIn limit options.value declaration id S.files S.left store.old O.taken out.old out.new result }
    ensures store { HasCause Failure.Store (S.faults store.old) (S.faults store.new) result }
    ensures sink { HasCause Failure.Sink (O.faults out.old) (O.faults out.new) result }
    ensures there { result ≡ Ok Outcome.Absent → ⊥ }
{
    let Ok(mut buffer) = empty_buffer(alloc, piece) else {
        return Err(Failure::Memory);
    };
    let mut bytes = Vec::new(alloc);
    let phase = match read_document(store, id, limit, &mut buffer, &mut bytes) {
        Ok(phase) => phase,
        Err(failure) => return Err(failure),
    };
    let Ok(mut parser) = parser_of(alloc, options, declaration, &bytes, phase) else {
        return Err(Failure::Memory);
    };
    full_fed(
        alloc,
        store,
        id,
        limit,
        phase,
        &bytes,
        &mut parser,
        &mut buffer,
        out,
        steps,
    )
}

/// The same of what was read of its file, which the parser was fed.
fn full_fed<S: Store, O: Sink, L: Ledger>(
    alloc: Global,
    store: &mut S,
    id: u32,
    limit: usize,
    phase: Phase,
    bytes: &[u8],
    parser: &mut Parser,
    buffer: &mut [u8],
    out: &mut O,
    steps: &mut Steps<L>,
) -> Result<Outcome, Failure>
    requires given { S.given store.old id }
    requires going { IsGoing (source_of limit id bytes.now phase) parser.old }
    requires prolog { is_in_instance parser.old.reading ≡ false }
    requires room { 0 < length buffer.old }
    ensures converts { FullFedFrom limit id bytes.now phase parser.old S.files S.left store.old O.taken out.old out.new result }
    ensures store { HasCause Failure.Store (S.faults store.old) (S.faults store.new) result }
    ensures sink { HasCause Failure.Sink (O.faults out.old) (O.faults out.new) result }
    ensures there { result ≡ Ok Outcome.Absent → ⊥ }
{
    let mut source = Source {
        id,
        fed: bytes.len(),
        phase,
        limit,
    };
    let mut events = Vec::new(alloc);
    let read = match read_whole(
        alloc,
        store,
        &mut source,
        parser,
        buffer,
        steps,
        &mut events,
    ) {
        Ok(read) => read,
        Err(failure) => return Err(failure),
    };
    let ending = match write_read(alloc, bytes, parser.dtd(), &events, read, out) {
        Ok(ending) => ending,
        Err(failure) => return Err(failure),
    };
    outcome_of(alloc, parser, ending)
}

/// Writes a document that was read so.
fn write_read<O: Sink>(
    alloc: Global,
    bytes: &[u8],
    dtd: &Dtd,
    events: &[Event],
    read: WholeRead,
    out: &mut O,
) -> Result<Ending, Failure>
    ensures writes { WritesRead bytes.now dtd.now events.now (O.taken out.old) (O.taken out.new) read result }
    ensures sink { HasCause Failure.Sink (O.faults out.old) (O.faults out.new) result }
    ensures store { result ≡ Err Failure.Store → ⊥ }
{
    match read {
        WholeRead::Refused(refusal) => Ok(Ending::Refused(refusal)),
        WholeRead::Whole { from, at } => match events.get(from..) {
            Some(rest) => write_document(alloc, bytes, at, dtd, rest, out),
            None => Err(Failure::Memory),
        },
    }
}

/// Writes the full document after a prolog of so many bytes of the text, with these events.
fn write_document<O: Sink>(
    alloc: Global,
    bytes: &[u8],
    at: u64,
    dtd: &Dtd,
    events: &[Event],
    out: &mut O,
) -> Result<Ending, Failure>
    ensures writes { WritesDocument bytes.now at dtd.now events.now (O.taken out.old) (O.taken out.new) result }
    ensures sink { HasCause Failure.Sink (O.faults out.old) (O.faults out.new) result }
    ensures store { result ≡ Err Failure.Store → ⊥ }
{
    let count = match stored(alloc, bytes, at) {
        Ok(Some(count)) => count,
        // the prolog is in the text of these bytes
        Ok(None) => return Err(Failure::Memory),
        Err(_) => return Err(Failure::Memory),
    };
    match write_full(&bytes[..count], dtd, events, out) {
        Ok(()) => Ok(Ending::Conforming),
        Err(FullError::SinkFault) => Err(Failure::Sink),
        Err(FullError::PiNotSpelled { index }) => match unspelled(events, index) {
            Some(refusal) => Ok(Ending::Refused(refusal)),
            None => Err(Failure::Memory),
        },
    }
}

/// The refusal of the instruction of this number.
fn unspelled(events: &[Event], index: usize) -> Option<Refusal>
    ensures { IfSome result (λ refusal. IsAtPlace (slice_get events.now index) refusal.place × (refusal.reason ≡ Reason.PiNotSpelled)) }
{
    match events.get(index) {
        Some(Event::Pi { place, .. }) => Some(Refusal {
            place: *place,
            reason: Reason::PiNotSpelled,
        }),
        _ => None,
    }
}
