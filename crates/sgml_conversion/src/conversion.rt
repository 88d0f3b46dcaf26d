// A document as its lines.
ghost use Rattle.std.specs.Prelude.{◌≡◌, ◌<◌, length, Ok, Err, None, IfOk, OnOk, OnErr, IfSome, false};
ghost use Rattle.sgml_io.specs.Files.{Finds};
ghost use Rattle.sgml_io.specs.Causes.{HasCause, Rose};
ghost use Rattle.sgml_conversion.specs.Converting.{ConvertsOver};
ghost use Rattle.sgml_source.specs.parse.Parsing.{is_in_instance, is_out_of_memory};
ghost use Rattle.sgml_source.specs.Feeding.{IsGoing};
ghost use Rattle.sgml_conversion.specs.Beginning.{ConvertsFoundBy, ConvertsBy};
ghost use Rattle.sgml_conversion.specs.Ending.{IsOutcomeOf};

use crate::answer::{Ending, Failure, Outcome};
use crate::beginning::read_prolog;
use crate::instance::read_instance;
use crate::writing::{end_lines, write_early};
use sgml_io::{Sink, Store, StoreError};
use sgml_source::{Options, Parser, Phase, Source};
use sgml_steps::Steps;
use sgml_syntax::Syntax;
use sgml_text::Memory;
use std::alloc::Global;
use std::sync::Arc;
use std::sync::ledger::Ledger;

/// Reads the document whose file is `options.base` from a store, in pieces of so many bytes at most, and writes its lines to a
/// sink. It and the texts that it opens have at most `limit` bytes each: a longer document is cut there. `declaration` is the syntax
/// of the SGML declaration that a catalog names, where it names one (TR9401).
pub fn convert<S: Store, O: Sink, L: Ledger>(
    alloc: Global,
    options: Arc<Options>,
    declaration: Option<Syntax>,
    store: &mut S,
    limit: usize,
    piece: usize,
    out: &mut O,
    steps: &mut Steps<L>,
) -> Result<Outcome, Failure>
    requires { 0 < piece }
    ensures converts { ConvertsOver limit (S.files store.old) options.value declaration (O.taken out.old) (O.taken out.new) result }
    ensures store { HasCause Failure.Store (S.faults store.old) (S.faults store.new) result }
    ensures sink { HasCause Failure.Sink (O.faults out.old) (O.faults out.new) result }
    ensures absent { result ≡ Ok Outcome.Absent → Rose (S.absents store.old) (S.absents store.new) }
{
    let found = match find(store, options.base.items()) {
        Ok(found) => found,
        Err(failure) => return Err(failure),
    };
    match found {
        Some(id) => convert_found(
            alloc,
            options,
            declaration,
            store,
            id,
            limit,
            piece,
            out,
            steps,
        ),
        None => Ok(Outcome::Absent),
    }
}

/// The id of the document's file.
pub(crate) fn find<S: Store>(store: &mut S, name: &[u8]) -> Result<Option<u32>, Failure>
    ensures found { IfOk result (λ found. Finds (S.files store.old) name.now (S.left store.new) found) }
    ensures given { IfOk result (λ found. IfSome found (S.given store.new)) }
    ensures files { S.files store.new ≡ S.files store.old }
    ensures absent { IfOk result (λ found. found ≡ None → Rose (S.absents store.old) (S.absents store.new)) }
    ensures store { HasCause Failure.Store (S.faults store.old) (S.faults store.new) result }
    ensures sink { result ≡ Err Failure.Sink → ⊥ }
{
    match store.find(name) {
        Ok(found) => Ok(found),
        Err(StoreError::Fault) => Err(Failure::Store),
        Err(StoreError::Memory) => Err(Failure::Memory),
    }
}

/// Converts the document of this id, of which nothing was read.
fn convert_found<S: Store, O: Sink, L: Ledger>(
    alloc: Global,
    options: Arc<Options>,
    declaration: Option<Syntax>,
    store: &mut S,
    id: u32,
    limit: usize,
    piece: usize,
    out: &mut O,
    steps: &mut Steps<L>,
) -> Result<Outcome, Failure>
    requires piece { 0 < piece }
    requires given { S.given store.old id }
    ensures converts { ConvertsFoundBy S.files S.left O.taken limit options.value declaration store.old id out.old out.new result }
    ensures store { HasCause Failure.Store (S.faults store.old) (S.faults store.new) result }
    ensures sink { HasCause Failure.Sink (O.faults out.old) (O.faults out.new) result }
    ensures there { result ≡ Ok Outcome.Absent → ⊥ }
{
    let Ok(mut buffer) = empty_buffer(alloc, piece) else {
        return Err(Failure::Memory);
    };
    let Ok(mut parser) = Parser::begin(alloc, options, declaration) else {
        return Err(Failure::Memory);
    };
    let mut source = Source {
        id,
        fed: 0,
        phase: Phase::Going,
        limit,
    };
    let ending = match convert_from(
        alloc,
        store,
        &mut source,
        &mut parser,
        &mut buffer,
        steps,
        out,
    ) {
        Ok(ending) => ending,
        Err(failure) => return Err(failure),
    };
    outcome_of(alloc, &parser, ending)
}

/// The answer, with the position of a refusal.
pub(crate) fn outcome_of(alloc: Global, parser: &Parser, ending: Ending) -> Result<Outcome, Failure>
    requires usable { is_out_of_memory parser.now.failed ≡ false }
    ensures outcome { IfOk result (IsOutcomeOf parser.now ending) }
    ensures memory { OnErr result (result ≡ Err Failure.Memory) }
    ensures conforming { ending ≡ Ending.Conforming → OnErr result ⊥ }
    ensures there { result ≡ Ok Outcome.Absent → ⊥ }
{
    let refusal = match ending {
        Ending::Conforming => return Ok(Outcome::Conforming),
        Ending::Refused(refusal) => refusal,
    };
    match parser.locate(alloc, refusal.place) {
        Ok(Some(position)) => Ok(Outcome::Refused(refusal, position)),
        // The place of a refusal is in a text that was given, of which a proof is owed.
        Ok(None) => Err(Failure::Memory),
        Err(_) => Err(Failure::Memory),
    }
}

pub(crate) fn empty_buffer(alloc: Global, piece: usize) -> Result<Vec<u8>, Memory>
    ensures { IfOk result (λ buffer. length buffer.items ≡ piece) }
{
    Ok(vec![in alloc; 0u8; piece]?)
}

/// Converts a document of which nothing was read.
fn convert_from<S: Store, O: Sink, L: Ledger>(
    alloc: Global,
    store: &mut S,
    source: &mut Source,
    parser: &mut Parser,
    buffer: &mut [u8],
    steps: &mut Steps<L>,
    out: &mut O,
) -> Result<Ending, Failure>
    requires given { S.given store.old source.old.id }
    requires going { IsGoing source.old parser.old }
    requires prolog { is_in_instance parser.old.reading ≡ false }
    requires room { 0 < length buffer.old }
    ensures converts { ConvertsBy S.files S.left O.taken store.old source.old parser.old parser.new out.old out.new result }
    ensures store { HasCause Failure.Store (S.faults store.old) (S.faults store.new) result }
    ensures sink { HasCause Failure.Sink (O.faults out.old) (O.faults out.new) result }
    ensures usable { OnOk result (is_out_of_memory parser.new.failed ≡ false) }
{
    let mut early = Vec::new(alloc);
    let refused = match read_prolog(alloc, store, source, parser, buffer, steps, &mut early) {
        Ok(refused) => refused,
        Err(failure) => return Err(failure),
    };
    let (mut writer, mut idents) = match write_early(alloc, parser.dtd(), &early, out) {
        Ok(made) => made,
        Err(failure) => return Err(failure),
    };
    match refused {
        Some(refusal) => end_lines(&mut writer, Ending::Refused(refusal), out),
        None => read_instance(
            alloc,
            store,
            source,
            parser,
            buffer,
            steps,
            &mut writer,
            &mut idents,
            out,
        ),
    }
}
