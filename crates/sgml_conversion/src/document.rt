// A document that is read whole before it is parsed.
ghost use Rattle.std.specs.Prelude.{◌≡◌, ◌<◌, ◌≤◌, ℕ, [], length, Err, IfOk, OnOk, false};
ghost use Rattle.sgml_io.specs.Causes.{HasCause};
ghost use Rattle.sgml_source.specs.declared.source.Phase.TheVariants.{Going};
ghost use Rattle.sgml_source.specs.parse.Parsing.{is_in_instance};
ghost use Rattle.sgml_source.specs.Feeding.{IsGoing};
ghost use Rattle.sgml_conversion.specs.Documents.{IsFedWhole, source_of, ReadsFile};

use crate::answer::Failure;
use sgml_io::{Store, StoreError};
use sgml_source::{Options, Parser, Phase};
use sgml_syntax::Syntax;
use sgml_text::Memory;
use std::alloc::Global;
use std::sync::Arc;

/// Keeps the storage bytes of a document, up to the limit, and tells whether more is left.
pub(crate) fn read_document<S: Store>(
    store: &mut S,
    id: u32,
    limit: usize,
    buffer: &mut [u8],
    bytes: &mut Vec<u8>,
) -> Result<Phase, Failure>
    requires given { S.given store.old id }
    requires room { 0 < length buffer.old }
    requires none { bytes.old.items ≡ [] }
    ensures read { IfOk result (ReadsFile limit (S.left store.old id) [] (S.left store.new id) bytes.new.items) }
    ensures ended { IfOk result (λ phase. phase ≡ Going → ⊥) }
    ensures within { OnOk result (length bytes.new.items ≤ limit) }
    ensures given { (other : ℕ) → S.given store.old other → S.given store.new other }
    ensures files { S.files store.new ≡ S.files store.old }
    ensures cause { HasCause Failure.Store (S.faults store.old) (S.faults store.new) result }
    ensures sink { result ≡ Err Failure.Sink → ⊥ }
    ensures room { length buffer.new ≡ length buffer.old }
{
    'pieces: for _ in 0..u64::MAX {
        let phase = match read_piece(store, id, limit, buffer, bytes) {
            Ok(phase) => phase,
            Err(failure) => return Err(failure),
        };
        match phase {
            Phase::Going => {}
            Phase::Whole => return Ok(Phase::Whole),
            Phase::Cut => return Ok(Phase::Cut),
        }
    }
    Err(Failure::Memory)
}

/// Keeps what the store gives next. Past the limit nothing is kept.
fn read_piece<S: Store>(
    store: &mut S,
    id: u32,
    limit: usize,
    buffer: &mut [u8],
    bytes: &mut Vec<u8>,
) -> Result<Phase, Failure>
    requires given { S.given store.old id }
    requires room { 0 < length buffer.old }
    requires within { length bytes.old.items ≤ limit }
    ensures read { IfOk result (ReadsFile limit (S.left store.old id) bytes.old.items (S.left store.new id) bytes.new.items) }
    ensures within { OnOk result (length bytes.new.items ≤ limit) }
    ensures given { (other : ℕ) → S.given store.old other → S.given store.new other }
    ensures files { S.files store.new ≡ S.files store.old }
    ensures cause { HasCause Failure.Store (S.faults store.old) (S.faults store.new) result }
    ensures sink { result ≡ Err Failure.Sink → ⊥ }
    ensures room { length buffer.new ≡ length buffer.old }
{
    let room = limit - bytes.len();
    let wanted = wanted(room, buffer.len());
    let count = match store.read(id, &mut buffer[..wanted]) {
        Ok(count) => count,
        Err(StoreError::Fault) => return Err(Failure::Store),
        Err(StoreError::Memory) => return Err(Failure::Memory),
    };
    if count == 0 {
        return Ok(Phase::Whole);
    }
    if room == 0 {
        return Ok(Phase::Cut);
    }
    match bytes.extend_from_slice(&buffer[..count]) {
        Ok(()) => Ok(Phase::Going),
        Err(_) => Err(Failure::Memory),
    }
}

/// How many bytes are read next: where there is no room, one, which tells whether more is left.
fn wanted(room: usize, len: usize) -> usize
    requires { 0 < len }
    ensures some { 0 < result }
    ensures len { result ≤ len }
    ensures room { 0 < room → result ≤ room }
{
    if room == 0 {
        return 1;
    }
    room.min(len)
}

/// A parser that was fed a document that was read so.
pub(crate) fn parser_of(
    alloc: Global,
    options: Arc<Options>,
    declaration: Option<Syntax>,
    bytes: &[u8],
    phase: Phase,
) -> Result<Parser, Memory>
    ensures fed { IfOk result (λ parser. IsFedWhole options.value declaration bytes.now phase parser) }
    ensures going { IfOk result (λ parser. (limit id : ℕ) → length bytes.now ≤ limit → IsGoing (source_of limit id bytes.now phase) parser) }
    ensures prolog { IfOk result (λ parser. is_in_instance parser.reading ≡ false) }
{
    let mut parser = Parser::begin(alloc, options, declaration)?;
    match parser.feed(bytes) {
        Ok(()) => {}
        Err(_) => return Err(Memory),
    }
    match phase {
        Phase::Whole => match parser.end() {
            Ok(()) => Ok(parser),
            Err(_) => Err(Memory),
        },
        Phase::Going => Ok(parser),
        Phase::Cut => Ok(parser),
    }
}
