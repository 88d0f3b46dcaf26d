// The document in its store, and what the parser was fed of it.
ghost use Rattle.std.specs.Prelude.{◌≡◌, ◌+◌, ◌<◌, ◌≤◌, ℕ, length, OnOk, Err, true, false};
ghost use Rattle.sgml_io.specs.Causes.{HasCause};
ghost use Rattle.sgml_source.specs.declared.source.Phase.TheVariants.{Going, Whole};
ghost use Rattle.sgml_source.specs.Feeding.{IsGoing, StaysThere, FeedsPiece, EndsThere, FeedsOn};

use crate::error::SourceError;
use sgml_io::{Store, StoreError};
use sgml_parse::Parser;

/// No text has more storage bytes, where no other limit is set.
pub const MOST_BYTES: u64 = 268_435_456;

/// How much is known of the end of a document.
#[derive(Clone, Copy, Debug, PartialEq, Eq)]
pub enum Phase {
    /// More may be left in the store.
    Going,
    /// The parser was told that it is whole.
    Whole,
    /// More is left than the limit lets.
    Cut,
}

/// The document: its id in the store, how many of its bytes were fed, and how many bytes it, and each text, may have.
#[derive(Clone, Copy, Debug)]
pub struct Source {
    pub id: u32,
    pub fed: usize,
    pub phase: Phase,
    pub limit: usize,
}

/// Feeds the parser so many pieces of the document, or what is left of it.
pub(crate) fn feed_pieces<S: Store>(
    store: &mut S,
    source: &mut Source,
    parser: &mut Parser,
    buffer: &mut [u8],
    pieces: u32,
) -> Result<(), SourceError>
    requires given { S.given store.old source.old.id }
    requires going { IsGoing source.old parser.old }
    requires room { 0 < length buffer.old }
    ensures fed { OnOk result (FeedsOn (S.left store.old) source.old parser.old (S.left store.new) source.new parser.new) }
    ensures there { OnOk result (StaysThere parser.old parser.new) }
    ensures going { OnOk result (IsGoing source.new parser.new) }
    ensures id { source.new.id ≡ source.old.id }
    ensures given { (id : ℕ) → S.given store.old id → S.given store.new id }
    ensures files { S.files store.new ≡ S.files store.old }
    ensures cause { HasCause SourceError.Store (S.faults store.old) (S.faults store.new) result }
    ensures room { length buffer.new ≡ length buffer.old }
{
    'pieces: for _ in 0..pieces {
        match source.phase {
            Phase::Going => match feed_more(store, source, parser, buffer) {
                Ok(()) => {}
                Err(failure) => return Err(failure),
            },
            Phase::Whole | Phase::Cut => return Ok(()),
        }
    }
    Ok(())
}

/// Feeds the parser what the store gives next of the document, or tells it that it is whole. Past the limit nothing is fed.
fn feed_more<S: Store>(
    store: &mut S,
    source: &mut Source,
    parser: &mut Parser,
    buffer: &mut [u8],
) -> Result<(), SourceError>
    requires given { S.given store.old source.old.id }
    requires phase { source.old.phase ≡ Going }
    requires going { IsGoing source.old parser.old }
    requires room { 0 < length buffer.old }
    ensures fed { OnOk result (FeedsOn (S.left store.old) source.old parser.old (S.left store.new) source.new parser.new) }
    ensures there { OnOk result (StaysThere parser.old parser.new) }
    ensures going { OnOk result (IsGoing source.new parser.new) }
    ensures id { source.new.id ≡ source.old.id }
    ensures given { (id : ℕ) → S.given store.old id → S.given store.new id }
    ensures files { S.files store.new ≡ S.files store.old }
    ensures cause { HasCause SourceError.Store (S.faults store.old) (S.faults store.new) result }
    ensures room { length buffer.new ≡ length buffer.old }
{
    let room = source.limit - source.fed;
    let wanted = wanted(room, buffer.len());
    let count = match store.read(source.id, &mut buffer[..wanted]) {
        Ok(count) => count,
        Err(StoreError::Fault) => return Err(SourceError::Store),
        Err(StoreError::Memory) => return Err(SourceError::Memory),
    };
    if count == 0 {
        return end_document(source, parser);
    }
    if room == 0 {
        source.phase = Phase::Cut;
        return Ok(());
    }
    feed_piece(source, parser, &buffer[..count])
}

/// How many bytes are read next: where there is no room, one, which tells whether more is left.
fn wanted(room: usize, len: usize) -> usize
    requires { 0 < len }
    ensures some { 0 < result }
    ensures len { result ≤ len }
    ensures room { 0 < room → result ≤ room }
{
    if room == 0 {
        return 1;
    }
    room.min(len)
}

fn feed_piece(source: &mut Source, parser: &mut Parser, piece: &[u8]) -> Result<(), SourceError>
    requires going { parser.old.ended ≡ false }
    requires room { source.old.fed + length piece.now ≤ source.old.limit }
    ensures fed { OnOk result (FeedsPiece source.old.limit source.old.fed parser.old piece.now source.new.fed parser.new) }
    ensures count { OnOk result (source.new.fed ≡ source.old.fed + length piece.now) }
    ensures phase { source.new.phase ≡ source.old.phase }
    ensures id { source.new.id ≡ source.old.id }
    ensures limit { source.new.limit ≡ source.old.limit }
    ensures there { OnOk result (StaysThere parser.old parser.new) }
    ensures ended { OnOk result (parser.new.ended ≡ false) }
    ensures err { result ≡ Err SourceError.Store → ⊥ }
{
    match parser.feed(piece) {
        Ok(()) => {}
        Err(_) => return Err(SourceError::Memory),
    }
    source.fed += piece.len();
    Ok(())
}

fn end_document(source: &mut Source, parser: &mut Parser) -> Result<(), SourceError>
    requires going { parser.old.ended ≡ false }
    ensures ends { OnOk result (EndsThere source.old.limit source.old.fed parser.old parser.new) }
    ensures count { source.new.fed ≡ source.old.fed }
    ensures phase { OnOk result (source.new.phase ≡ Whole) }
    ensures id { source.new.id ≡ source.old.id }
    ensures limit { source.new.limit ≡ source.old.limit }
    ensures there { OnOk result (StaysThere parser.old parser.new) }
    ensures ended { OnOk result (parser.new.ended ≡ true) }
    ensures err { result ≡ Err SourceError.Store → ⊥ }
{
    match parser.end() {
        Ok(()) => {}
        Err(_) => return Err(SourceError::Memory),
    }
    source.phase = Phase::Whole;
    Ok(())
}
