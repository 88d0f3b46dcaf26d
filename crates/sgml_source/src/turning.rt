// Reading on up to what is told next.
ghost use Rattle.std.specs.Prelude.{◌≡◌, ◌<◌, ℕ, length, IfOk, OnOk, Some, Err, false};
ghost use Rattle.sgml_io.specs.Causes.{HasCause};
ghost use Rattle.sgml_parse.specs.Parsing.{is_out_of_memory};
ghost use Rattle.sgml_source.specs.Feeding.{IsGoing, StaysThere};
ghost use Rattle.sgml_source.specs.Turning.{TurnsBy, ReadsMoreBy, GoesOverAt, IsAllSuppliedAt, TellsInstructionsAt, KeepsTables, is_last, refused_told};

use crate::error::SourceError;
use crate::source::{Phase, Source, feed_pieces};
use crate::supplying::{supply_from, supply_rest};
use crate::told::Told;
use sgml_io::Store;
use sgml_parse::{ParseError, ParseStep, Parser};
use sgml_steps::Steps;
use sgml_text::{Reason, Refusal};
use std::alloc::Global;
use std::sync::ledger::Ledger;

/// Reads on up to what is told next. The parser is fed what the store has of the document where that decides it, and is given
/// the texts that it wants, and before the prolog is told all others that are declared. Each time that nothing is told, it is fed twice as many pieces, so that what isn't decided yet, as a long
/// comment, isn't looked at once for each piece.
pub fn told_next<S: Store, L: Ledger>(
    alloc: Global,
    store: &mut S,
    source: &mut Source,
    parser: &mut Parser,
    buffer: &mut [u8],
    steps: &mut Steps<L>,
) -> Result<Told, SourceError>
    requires given { S.given store.old source.old.id }
    requires going { IsGoing source.old parser.old }
    requires room { 0 < length buffer.old }
    ensures turns { IfOk result (λ told. TurnsBy S.files S.left store.old source.old parser.old store.new source.new parser.new (Some told)) }
    ensures going { IfOk result (λ told. is_last (Some told) ≡ false → IsGoing source.new parser.new) }
    ensures usable { OnOk result (is_out_of_memory parser.new.failed ≡ false) }
    ensures over { IfOk result (λ told. GoesOverAt parser.old.reading parser.new.reading (Some told)) }
    ensures all { IfOk result (λ told. IsAllSuppliedAt parser.new (Some told)) }
    ensures early { IfOk result (λ told. TellsInstructionsAt parser.old.reading (Some told)) }
    ensures tables { OnOk result (KeepsTables parser.old.reading parser.new.reading) }
    ensures id { source.new.id ≡ source.old.id }
    ensures given { (id : ℕ) → S.given store.old id → S.given store.new id }
    ensures files { S.files store.new ≡ S.files store.old }
    ensures cause { HasCause SourceError.Store (S.faults store.old) (S.faults store.new) result }
    ensures room { length buffer.new ≡ length buffer.old }
{
    let mut pieces = 1u32;
    'turns: for _ in 0..u64::MAX {
        let answer = match turn(alloc, store, source, parser, buffer, pieces, steps) {
            Ok(answer) => answer,
            Err(failure) => return Err(failure),
        };
        match answer {
            Some(told) => return Ok(told),
            None => pieces = pieces.saturating_mul(2),
        }
    }
    Err(SourceError::Memory)
}

/// One answer of the parser, and what it asks for: of the document so many pieces.
fn turn<S: Store, L: Ledger>(
    alloc: Global,
    store: &mut S,
    source: &mut Source,
    parser: &mut Parser,
    buffer: &mut [u8],
    pieces: u32,
    steps: &mut Steps<L>,
) -> Result<Option<Told>, SourceError>
    requires given { S.given store.old source.old.id }
    requires going { IsGoing source.old parser.old }
    requires room { 0 < length buffer.old }
    ensures turns { IfOk result (λ answer. TurnsBy S.files S.left store.old source.old parser.old store.new source.new parser.new answer) }
    ensures going { IfOk result (λ answer. is_last answer ≡ false → IsGoing source.new parser.new) }
    ensures usable { OnOk result (is_out_of_memory parser.new.failed ≡ false) }
    ensures over { IfOk result (λ answer. GoesOverAt parser.old.reading parser.new.reading answer) }
    ensures all { IfOk result (λ answer. IsAllSuppliedAt parser.new answer) }
    ensures early { IfOk result (λ answer. TellsInstructionsAt parser.old.reading answer) }
    ensures tables { OnOk result (KeepsTables parser.old.reading parser.new.reading) }
    ensures id { source.new.id ≡ source.old.id }
    ensures given { (id : ℕ) → S.given store.old id → S.given store.new id }
    ensures files { S.files store.new ≡ S.files store.old }
    ensures cause { HasCause SourceError.Store (S.faults store.old) (S.faults store.new) result }
    ensures room { length buffer.new ≡ length buffer.old }
{
    let step = match parser.next(steps) {
        Ok(step) => step,
        Err(error) => {
            return match error {
                ParseError::Refused(refusal) => Ok(Some(Told::Refused(refusal))),
                ParseError::Memory => Err(SourceError::Memory),
            };
        }
    };
    match step {
        ParseStep::Event(event) => Ok(Some(Told::Event(event))),
        ParseStep::Prolog => match supply_rest(alloc, store, source.limit, parser) {
            Ok(()) => Ok(Some(Told::Prolog)),
            Err(failure) => Err(failure),
        },
        ParseStep::Finished => Ok(Some(Told::Finished)),
        ParseStep::Want { entity, name } => {
            match supply_from(alloc, store, source.limit, parser, entity, &name) {
                Ok(()) => Ok(None),
                Err(failure) => Err(failure),
            }
        }
        ParseStep::More => match read_more(store, source, parser, buffer, pieces) {
            Ok(refused) => Ok(refused_told(refused)),
            Err(failure) => Err(failure),
        },
    }
}

fn refused_told(refused: Option<Refusal>) -> Option<Told>
    ensures { result ≡ refused_told refused }
{
    match refused {
        Some(refusal) => Some(Told::Refused(refusal)),
        None => None,
    }
}

/// Reads more of the document, unless it was cut: then it is too large where the next piece isn't decided.
pub(crate) fn read_more<S: Store>(
    store: &mut S,
    source: &mut Source,
    parser: &mut Parser,
    buffer: &mut [u8],
    pieces: u32,
) -> Result<Option<Refusal>, SourceError>
    requires given { S.given store.old source.old.id }
    requires going { IsGoing source.old parser.old }
    requires room { 0 < length buffer.old }
    ensures more { ReadsMoreBy S.files S.left store.old source.old parser.old store.new source.new parser.new result }
    ensures going { OnOk result (IsGoing source.new parser.new) }
    ensures there { OnOk result (StaysThere parser.old parser.new) }
    ensures id { source.new.id ≡ source.old.id }
    ensures given { (id : ℕ) → S.given store.old id → S.given store.new id }
    ensures files { S.files store.new ≡ S.files store.old }
    ensures cause { HasCause SourceError.Store (S.faults store.old) (S.faults store.new) result }
    ensures room { length buffer.new ≡ length buffer.old }
{
    match source.phase {
        Phase::Going => match feed_pieces(store, source, parser, buffer, pieces) {
            Ok(()) => Ok(None),
            Err(failure) => Err(failure),
        },
        Phase::Cut => Ok(Some(Refusal {
            place: parser.place(),
            reason: Reason::EntityTooLarge,
        })),
        // of a whole document more isn't asked for
        Phase::Whole => Err(SourceError::Memory),
    }
}
