// Reading on up to many events.
ghost use Rattle.std.specs.Prelude.{◌≡◌, ◌<◌, ℕ, [], length, IfOk, OnOk, None, Err, true, false};
ghost use Rattle.sgml_io.specs.Causes.{HasCause};
ghost use Rattle.sgml_parse.specs.Parsing.{doctype_in, is_in_instance, is_out_of_memory};
ghost use Rattle.sgml_source.specs.Feeding.{IsGoing};
ghost use Rattle.sgml_source.specs.Turning.{TellsBy, is_last, told_at, told_then, paused_then};

use crate::error::SourceError;
use crate::source::Source;
use crate::supplying::supply_from;
use crate::told::Paused;
use crate::turning::read_more;
use sgml_events::Event;
use sgml_io::Store;
use sgml_parse::{ParseError, ParsePause, Parser};
use sgml_steps::Steps;
use sgml_text::Refusal;
use std::alloc::Global;
use std::sync::ledger::Ledger;

/// Reads on in the instance as `told_next` does, up to where several events are told, which are appended. Those before the end
/// and before a refusal stand there too.
pub fn told_many<S: Store, L: Ledger>(
    alloc: Global,
    store: &mut S,
    source: &mut Source,
    parser: &mut Parser,
    buffer: &mut [u8],
    steps: &mut Steps<L>,
    told: &mut Vec<Event>,
) -> Result<Paused, SourceError>
    requires given { S.given store.old source.old.id }
    requires going { IsGoing source.old parser.old }
    requires instance { is_in_instance parser.old.reading ≡ true }
    requires room { 0 < length buffer.old }
    requires none { told.old.items ≡ [] }
    ensures turns { TellsBy told_at S.files S.left store.old source.old parser.old store.new source.new parser.new told.new.items result }
    ensures going { IfOk result (λ paused. is_last (told_at paused) ≡ false → IsGoing source.new parser.new) }
    ensures usable { OnOk result (is_out_of_memory parser.new.failed ≡ false) }
    ensures instance { OnOk result (is_in_instance parser.new.reading ≡ true) }
    ensures tables { OnOk result (doctype_in parser.new.reading ≡ doctype_in parser.old.reading) }
    ensures id { source.new.id ≡ source.old.id }
    ensures given { (id : ℕ) → S.given store.old id → S.given store.new id }
    ensures files { S.files store.new ≡ S.files store.old }
    ensures cause { HasCause SourceError.Store (S.faults store.old) (S.faults store.new) result }
    ensures room { length buffer.new ≡ length buffer.old }
{
    let mut pieces = 1u32;
    'turns: for _ in 0..u64::MAX {
        let answer = match turn(alloc, store, source, parser, buffer, pieces, steps, told) {
            Ok(answer) => answer,
            Err(failure) => return Err(failure),
        };
        match answer {
            Some(paused) => return Ok(paused),
            None => pieces = pieces.saturating_mul(2),
        }
    }
    Err(SourceError::Memory)
}

/// One answer of the parser, and what it asks for: of the document so many pieces.
#[tactic(auto, using(crate::proofs::Many::tables_kept, crate::proofs::Many::none_paused))]
fn turn<S: Store, L: Ledger>(
    alloc: Global,
    store: &mut S,
    source: &mut Source,
    parser: &mut Parser,
    buffer: &mut [u8],
    pieces: u32,
    steps: &mut Steps<L>,
    told: &mut Vec<Event>,
) -> Result<Option<Paused>, SourceError>
    requires given { S.given store.old source.old.id }
    requires going { IsGoing source.old parser.old }
    requires instance { is_in_instance parser.old.reading ≡ true }
    requires room { 0 < length buffer.old }
    requires none { told.old.items ≡ [] }
    ensures turns { TellsBy told_then S.files S.left store.old source.old parser.old store.new source.new parser.new told.new.items result }
    ensures none { IfOk result (λ answer. answer ≡ None → told.new.items ≡ []) }
    ensures going { IfOk result (λ answer. is_last (told_then answer) ≡ false → IsGoing source.new parser.new) }
    ensures usable { OnOk result (is_out_of_memory parser.new.failed ≡ false) }
    ensures instance { OnOk result (is_in_instance parser.new.reading ≡ true) }
    ensures tables { OnOk result (doctype_in parser.new.reading ≡ doctype_in parser.old.reading) }
    ensures id { source.new.id ≡ source.old.id }
    ensures given { (id : ℕ) → S.given store.old id → S.given store.new id }
    ensures files { S.files store.new ≡ S.files store.old }
    ensures cause { HasCause SourceError.Store (S.faults store.old) (S.faults store.new) result }
    ensures room { length buffer.new ≡ length buffer.old }
{
    let pause = match parser.read(steps, told) {
        Ok(pause) => pause,
        Err(error) => {
            return match error {
                ParseError::Refused(refusal) => Ok(Some(Paused::Refused(refusal))),
                ParseError::Memory => Err(SourceError::Memory),
            };
        }
    };
    match pause {
        ParsePause::Going => Ok(Some(Paused::Going)),
        ParsePause::Finished => Ok(Some(Paused::Finished)),
        // the instance has begun
        ParsePause::Prolog => unreachable!(),
        ParsePause::Want { entity, name } => {
            match supply_from(alloc, store, source.limit, parser, entity, &name) {
                Ok(()) => Ok(paused_then(None, told)),
                Err(failure) => Err(failure),
            }
        }
        ParsePause::More => match read_more(store, source, parser, buffer, pieces) {
            Ok(refused) => Ok(paused_then(refused, told)),
            Err(failure) => Err(failure),
        },
    }
}

/// Where reading pauses once these events were told and what was asked for was given, or reading stops there. Where none were
/// told it goes on.
fn paused_then(refused: Option<Refusal>, told: &[Event]) -> Option<Paused>
    ensures { result ≡ paused_then refused told.now }
{
    match refused {
        Some(refusal) => Some(Paused::Refused(refusal)),
        None => match told {
            [] => None,
            _ => Some(Paused::Going),
        },
    }
}
