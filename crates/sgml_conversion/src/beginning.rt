// The prolog of a document.
ghost use Rattle.std.specs.Prelude.{◌≡◌, ◌<◌, ℕ, [], length, Err, IfOk, OnOk, OnErr, true, false, None};
ghost use Rattle.std.specs.List.{list_all};
ghost use Rattle.sgml_io.specs.Causes.{HasCause};
ghost use Rattle.sgml_source.specs.parse.Parsing.{is_in_instance, is_instruction, is_out_of_memory};
ghost use Rattle.sgml_source.specs.Feeding.{IsGoing};
ghost use Rattle.sgml_conversion.specs.Beginning.{IsNoted, PrologReadsBy};

use crate::answer::{Failure, failure_of};
use sgml_events::Event;
use sgml_io::Store;
use sgml_source::{Parser, Source, Told, told_next};
use sgml_steps::Steps;
use sgml_text::Refusal;
use std::alloc::Global;
use std::sync::ledger::Ledger;

/// Keeps what is told of the prolog, up to where the instance begins, or tells why reading stops before.
pub(crate) fn read_prolog<S: Store, L: Ledger>(
    alloc: Global,
    store: &mut S,
    source: &mut Source,
    parser: &mut Parser,
    buffer: &mut [u8],
    steps: &mut Steps<L>,
    early: &mut Vec<Event>,
) -> Result<Option<Refusal>, Failure>
    requires given { S.given store.old source.old.id }
    requires going { IsGoing source.old parser.old }
    requires room { 0 < length buffer.old }
    requires none { early.old.items ≡ [] }
    requires prolog { is_in_instance parser.old.reading ≡ false }
    ensures reads { PrologReadsBy S.files S.left store.old source.old parser.old store.new source.new parser.new early.new.items result }
    ensures instructions { OnOk result (list_all is_instruction early.new.items ≡ true) }
    ensures going { IfOk result (λ refused. refused ≡ None → IsGoing source.new parser.new) }
    ensures instance { IfOk result (λ refused. refused ≡ None → is_in_instance parser.new.reading ≡ true) }
    ensures usable { OnOk result (is_out_of_memory parser.new.failed ≡ false) }
    ensures id { source.new.id ≡ source.old.id }
    ensures given { (id : ℕ) → S.given store.old id → S.given store.new id }
    ensures files { S.files store.new ≡ S.files store.old }
    ensures cause { HasCause Failure.Store (S.faults store.old) (S.faults store.new) result }
    ensures sink { result ≡ Err Failure.Sink → ⊥ }
    ensures room { length buffer.new ≡ length buffer.old }
{
    'prolog: for _ in 0..u64::MAX {
        let told = match told_next(alloc, store, source, parser, buffer, steps) {
            Ok(told) => told,
            Err(error) => return Err(failure_of(error)),
        };
        match told {
            Told::Event(event) => match note_early(early, event) {
                Ok(()) => {}
                Err(failure) => return Err(failure),
            },
            Told::Prolog => return Ok(None),
            Told::Refused(refusal) => return Ok(Some(refusal)),
            // before the document ends the instance begins
            Told::Finished => return Err(Failure::Memory),
        }
    }
    Err(Failure::Memory)
}

fn note_early(early: &mut Vec<Event>, event: Event) -> Result<(), Failure>
    requires instruction { is_instruction event ≡ true }
    ensures noted { OnOk result (IsNoted early.old.items event early.new.items) }
    ensures memory { OnErr result (result ≡ Err Failure.Memory) }
{
    match early.push(event) {
        Ok(()) => Ok(()),
        Err(_) => Err(Failure::Memory),
    }
}
