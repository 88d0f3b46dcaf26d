// Reading from step to step.
ghost use Rattle.std.specs.Prelude.{◌≡◌, false, IfSome};
ghost use Rattle.sgml_declared.specs.theory_reading.Reads.{top_place};
ghost use Rattle.sgml_declared.specs.theory_standing.Prologs.{is_over};
ghost use Rattle.sgml_text.specs.declared.place.Place.{Place};
ghost use Rattle.sgml_declared.specs.Files.{IsNoted};
ghost use Rattle.sgml_prolog_steps.specs.Standing.{IsKept};
ghost use Rattle.sgml_prolog_steps.specs.declared.stepping.Stop.TheVariants.{Wanted};
ghost use Rattle.sgml_prolog.specs.Reading.{ReadsOn, IsOverIfDone, asked_in};
ghost use Rattle.sgml_prolog.specs.Going.{Advances, asked_then, told_at, IsToldStop};

use crate::answer::{PrologError, PrologStep};
use crate::stepping::step;
use sgml_declared::{Noted, Options};
use sgml_entity::{InputStack, Texts};
use sgml_prolog_steps::{Kept, Stage, Stop, Turn, pass_separators};
use sgml_steps::Steps;
use sgml_text::{Place, Refusal, Text};
use std::alloc::Global;
use std::sync::ledger::Ledger;

/// Goes from step to step up to the first that is told. `asked` is the name of the file that was asked for
/// as the external subset, `noted` the file of a declaration before.
pub(crate) fn read_on<L: Ledger>(
    options: &Options,
    alloc: Global,
    kept: &mut Kept,
    texts: &Texts,
    asked: &mut Option<Text>,
    noted: &mut Option<Noted>,
    ended: bool,
    steps: &mut Steps<L>,
) -> Result<PrologStep, PrologError>
    requires kept { IsKept kept.old }
    requires expand { kept.old.stack.expand ≡ options.now.expand }
    requires noted { IfSome noted.old (IsNoted options.now) }
    ensures reads { ReadsOn options.now texts.now ended kept.old kept.new asked.old asked.new result }
    ensures asked { asked.new ≡ asked_in result asked.old }
    ensures over { IsOverIfDone kept.new result }
    ensures kept { IsKept kept.new }
    ensures expand { kept.new.stack.expand ≡ kept.old.stack.expand }
    ensures noted { IfSome noted.new (IsNoted options.now) }
{
    'reading: while !is_over(kept) {
        pass_separators(kept, texts, steps);
        match advance(options, alloc, kept, texts, asked, noted, ended, steps) {
            None => {}
            Some(answer) => return answer,
        }
    }
    Ok(PrologStep::Done)
}

/// Whether the document type has been read.
fn is_over(kept: &Kept) -> bool
    ensures { result ≡ is_over kept.now }
{
    match kept.stage {
        Stage::AtBeginning => false,
        Stage::BeforeDoctype => false,
        Stage::InSubset => false,
        Stage::AfterSubset => kept.stack.height() == 1,
    }
}

/// Takes one step, and answers what is told of it.
fn advance<L: Ledger>(
    options: &Options,
    alloc: Global,
    kept: &mut Kept,
    texts: &Texts,
    asked: &mut Option<Text>,
    noted: &mut Option<Noted>,
    ended: bool,
    steps: &mut Steps<L>,
) -> Option<Result<PrologStep, PrologError>>
    requires kept { IsKept kept.old }
    requires going_on { is_over kept.old ≡ false }
    requires expand { kept.old.stack.expand ≡ options.now.expand }
    requires noted { IfSome noted.old (IsNoted options.now) }
    ensures advances { Advances options.now texts.now ended asked.old asked.new kept.old kept.new result }
    ensures asked { asked.new ≡ asked_then result asked.old }
    ensures over { IfSome result (IsOverIfDone kept.new) }
    ensures kept { IsKept kept.new }
    ensures expand { kept.new.stack.expand ≡ kept.old.stack.expand }
    ensures noted { IfSome noted.new (IsNoted options.now) }
{
    let place = place_of(&kept.stack);
    match step(options, alloc, kept, texts, asked, noted, ended, steps) {
        Ok(turn) => told_at(turn, place),
        Err(stop) => Some(stopped_at(alloc, asked, stop, place)),
    }
}

/// Where reading stands.
pub(crate) fn place_of(stack: &InputStack) -> Place
    ensures { result ≡ top_place stack.now.places }
{
    match stack.top() {
        Some(place) => place,
        None => Place { entity: 0, at: 0 },
    }
}

/// What is told of what was taken at this place.
fn told_at(turn: Turn, place: Place) -> Option<Result<PrologStep, PrologError>>
    ensures { result ≡ told_at turn place }
{
    match turn {
        Turn::Silent => None,
        Turn::Instruction { text, entity } => Some(Ok(PrologStep::Pi {
            text,
            entity,
            place,
        })),
    }
}

/// What is told where nothing was taken at this place.
fn stopped_at(
    alloc: Global,
    asked: &mut Option<Text>,
    stop: Stop,
    place: Place,
) -> Result<PrologStep, PrologError>
    ensures told { IsToldStop stop place result }
    ensures asked { asked.new ≡ asked_in result asked.old }
{
    match stop {
        Stop::Refused(reason) => Err(PrologError::Refused(Refusal { place, reason })),
        Stop::Wanted { entity, file } => want(alloc, asked, entity, file),
        Stop::More => Ok(PrologStep::More),
        Stop::Memory => Err(PrologError::Memory),
    }
}

/// Asks for the text of an entity. Of the external subset it is noted which file that is.
fn want(
    alloc: Global,
    asked: &mut Option<Text>,
    entity: u32,
    file: Text,
) -> Result<PrologStep, PrologError>
    ensures told { (place : Place) → IsToldStop (Wanted entity file) place result }
    ensures asked { asked.new ≡ asked_in result asked.old }
{
    if entity == 1 {
        *asked = Some(file.copy(alloc)?);
    }
    Ok(PrologStep::Want { entity, name: file })
}
