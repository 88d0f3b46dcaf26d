// Reading on in the part of the document that is being read.
ghost use Rattle.std.specs.Prelude.{◌≡◌, ◌++◌, ◌∷◌, [], IfOk, IfErr, OnOk, OnErr, None, true};
ghost use Rattle.sgml_declared.specs.theory_standing.Prologs.{is_over};
ghost use Rattle.sgml_prolog.specs.Reading.{IsSound as IsPrologSound};
ghost use Rattle.sgml_instance.specs.Reading.{BeginsAfterProlog};
ghost use Rattle.sgml_parse.specs.There.{reading_of};
ghost use Rattle.sgml_parse.specs.Parsing.{IsSound, KeepsDoctype};
ghost use Rattle.sgml_parse.specs.Going.{IsAnswer, IsOver, IsOverIfDone, TellsProlog, AnswersOfProlog, answer_of_instance, error_of_prolog};
ghost use Rattle.sgml_parse.specs.Together.{IsAppended, pause_of_instance, AnswersThen};

use crate::answer::{ParseError, ParsePause, ParseStep};
use crate::reading::Reading;
use sgml_declared::Options;
use sgml_entity::Texts;
use sgml_events::Event;
use sgml_instance::{Instance, InstanceError, InstancePause, InstanceStep};
use sgml_prolog::{PrologError, PrologStep};
use sgml_prolog_steps::Kept;
use sgml_steps::Steps;
use sgml_text::Memory;
use std::alloc::Global;
use std::mem;
use std::sync::Arc;
use std::sync::ledger::Ledger;

/// What the reader of this part answers. Where the prolog has been read, reading goes over to the instance.
pub(crate) fn read_on<L: Ledger>(
    alloc: Global,
    options: &Arc<Options>,
    reading: &mut Reading,
    texts: &Texts,
    ended: bool,
    steps: &mut Steps<L>,
) -> Result<ParseStep, ParseError>
    requires { IsSound options.now.value (reading_of reading.old) None }
    ensures answer { IsAnswer options.now.value texts.now ended (reading_of reading.old) (reading_of reading.new) result }
    ensures doctype { KeepsDoctype (reading_of reading.old) (reading_of reading.new) }
{
    match reading {
        Reading::Prolog(prolog) => {
            let answer = prolog.next(texts, ended, steps);
            take_answer(alloc, options, reading, answer)
        }
        Reading::Instance(instance) => answer_of_instance(instance.next(texts, ended, steps)),
        Reading::Lost => Err(ParseError::Memory),
    }
}

/// What the reader of this part answers after many events, which are appended. In the prolog it is one.
pub(crate) fn read_many<L: Ledger>(
    alloc: Global,
    options: &Arc<Options>,
    reading: &mut Reading,
    texts: &Texts,
    ended: bool,
    steps: &mut Steps<L>,
    told: &mut Vec<Event>,
) -> Result<ParsePause, ParseError>
    requires { IsSound options.now.value (reading_of reading.old) None }
    ensures answer { AnswersThen options.now.value texts.now ended reading.old reading.new told.old told.new result }
    ensures doctype { KeepsDoctype (reading_of reading.old) (reading_of reading.new) }
{
    match reading {
        Reading::Prolog(_) => append(read_on(alloc, options, reading, texts, ended, steps), told),
        Reading::Instance(instance) => pause_of_instance(instance.read(texts, ended, steps, told)),
        Reading::Lost => Err(ParseError::Memory),
    }
}

/// The answer, with its event appended, where it is one.
fn append(
    answer: Result<ParseStep, ParseError>,
    told: &mut Vec<Event>,
) -> Result<ParsePause, ParseError>
    ensures { IsAppended answer told.old.items told.new.items result }
{
    let step = match answer {
        Ok(step) => step,
        Err(error) => return Err(error),
    };
    match step {
        ParseStep::Event(event) => append_event(event, told),
        ParseStep::Prolog => Ok(ParsePause::Prolog),
        ParseStep::Want { entity, name } => Ok(ParsePause::Want { entity, name }),
        ParseStep::More => Ok(ParsePause::More),
        ParseStep::Finished => Ok(ParsePause::Finished),
    }
}

fn append_event(event: Event, told: &mut Vec<Event>) -> Result<ParsePause, ParseError>
    ensures ok { IfOk result (λ pause. pause ≡ ParsePause.Going) }
    ensures appended { OnOk result (told.new.items ≡ told.old.items ++ event ∷ []) }
    ensures err { IfErr result (λ e. e ≡ ParseError.Memory) }
    ensures none { OnErr result (told.new.items ≡ told.old.items) }
{
    match told.push(event) {
        Ok(()) => Ok(ParsePause::Going),
        Err(_) => Err(ParseError::Memory),
    }
}

fn pause_of_instance(answer: Result<InstancePause, InstanceError>) -> Result<ParsePause, ParseError>
    ensures { result ≡ pause_of_instance answer }
{
    let pause = match answer {
        Ok(pause) => pause,
        Err(InstanceError::Refused(refusal)) => return Err(ParseError::Refused(refusal)),
        Err(InstanceError::Memory) => return Err(ParseError::Memory),
    };
    match pause {
        InstancePause::Going => Ok(ParsePause::Going),
        InstancePause::Want { entity, name } => Ok(ParsePause::Want { entity, name }),
        InstancePause::More => Ok(ParsePause::More),
        InstancePause::Finished => Ok(ParsePause::Finished),
    }
}

fn take_answer(
    alloc: Global,
    options: &Arc<Options>,
    reading: &mut Reading,
    answer: Result<PrologStep, PrologError>,
) -> Result<ParseStep, ParseError>
    requires { IsOverIfDone options.now.value (reading_of reading.old) answer }
    ensures { AnswersOfProlog options.now.value (reading_of reading.old) (reading_of reading.new) answer result }
{
    let step = match answer {
        Ok(step) => step,
        Err(error) => return Err(error_of_prolog(error)),
    };
    match step {
        PrologStep::Pi {
            text,
            entity,
            place,
        } => Ok(ParseStep::Event(Event::Pi {
            text,
            entity,
            place,
        })),
        PrologStep::Want { entity, name } => Ok(ParseStep::Want { entity, name }),
        PrologStep::More => Ok(ParseStep::More),
        PrologStep::Done => go_over(alloc, options, reading),
    }
}

/// The prolog has been read, and the instance begins.
fn go_over(
    alloc: Global,
    options: &Arc<Options>,
    reading: &mut Reading,
) -> Result<ParseStep, ParseError>
    requires { IsOver options.now.value (reading_of reading.old) }
    ensures { TellsProlog options.now.value (reading_of reading.old) (reading_of reading.new) result }
{
    match share(options) {
        Ok(shared) => begin_instance(alloc, shared, reading),
        Err(_) => {
            *reading = Reading::Lost;
            Err(ParseError::Memory)
        }
    }
}

/// The reader of the instance in the place of that of the prolog.
fn begin_instance(
    alloc: Global,
    options: Arc<Options>,
    reading: &mut Reading,
) -> Result<ParseStep, ParseError>
    requires { IsOver options.value (reading_of reading.old) }
    ensures { TellsProlog options.value (reading_of reading.old) (reading_of reading.new) result }
{
    match mem::replace(reading, Reading::Lost) {
        Reading::Prolog(prolog) => {
            match instance_after(alloc, options, Box::into_inner(prolog).into_kept()) {
                Ok(instance) => {
                    *reading = Reading::Instance(instance);
                    Ok(ParseStep::Prolog)
                }
                Err(_) => Err(ParseError::Memory),
            }
        }
        Reading::Instance(_) | Reading::Lost => Err(ParseError::Memory),
    }
}

/// The reader of the instance after the prolog of which this was kept.
fn instance_after(alloc: Global, options: Arc<Options>, kept: Kept) -> Result<Box<Instance>, Memory>
    requires sound { IsPrologSound options.value kept }
    requires over { is_over kept ≡ true }
    ensures begins { IfOk result (λ x. BeginsAfterProlog kept x.value) }
    ensures options { IfOk result (λ x. x.value.options ≡ options.value) }
{
    let instance = Instance::begin(alloc, options, kept)?;
    Ok(Box::new(alloc, instance)?)
}

/// The same options.
pub(crate) fn share(options: &Arc<Options>) -> Result<Arc<Options>, Memory>
    ensures { IfOk result (λ shared. shared.value ≡ options.now.value) }
{
    match Arc::try_clone(options) {
        Ok(shared) => Ok(shared),
        Err(_) => Err(Memory),
    }
}

fn error_of_prolog(error: PrologError) -> ParseError
    ensures { result ≡ error_of_prolog error }
{
    match error {
        PrologError::Refused(refusal) => ParseError::Refused(refusal),
        PrologError::Memory => ParseError::Memory,
    }
}

fn answer_of_instance(answer: Result<InstanceStep, InstanceError>) -> Result<ParseStep, ParseError>
    ensures { result ≡ answer_of_instance answer }
{
    let step = match answer {
        Ok(step) => step,
        Err(InstanceError::Refused(refusal)) => return Err(ParseError::Refused(refusal)),
        Err(InstanceError::Memory) => return Err(ParseError::Memory),
    };
    match step {
        InstanceStep::Event(event) => Ok(ParseStep::Event(event)),
        InstanceStep::Want { entity, name } => Ok(ParseStep::Want { entity, name }),
        InstanceStep::More => Ok(ParseStep::More),
        InstanceStep::Finished => Ok(ParseStep::Finished),
    }
}
