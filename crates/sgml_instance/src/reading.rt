// Reading from step to step.
ghost use Rattle.std.specs.Prelude.{◌≡◌, [], false, reverse};
ghost use Rattle.sgml_content_tags.specs.sgml_content_steps.Content.{IsContent};
ghost use Rattle.sgml_instance.specs.Stepping.{taken};
ghost use Rattle.sgml_instance.specs.Reading.{ReadsNext};
ghost use Rattle.sgml_instance.specs.Going.{FallsBy, FirstIsTold, has_none, stop_of, stopped_at, Fills, FillsFrom, AdvancesBy};

use crate::answer::{InstanceError, InstanceStep};
use crate::preparing::prepare_models;
use crate::step::step;
use sgml_content_tags::content_steps::{Content, place_of};
use sgml_declared::Options;
use sgml_entity::Texts;
use sgml_events::Event;
use sgml_prolog_steps::Stop;
use sgml_steps::Steps;
use sgml_text::{Place, Refusal};
use std::alloc::Global;
use std::sync::ledger::Ledger;

/// What is told next: the first event that waits, where reading on is needed to have one.
pub(crate) fn answer<L: Ledger>(
    options: &Options,
    alloc: Global,
    content: &mut Content,
    waiting: &mut Vec<Event>,
    over: &mut bool,
    texts: &Texts,
    ended: bool,
    steps: &mut Steps<L>,
) -> Result<InstanceStep, InstanceError>
    requires content { IsContent content.old }
    requires expand { content.old.kept.stack.expand ≡ options.now.expand }
    ensures reads { ReadsNext options.now texts.now ended content.old waiting.old over.old content.new waiting.new over.new result }
    ensures content { IsContent content.new }
    ensures expand { content.new.kept.stack.expand ≡ content.old.kept.stack.expand }
    ensures doctype { content.new.kept.doctype ≡ content.old.kept.doctype }
{
    match fill(options, alloc, content, waiting, over, texts, ended, steps) {
        Some(answer) => answer,
        None => tell_first(waiting),
    }
}

/// The event that comes next, if one waits; else the document has ended.
fn tell_first(waiting: &mut Vec<Event>) -> Result<InstanceStep, InstanceError>
    ensures { FirstIsTold (reverse waiting.old.items) (reverse waiting.new.items) result }
{
    match waiting.pop() {
        Some(event) => Ok(InstanceStep::Event(event)),
        None => Ok(InstanceStep::Finished),
    }
}

/// Reads on where nothing waits, and turns what waits then so that the next event stands last.
fn fill<L: Ledger>(
    options: &Options,
    alloc: Global,
    content: &mut Content,
    waiting: &mut Vec<Event>,
    over: &mut bool,
    texts: &Texts,
    ended: bool,
    steps: &mut Steps<L>,
) -> Option<Result<InstanceStep, InstanceError>>
    requires content { IsContent content.old }
    requires expand { content.old.kept.stack.expand ≡ options.now.expand }
    ensures filled { Fills options.now texts.now ended content.old waiting.old over.old content.new waiting.new over.new result }
    ensures content { IsContent content.new }
    ensures expand { content.new.kept.stack.expand ≡ content.old.kept.stack.expand }
    ensures doctype { content.new.kept.doctype ≡ content.old.kept.doctype }
{
    if !has_none(waiting) {
        return None;
    }
    let answer = read_on(options, alloc, content, waiting, over, texts, ended, steps);
    waiting.reverse();
    answer
}

fn has_none(waiting: &Vec<Event>) -> bool
    ensures { result ≡ has_none waiting.now.items }
{
    waiting.is_empty()
}

/// Goes from step to step up to the first that tells something, to the end of the document, or to where
/// nothing is taken.
fn read_on<L: Ledger>(
    options: &Options,
    alloc: Global,
    content: &mut Content,
    waiting: &mut Vec<Event>,
    over: &mut bool,
    texts: &Texts,
    ended: bool,
    steps: &mut Steps<L>,
) -> Option<Result<InstanceStep, InstanceError>>
    requires content { IsContent content.old }
    requires expand { content.old.kept.stack.expand ≡ options.now.expand }
    requires none { waiting.old.items ≡ [] }
    ensures filled { FillsFrom options.now texts.now ended content.old over.old content.new waiting.new over.new result }
    ensures content { IsContent content.new }
    ensures expand { content.new.kept.stack.expand ≡ content.old.kept.stack.expand }
    ensures doctype { content.new.kept.doctype ≡ content.old.kept.doctype }
{
    prepare_models(content);
    let mut stop = Stop::More;
    'reading: while !*over && has_none(waiting) {
        if !advance(
            options, alloc, content, waiting, over, texts, ended, steps, &mut stop,
        ) {
            return Some(stopped_at(stop, place_of(content)));
        }
    }
    None
}

/// Takes one step and appends what it tells; where nothing is taken, `stop` tells why.
#[inline(always)]
pub(crate) fn advance<L: Ledger>(
    options: &Options,
    alloc: Global,
    content: &mut Content,
    told: &mut Vec<Event>,
    over: &mut bool,
    texts: &Texts,
    ended: bool,
    steps: &mut Steps<L>,
    stop: &mut Stop,
) -> bool
    requires content { IsContent content.old }
    requires going_on { over.old ≡ false }
    ensures advances { AdvancesBy options.now texts.now ended content.old content.new over.new told.old told.new result stop.new }
    ensures falls { FallsBy texts.now content.old content.new over.new (stop_of (taken result stop.new)) }
    ensures content { IsContent content.new }
    ensures expand { content.new.kept.stack.expand ≡ content.old.kept.stack.expand }
    ensures doctype { content.new.kept.doctype ≡ content.old.kept.doctype }
{
    step(
        options, alloc, content, over, texts, ended, steps, told, stop,
    )
}

/// What is answered where nothing was taken at this place.
fn stopped_at(stop: Stop, place: Place) -> Result<InstanceStep, InstanceError>
    ensures { result ≡ stopped_at stop place }
{
    match stop {
        Stop::Refused(reason) => Err(InstanceError::Refused(Refusal { place, reason })),
        Stop::Wanted { entity, file } => Ok(InstanceStep::Want { entity, name: file }),
        Stop::More => Ok(InstanceStep::More),
        Stop::Memory => Err(InstanceError::Memory),
    }
}
