// Reading many events at once.
ghost use Rattle.std.specs.Prelude.{◌≡◌, ◌++◌, [], OnOk, OnErr, reverse};
ghost use Rattle.sgml_content_tags.specs.sgml_content_steps.Content.{IsContent};
ghost use Rattle.sgml_instance.specs.Batches.{ReadsMany};
ghost use Rattle.sgml_instance.specs.Going.{ReadsRest, paused_at, pause_after};

use crate::answer::{InstanceError, InstancePause};
use crate::preparing::prepare_models;
use crate::quick::run_plain;
use crate::reading::advance;
use sgml_content_tags::content_steps::{Content, place_of};
use sgml_declared::Options;
use sgml_entity::Texts;
use sgml_events::Event;
use sgml_prolog_steps::Stop;
use sgml_steps::Steps;
use sgml_text::{Memory, Place, Refusal};
use std::alloc::Global;
use std::sync::ledger::Ledger;

/// So many events are to be taken: few enough to stay in the fastest memory.
pub(crate) const ENOUGH: usize = 64;

/// Appends the events that wait and those that are read on, up to where there are enough, the document has ended or nothing
/// is taken.
pub(crate) fn read_many<L: Ledger>(
    options: &Options,
    alloc: Global,
    content: &mut Content,
    waiting: &mut Vec<Event>,
    over: &mut bool,
    texts: &Texts,
    ended: bool,
    steps: &mut Steps<L>,
    told: &mut Vec<Event>,
) -> Result<InstancePause, InstanceError>
    requires content { IsContent content.old }
    requires expand { content.old.kept.stack.expand ≡ options.now.expand }
    ensures reads { ReadsMany options.now texts.now ended content.old waiting.old over.old content.new waiting.new over.new told.old told.new result }
    ensures content { IsContent content.new }
    ensures expand { content.new.kept.stack.expand ≡ content.old.kept.stack.expand }
    ensures doctype { content.new.kept.doctype ≡ content.old.kept.doctype }
{
    match take_waiting(waiting, told) {
        Ok(()) => read_rest(options, alloc, content, over, texts, ended, steps, told),
        Err(_) => Err(InstanceError::Memory),
    }
}

/// Appends the events that wait, in their order.
fn take_waiting(waiting: &mut Vec<Event>, told: &mut Vec<Event>) -> Result<(), Memory>
    ensures ok { OnOk result (told.new.items ≡ told.old.items ++ reverse waiting.old.items) }
    ensures none { OnOk result (waiting.new.items ≡ []) }
    ensures err { OnErr result (told.new.items ≡ told.old.items) }
{
    waiting.reverse();
    match told.append(waiting) {
        Ok(()) => Ok(()),
        Err(_) => Err(Memory),
    }
}

/// Goes from step to step where nothing waits; over plain tokens in runs.
fn read_rest<L: Ledger>(
    options: &Options,
    alloc: Global,
    content: &mut Content,
    over: &mut bool,
    texts: &Texts,
    ended: bool,
    steps: &mut Steps<L>,
    told: &mut Vec<Event>,
) -> Result<InstancePause, InstanceError>
    requires content { IsContent content.old }
    requires expand { content.old.kept.stack.expand ≡ options.now.expand }
    ensures reads { ReadsRest options.now texts.now ended content.old over.old content.new over.new told.old.items told.new.items result }
    ensures content { IsContent content.new }
    ensures expand { content.new.kept.stack.expand ≡ content.old.kept.stack.expand }
    ensures doctype { content.new.kept.doctype ≡ content.old.kept.doctype }
{
    prepare_models(content);
    let mut stop = Stop::More;
    'reading: while !*over && told.len() < ENOUGH {
        run_plain(options, alloc, content, texts, steps, told);
        if !advance(
            options, alloc, content, told, over, texts, ended, steps, &mut stop,
        ) {
            return paused_at(stop, place_of(content));
        }
    }
    Ok(pause_after(*over))
}

/// What is answered where nothing was taken at this place.
fn paused_at(stop: Stop, place: Place) -> Result<InstancePause, InstanceError>
    ensures { result ≡ paused_at stop place }
{
    match stop {
        Stop::Refused(reason) => Err(InstanceError::Refused(Refusal { place, reason })),
        Stop::Wanted { entity, file } => Ok(InstancePause::Want { entity, name: file }),
        Stop::More => Ok(InstancePause::More),
        Stop::Memory => Err(InstanceError::Memory),
    }
}

fn pause_after(over: bool) -> InstancePause
    ensures { result ≡ pause_after over }
{
    if over {
        InstancePause::Finished
    } else {
        InstancePause::Going
    }
}
