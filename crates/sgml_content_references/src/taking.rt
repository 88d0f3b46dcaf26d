// Taking a reference to a data entity with the tags that are left out before it.
ghost use Rattle.std.specs.Prelude.{◌≡◌, ◌+◌, ◌<◌, ◌≤◌, Some, length, vec_capacity, IfOk, OnOk, OnErr};
ghost use Rattle.sgml_theory_reading.specs.records.Items.{Data};
ghost use Rattle.sgml_theory_reading.specs.Events.{releases_by};
ghost use Rattle.sgml_theory_reading.specs.Pieces.{Kind};
ghost use Rattle.sgml_infer.specs.declared.visible.Visible.TheVariants as visible;
ghost use Rattle.sgml_inside.specs.Inside.{facts_of};
ghost use Rattle.sgml_prolog_steps.specs.Found.{rest_in};
ghost use Rattle.sgml_content_steps.specs.Content.{IsContent};
ghost use Rattle.sgml_content_steps.specs.Steps.{HasRoomFor};
ghost use Rattle.sgml_content_steps.specs.Runs.{IsRun, room_of};
ghost use Rattle.sgml_content_data.specs.Taking.{with_item, IsTaken};
ghost use Rattle.sgml_content_data.specs.Steps.{TellsPiece};
ghost use Rattle.sgml_content_references.specs.Entities.{events_in, told_for, IsOf, IsEntityTaken};

use crate::data_telling::tell_behind;
use crate::event::{Entity, event_for};
use sgml_content_steps::{Content, Run, judge, make_room, place_of, take_run};
use sgml_entity::Texts;
use sgml_events::Event;
use sgml_infer::Visible;
use sgml_inside::Item;
use sgml_prolog_steps::{Stop, read_over};
use sgml_text::Memory;
use std::alloc::Global;

/// A reference to a data entity, or a short reference string that stands for one, of so many bytes. It is content,
/// also where nothing is told of it. A record start at the front of a string is nothing to the data behind it.
pub(crate) fn take_entity(
    alloc: Global,
    content: &mut Content,
    texts: &Texts,
    n: u64,
    entity: Entity,
    told: &mut Vec<Event>,
) -> Result<(), Stop>
    requires content { IsContent content.old }
    requires some { 0 < n }
    requires within { n ≤ length (rest_in content.old.kept texts.now) }
    ensures { (y : Kind) → IsOf entity y → TellsPiece texts.now n y content.old content.new told.old.items told.new.items result }
{
    let run = match judge(alloc, content, texts, Visible::Chars) {
        Ok(run) => run,
        Err(stop) => return Err(stop),
    };
    let event = match event_in(alloc, content, entity) {
        Ok(event) => event,
        Err(_) => return Err(Stop::Memory),
    };
    match take_told(content, texts, n, run, event, told) {
        Ok(()) => Ok(()),
        Err(_) => Err(Stop::Memory),
    }
}

fn event_in(alloc: Global, content: &Content, entity: Entity) -> Result<Option<Event>, Memory>
    ensures { IfOk result (λ event. events_in event ≡ told_for content.now.kept.doctype entity) }
{
    event_for(alloc, &content.kept.dtd, entity)
}

/// Takes data of so many bytes that was judged, and tells this of it.
#[inline(always)]
pub(crate) fn take_told(
    content: &mut Content,
    texts: &Texts,
    n: u64,
    run: Run,
    event: Option<Event>,
    told: &mut Vec<Event>,
) -> Result<(), Memory>
    requires content { IsContent content.old }
    requires run { IsRun content.old visible.Chars run }
    requires within { n ≤ length (rest_in content.old.kept texts.now) }
    ensures taken { OnOk result (IsEntityTaken content.old content.new n (events_in event) told.old.items told.new.items) }
    ensures content { OnErr result (content.new ≡ content.old) }
    ensures told { OnErr result (told.new.items ≡ told.old.items) }
{
    if let Err(_) = make_room(told, run.room() + 2) {
        return Err(Memory);
    }
    let released = take_behind(content, texts, n, run, told);
    tell_behind(told, released, event);
    Ok(())
}

/// Takes a run, and data of so many bytes behind it: whether a record end that waits is put out.
fn take_behind(
    content: &mut Content,
    texts: &Texts,
    n: u64,
    run: Run,
    told: &mut Vec<Event>,
) -> bool
    requires content { IsContent content.old }
    requires run { IsRun content.old visible.Chars run }
    requires within { n ≤ length (rest_in content.old.kept texts.now) }
    requires room { HasRoomFor (room_of run) told.old }
    ensures taken { IsTaken content.old content.new n Data told.old.items told.new.items result }
    ensures few { length told.new.items ≤ length told.old.items + room_of run }
    ensures capacity { vec_capacity told.new ≡ vec_capacity told.old }
{
    let place = place_of(content);
    take_run(content, place, Visible::Chars, run, told);
    note_data(content, texts, n)
}

/// Reads over so many bytes that are data: whether a record end that waits is put out.
fn note_data(content: &mut Content, texts: &Texts, n: u64) -> bool
    requires stacked { 0 < length content.old.kept.stack.places }
    requires within { n ≤ length (rest_in content.old.kept texts.now) }
    ensures content { content.new ≡ with_item n (Some Data) content.old }
    ensures released { result ≡ releases_by (facts_of content.old.inside.elements) Data }
{
    read_over(&mut content.kept, texts, n);
    content.inside.note(Item::Data)
}
