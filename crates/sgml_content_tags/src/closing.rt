// An element ends.
ghost use Rattle.std.specs.Prelude.{◌≡◌, ◌<◌, ◌≤◌, ◌∷◌, ◌++◌, [], length};
ghost use Rattle.sgml_events.specs.declared.event.Event.TheVariants as event;
ghost use Rattle.sgml_infer.specs.Tables.{IsNumber};
ghost use Rattle.sgml_infer.specs.Visibles.{IsNumbered, IsVisible};
ghost use Rattle.sgml_prolog_steps.specs.Found.{rest_in};
ghost use Rattle.sgml_content_steps.specs.Content.{IsContent};
ghost use Rattle.sgml_content_steps.specs.Steps.{HasRoomFor};
ghost use Rattle.sgml_content_tags.specs.Ends.{closed, end_kind, TellsEnd};

use sgml_content_steps::{Content, judge, judge_plain, make_room, place_of, take_run, tell};
use sgml_entity::Texts;
use sgml_events::Event;
use sgml_infer::Visible;
use sgml_prolog_steps::{Stop, read_over};
use std::alloc::Global;

/// Markup of so many bytes ends an element of the type of this number, with the tags that are left out before it.
#[inline(always)]
pub(crate) fn end_element(
    alloc: Global,
    content: &mut Content,
    texts: &Texts,
    n: u64,
    visible: Visible,
    number: u32,
    told: &mut Vec<Event>,
) -> Result<(), Stop>
    requires content { IsContent content.old }
    requires within { n ≤ length (rest_in content.old.kept texts.now) }
    requires numbered { IsNumbered content.old.kept.doctype visible }
    requires number { IsNumber content.old.kept.doctype number }
    requires visible { IsVisible content.old.kept.doctype visible (end_kind content.old.kept.doctype visible number) }
    ensures { TellsEnd texts.now n visible number content.old content.new told.old.items told.new.items result }
{
    match judge_plain(alloc, content, visible) {
        Some(run) => {
            if let Err(_) = make_room(told, run.room() + 1) {
                return Err(Stop::Memory);
            }
            let place = place_of(content);
            take_run(content, place, visible, run, told);
            close(content, texts, n, number, told);
            Ok(())
        }
        None => end_behind(alloc, content, texts, n, visible, number, told),
    }
}

// The same, of the type of this number, with the tags that are left out before it.
#[inline(never)]
fn end_behind(
    alloc: Global,
    content: &mut Content,
    texts: &Texts,
    n: u64,
    visible: Visible,
    number: u32,
    told: &mut Vec<Event>,
) -> Result<(), Stop>
    requires content { IsContent content.old }
    requires within { n ≤ length (rest_in content.old.kept texts.now) }
    requires numbered { IsNumbered content.old.kept.doctype visible }
    requires number { IsNumber content.old.kept.doctype number }
    requires visible { IsVisible content.old.kept.doctype visible (end_kind content.old.kept.doctype visible number) }
    ensures { TellsEnd texts.now n visible number content.old content.new told.old.items told.new.items result }
{
    let place = place_of(content);
    let run = match judge(alloc, content, texts, visible) {
        Ok(run) => run,
        Err(stop) => return Err(stop),
    };
    if let Err(_) = make_room(told, run.room() + 1) {
        return Err(Stop::Memory);
    }
    take_run(content, place, visible, run, told);
    close(content, texts, n, number, told);
    Ok(())
}

// The innermost element ends.
fn close(content: &mut Content, texts: &Texts, n: u64, number: u32, told: &mut Vec<Event>)
    requires stacked { 0 < length content.old.kept.stack.places }
    requires within { n ≤ length (rest_in content.old.kept texts.now) }
    requires room { HasRoomFor 1 told.old }
    ensures content { content.new ≡ closed n number content.old }
    ensures told { told.new.items ≡ told.old.items ++ event.End number ∷ [] }
{
    tell(told, Event::End { element: number });
    content.inside.close(number);
    read_over(&mut content.kept, texts, n);
}
