// What the tags of a run make of what stands inside the open elements, and what they tell.
ghost use Rattle.std.specs.Prelude.{◌≡◌, ◌+◌, ◌*◌, ◌^◌, ◌<◌, ◌≤◌, ◌++◌, All, length, vec_capacity};
ghost use Rattle.sgml_infer.specs.Tables.{IsNumber};
ghost use Rattle.sgml_infer.specs.Trees.{IsTreeOf};
ghost use Rattle.sgml_content_steps.specs.Steps.{HasRoomFor};
ghost use Rattle.sgml_content_steps.specs.Begun.{all_ended_in, ends_told, begun_in, start_told, all_begun_in, starts_told};

use crate::telling::tell;
use sgml_attr::Values;
use sgml_events::{Event, Stretch};
use sgml_infer::Tree;
use sgml_infer::dtd::Dtd;
use sgml_inside::{Inside, Item};
use sgml_text::Place;

/// The elements end whose end-tags were left out last, from the inside out.
#[inline(always)]
pub(crate) fn take_ends(tree: &Tree, ends: u32, inside: &mut Inside, told: &mut Vec<Event>)
    requires ends { ends ≡ length tree.now.ended.items }
    requires room { HasRoomFor ends told.old }
    ensures inside { inside.new ≡ all_ended_in tree.now.ended.items inside.old }
    ensures told { told.new.items ≡ told.old.items ++ ends_told tree.now.ended.items }
    ensures capacity { vec_capacity told.new ≡ vec_capacity told.old }
{
    if ends == 0 {
        return;
    }
    take_each_end(tree, ends, inside, told);
}

// The same, where there are ends.
#[inline(never)]
fn take_each_end(tree: &Tree, ends: u32, inside: &mut Inside, told: &mut Vec<Event>)
    requires ends { ends ≡ length tree.now.ended.items }
    requires room { HasRoomFor ends told.old }
    ensures inside { inside.new ≡ all_ended_in tree.now.ended.items inside.old }
    ensures told { told.new.items ≡ told.old.items ++ ends_told tree.now.ended.items }
    ensures capacity { vec_capacity told.new ≡ vec_capacity told.old }
{
    'ends: for at in 0..ends {
        let element = tree.ended(at);
        inside.close(element);
        tell(told, Event::End { element });
    }
}

/// The elements begin whose start-tags were left out last, from the outside in, with these values.
#[inline(always)]
pub(crate) fn take_starts(
    dtd: &Dtd,
    tree: &Tree,
    place: Place,
    values: Vec<Values>,
    inside: &mut Inside,
    told: &mut Vec<Event>,
)
    requires of_type { IsTreeOf dtd.now tree.now }
    requires numbers { All (IsNumber dtd.now) tree.now.starts.items }
    requires few { length tree.now.starts.items < 2 ^ 32 }
    requires values { length values.items ≡ length tree.now.starts.items }
    requires levels { length inside.old.elements + length tree.now.starts.items ≤ inside.old.room }
    requires room { HasRoomFor (2 * length tree.now.starts.items) told.old }
    ensures inside { inside.new ≡ all_begun_in dtd.now tree.now.starts.items inside.old }
    ensures told { told.new.items ≡ told.old.items ++ starts_told dtd.now place inside.old tree.now.starts.items values.items }
    ensures few { length told.new.items ≤ length told.old.items + 2 * length tree.now.starts.items }
    ensures capacity { vec_capacity told.new ≡ vec_capacity told.old }
{
    if values.is_empty() {
        return;
    }
    take_each_start(dtd, tree, place, values, inside, told);
}

// The same, where there are starts.
#[inline(never)]
fn take_each_start(
    dtd: &Dtd,
    tree: &Tree,
    place: Place,
    mut values: Vec<Values>,
    inside: &mut Inside,
    told: &mut Vec<Event>,
)
    requires of_type { IsTreeOf dtd.now tree.now }
    requires numbers { All (IsNumber dtd.now) tree.now.starts.items }
    requires few { length tree.now.starts.items < 2 ^ 32 }
    requires values { length values.items ≡ length tree.now.starts.items }
    requires levels { length inside.old.elements + length tree.now.starts.items ≤ inside.old.room }
    requires room { HasRoomFor (2 * length tree.now.starts.items) told.old }
    ensures inside { inside.new ≡ all_begun_in dtd.now tree.now.starts.items inside.old }
    ensures told { told.new.items ≡ told.old.items ++ starts_told dtd.now place inside.old tree.now.starts.items values.items }
    ensures few { length told.new.items ≤ length told.old.items + 2 * length tree.now.starts.items }
    ensures capacity { vec_capacity told.new ≡ vec_capacity told.old }
{
    values.reverse();
    let mut at = 0;
    'starts: while let Some(of_start) = values.pop() {
        take_start(dtd, tree, tree.started(at), place, of_start, inside, told);
        at += 1;
    }
}

// An element begins in the innermost one, as a proper subelement of it.
fn take_start(
    dtd: &Dtd,
    tree: &Tree,
    element: u32,
    place: Place,
    values: Values,
    inside: &mut Inside,
    told: &mut Vec<Event>,
)
    requires of_type { IsTreeOf dtd.now tree.now }
    requires number { IsNumber dtd.now element }
    requires level { length inside.old.elements < inside.old.room }
    requires room { HasRoomFor 2 told.old }
    ensures inside { inside.new ≡ begun_in dtd.now element inside.old }
    ensures told { told.new.items ≡ told.old.items ++ start_told place inside.old element values }
    ensures few { length told.new.items ≤ length told.old.items + 2 }
    ensures capacity { vec_capacity told.new ≡ vec_capacity told.old }
{
    let released = inside.note(Item::Subelement);
    if released {
        tell(told, Event::Chars(Stretch::record_end()));
    }
    tell(
        told,
        Event::Start {
            element,
            place,
            values,
        },
    );
    inside.open(tree.map_of(element));
}
