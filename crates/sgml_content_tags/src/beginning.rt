// An element begins.
ghost use Rattle.std.specs.Prelude.{◌≡◌, ◌<◌, ◌+◌, ◌++◌, ◌||◌, false, length};
ghost use Rattle.sgml_events.specs.declared.event.Event.TheVariants as event;
ghost use Rattle.sgml_dtd.specs.Doctypes.{Doctype};
ghost use Rattle.sgml_infer.specs.Tables.{IsNumber};
ghost use Rattle.sgml_infer.specs.Trees.{HasPlaces, IsTreeOf};
ghost use Rattle.sgml_inside.specs.Inside.{item_of};
ghost use Rattle.sgml_content_steps.specs.Steps.{HasRoomFor};
ghost use Rattle.sgml_content_tags.specs.Starts.{is_void_at, map_at, start_item, inside_noted, begun_with, released_told, end_told, begin_told, Settles, WasJudged, ends_at_once, HasLevelLeft, IsBegun, start_told, TakesStart};
ghost use Rattle.sgml_infer.specs.declared.visible.Visible.TheVariants as visible;
ghost use Rattle.sgml_content_steps.specs.Content.{IsContent};
ghost use Rattle.sgml_content_steps.specs.Runs.{room_of};

use sgml_attr::Values;
use sgml_content_steps::{Content, Run, take_run, tell};
use sgml_dtd_maps::MapOf;
use sgml_events::{Event, Stretch};
use sgml_infer::{Tree, Visible};
use sgml_inside::{Inside, Item};
use sgml_starts::StartValues;
use sgml_text::Place;

/// A start of an element of the type of this number, which its open elements were told of.
#[derive(Clone, Copy, Debug)]
pub(crate) struct Begun {
    pub(crate) element: u32,
    pub(crate) place: Place,
    /// An open element includes it (11.2.5.1).
    pub(crate) included: bool,
    /// Its tag enabled NET (7.4.1.3).
    pub(crate) net: bool,
}

/// What stands inside the open elements after a start with these values, which is told.
#[inline(always)]
pub(crate) fn begin(content: &mut Content, begun: Begun, start: StartValues, told: &mut Vec<Event>)
    requires number { IsNumber content.old.kept.doctype begun.element }
    requires of_type { IsTreeOf content.old.kept.doctype content.old.tree }
    requires places { HasPlaces content.old.tree }
    requires depth { is_void_at content.old.kept.doctype begun.element ≡ false → 0 < content.old.tree.depth }
    requires level { ends_at_once content.old.kept.doctype begun.element start ≡ false → HasLevelLeft content.old.inside }
    requires room { HasRoomFor 3 told.old }
    ensures content { IsBegun content.old begun.element begun.included start content.new }
    ensures told { told.new.items ≡ told.old.items ++ start_told content.old begun.place begun.element begun.included start }
    ensures settles { Settles (is_void_at content.old.kept.doctype begun.element) start.conref begun.net content.old.tree content.new.tree }
    ensures tree { (t : Doctype) → IsTreeOf t content.old.tree → IsTreeOf t content.new.tree }
{
    let void = is_void(content, begun.element);
    let map = map_of(content, begun.element);
    let at_once = either(void, start.conref);
    settle(&mut content.tree, void, start.conref, begun.net);
    begin_inside(&mut content.inside, begun, map, at_once, start.values, told);
}

fn either(a: bool, b: bool) -> bool
    ensures { result ≡ (a || b) }
{
    a || b
}

/// Whether the type is declared EMPTY (11.2.3).
#[inline(always)]
fn is_void(content: &Content, number: u32) -> bool
    requires of_type { IsTreeOf content.now.kept.doctype content.now.tree }
    requires number { IsNumber content.now.kept.doctype number }
    ensures { result ≡ is_void_at content.now.kept.doctype number }
{
    content.tree.is_void(number)
}

/// The map that is in force in its elements (11.6).
#[inline(always)]
fn map_of(content: &Content, number: u32) -> MapOf
    requires of_type { IsTreeOf content.now.kept.doctype content.now.tree }
    requires number { IsNumber content.now.kept.doctype number }
    ensures { result ≡ map_at content.now.kept.doctype number }
{
    content.tree.map_of(number)
}

// The open elements after the start as it is written: with NET enabled, or ended at once (7.4.1.3, 11.3.4).
fn settle(tree: &mut Tree, void: bool, conref: bool, net: bool)
    requires places { HasPlaces tree.old }
    requires depth { void ≡ false → 0 < tree.old.depth }
    ensures settles { Settles void conref net tree.old tree.new }
    ensures tree { (t : Doctype) → IsTreeOf t tree.old → IsTreeOf t tree.new }
{
    if void {
        return;
    }
    if conref {
        tree.end_at_once();
        return;
    }
    if net {
        tree.enable_net();
    }
}

// The start is noted in the innermost element and told, and its element begins there or ends at once.
#[inline(always)]
fn begin_inside(
    inside: &mut Inside,
    begun: Begun,
    map: MapOf,
    at_once: bool,
    values: Values,
    told: &mut Vec<Event>,
)
    requires level { at_once ≡ false → length inside.old.elements < inside.old.room }
    requires room { HasRoomFor 3 told.old }
    ensures inside { inside.new ≡ begun_with map begun.element at_once (inside_noted begun.included inside.old) }
    ensures told { told.new.items ≡ told.old.items ++ begin_told begun.place inside.old begun.element begun.included at_once values }
{
    note(inside, begun.included, told);
    tell(
        told,
        Event::Start {
            element: begun.element,
            place: begun.place,
            values,
        },
    );
    go_inside(inside, begun.element, map, at_once, told);
}

// The start is noted in the innermost element, where it may release a record end (7.6.1).
#[inline(always)]
fn note(inside: &mut Inside, included: bool, told: &mut Vec<Event>)
    requires room { HasRoomFor 3 told.old }
    ensures inside { inside.new ≡ inside_noted included inside.old }
    ensures told { told.new.items ≡ told.old.items ++ released_told inside.old included }
    ensures room { HasRoomFor 2 told.new }
{
    if inside.note(item(included)) {
        tell(told, Event::Chars(Stretch::record_end()));
    }
}

fn item(included: bool) -> Item
    ensures { item_of result ≡ start_item included }
{
    if included {
        Item::Markup
    } else {
        Item::Subelement
    }
}

// Its element begins there, or ends at once.
#[inline(always)]
fn go_inside(inside: &mut Inside, number: u32, map: MapOf, at_once: bool, told: &mut Vec<Event>)
    requires level { at_once ≡ false → length inside.old.elements < inside.old.room }
    requires room { HasRoomFor 1 told.old }
    ensures inside { inside.new ≡ begun_with map number at_once inside.old }
    ensures told { told.new.items ≡ told.old.items ++ end_told number at_once }
{
    if at_once {
        inside.end_at_once(number);
        tell(told, Event::End { element: number });
    } else {
        inside.open(map);
    }
}

/// Takes the start of an element of this type with its run of omitted tags, once its values were taken.
#[inline(always)]
pub(crate) fn take_begun(
    content: &mut Content,
    begun: Begun,
    run: Run,
    start: StartValues,
    told: &mut Vec<Event>,
)
    requires content { IsContent content.old }
    requires number { IsNumber content.old.kept.doctype begun.element }
    requires judged { WasJudged content.old begun.place begun.element run }
    requires included { begun.included ≡ run.chain.included }
    requires room { HasRoomFor (room_of run + 3) told.old }
    ensures taken { TakesStart content.old content.new begun run start told.old.items told.new.items }
{
    take_run(
        content,
        begun.place,
        Visible::Start(begun.element),
        run,
        told,
    );
    begin(content, begun, start, told);
}
