// Taking content: a judged piece with the tags that are left out before it.
ghost use Rattle.std.specs.Prelude.{◌≡◌, ◌+◌, ◌^◌, ◌<◌, ◌≤◌, true, length, take, vec_capacity, IfOk, IsTrue, OnOk, OnErr};
ghost use Rattle.std.specs.List.{list_all, prefix_len};
ghost use Rattle.sgml_entity.specs.Stack.{offset_of};
ghost use Rattle.sgml_text.specs.Units.{characters};
ghost use Rattle.sgml_infer.specs.theory_reading.Pieces.{Char, Re};
ghost use Rattle.sgml_infer.specs.declared.visible.Visible.TheVariants as visible;
ghost use Rattle.sgml_inside.specs.Inside.{item_of, facts_of};
ghost use Rattle.sgml_inside.specs.records.Facts.{takes_end};
ghost use Rattle.sgml_prolog_steps.specs.Found.{rest_in};
ghost use Rattle.sgml_content_steps.specs.Content.{Holds, IsContent};
ghost use Rattle.sgml_content_steps.specs.Standing.{IsHeld};
ghost use Rattle.sgml_prolog_steps.specs.theory_standing.Held.{Held};
ghost use Rattle.sgml_content_steps.specs.Steps.{HasRoomFor};
ghost use Rattle.sgml_content_steps.specs.Runs.{IsRun, room_of};
ghost use Rattle.sgml_content_data.specs.Roles.{around_of, in_text, is_data_there};
ghost use Rattle.sgml_content_data.specs.Taking.{IsTaken, IsDataTaken};
ghost use Rattle.sgml_content_data.specs.Steps.{TakesPiece, TakesStretch, taken};
ghost use Rattle.sgml_content_steps.specs.Plainly.{plain_state};

use crate::around::{Around, IN_TEXT, look_around};
use crate::front::{bytes_at, data_length};
use crate::passing::{note, note_next, see_end};
use crate::telling::{put_out, tell_data};
use sgml_content_steps::{Content, Run, judge, make_room, place_of, scan_state, take_run};
use sgml_delim::Mode;
use sgml_entity::Texts;
use sgml_events::{Event, Stretch};
use sgml_infer::Visible;
use sgml_inside::Item;
use sgml_prolog_steps::{Stop, unread};
use sgml_scan::ScanState;
use sgml_text::Memory;
use std::alloc::Global;

/// Takes a run and a piece of content of so many bytes behind it: whether a record end that waits is put out.
#[inline(always)]
pub(crate) fn take_item(
    content: &mut Content,
    n: u64,
    item: Item,
    run: Run,
    told: &mut Vec<Event>,
) -> bool
    requires content { IsContent content.old }
    requires run { IsRun content.old visible.Chars run }
    requires fits { offset_of content.old.kept.stack.places + n < 2 ^ 64 }
    requires room { HasRoomFor (room_of run) told.old }
    ensures taken { IsTaken content.old content.new n (item_of item) told.old.items told.new.items result }
    ensures few { length told.new.items ≤ length told.old.items + room_of run }
    ensures capacity { vec_capacity told.new ≡ vec_capacity told.old }
{
    let place = place_of(content);
    take_run(content, place, Visible::Chars, run, told);
    note_next(content, n, item)
}

/// Takes data of so many bytes that was judged, and tells it.
#[inline(always)]
pub(crate) fn take_data(
    content: &mut Content,
    n: u64,
    run: Run,
    stretch: Stretch,
    told: &mut Vec<Event>,
) -> Result<(), Memory>
    requires content { IsContent content.old }
    requires run { IsRun content.old visible.Chars run }
    requires fits { offset_of content.old.kept.stack.places + n < 2 ^ 64 }
    ensures taken { OnOk result (IsDataTaken content.old content.new n stretch told.old.items told.new.items) }
    ensures content { OnErr result (content.new ≡ content.old) }
    ensures told { OnErr result (told.new.items ≡ told.old.items) }
{
    if let Err(_) = make_room(told, run.room() + 2) {
        return Err(Memory);
    }
    let released = take_item(content, n, Item::Data, run, told);
    tell_data(told, released, stretch);
    Ok(())
}

/// A data character that takes so many bytes (7.6, 9.5). `stop` tells why where nothing is taken, here and below.
pub(crate) fn take_character(
    alloc: Global,
    content: &mut Content,
    texts: &Texts,
    n: u64,
    byte: u8,
    told: &mut Vec<Event>,
    stop: &mut Stop,
) -> bool
    requires content { IsContent content.old }
    requires some { 0 < n }
    requires within { n ≤ length (rest_in content.old.kept texts.now) }
    ensures { TakesPiece texts.now n (Char byte) content.old content.new told.old told.new result stop.new }
{
    let run = match judge(alloc, content, texts, Visible::Chars) {
        Ok(run) => run,
        Err(why) => {
            *stop = why;
            return false;
        }
    };
    let stretch = match Stretch::of_bytes(alloc, &[byte]) {
        Ok(stretch) => stretch,
        Err(_) => {
            *stop = Stop::Memory;
            return false;
        }
    };
    see_end(content, texts, n);
    match take_data(content, n, run, stretch, told) {
        Ok(()) => true,
        Err(_) => {
            *stop = Stop::Memory;
            false
        }
    }
}

/// Characters of a byte each, of which the first is data. Behind tags that are left out before it the others are taken
/// with it where they are scanned as before, and are data too.
#[inline(never)]
pub(crate) fn take_stretch(
    alloc: Global,
    content: &mut Content,
    texts: &Texts,
    whole: u64,
    told: &mut Vec<Event>,
    stop: &mut Stop,
) -> bool
    requires content { IsContent content.old }
    requires some { 0 < whole }
    requires within { whole ≤ length (rest_in content.old.kept texts.now) }
    requires data { list_all (is_data_there (around_of content.old)) (take 1 (rest_in content.old.kept texts.now)) ≡ true }
    ensures { TakesStretch texts.now whole content.old content.new told.old told.new result stop.new }
{
    let plain = is_plain(scan_state(content));
    let run = match judge(alloc, content, texts, Visible::Chars) {
        Ok(run) => run,
        Err(why) => {
            *stop = why;
            return false;
        }
    };
    let n = data_there(content, texts, whole);
    let (first, all) = match stretches(alloc, content, texts, n) {
        Ok(both) => both,
        Err(_) => {
            *stop = Stop::Memory;
            return false;
        }
    };
    if let Err(_) = make_room(told, run.room() + 2) {
        *stop = Stop::Memory;
        return false;
    }
    let released = take_item(content, 1, Item::Data, run, told);
    if n > 1 && plain && goes_on(content) {
        let _ = note(content, texts, n - 1, Item::Data);
        tell_data(told, released, all);
        return true;
    }
    tell_data(told, released, first);
    true
}

/// How many of so many characters are data where there is `#PCDATA`.
fn data_there(content: &Content, texts: &Texts, whole: u64) -> u64
    requires stacked { 0 < length content.now.kept.stack.places }
    requires within { whole ≤ length (rest_in content.now.kept texts.now) }
    ensures count { result ≡ prefix_len (is_data_there in_text) (take whole (rest_in content.now.kept texts.now)) }
    ensures fits { offset_of content.now.kept.stack.places + whole < 2 ^ 64 }
{
    data_length(bytes_at(content, texts, whole), IN_TEXT) as u64
}

/// The first character, and those of so many bytes.
fn stretches(
    alloc: Global,
    content: &Content,
    texts: &Texts,
    n: u64,
) -> Result<(Stretch, Stretch), Memory>
    requires stacked { 0 < length content.now.kept.stack.places }
    requires some { 0 < length (rest_in content.now.kept texts.now) }
    requires within { n ≤ length (rest_in content.now.kept texts.now) }
    ensures first { IfOk result (λ both. both.0 ≡ characters (take 1 (rest_in content.now.kept texts.now))) }
    ensures all { IfOk result (λ both. both.1 ≡ characters (take n (rest_in content.now.kept texts.now))) }
{
    let rest = unread(content.kept.dtd.entities(), texts, &content.kept.stack);
    let first = Stretch::of_bytes(alloc, &rest[..1])?;
    let all = Stretch::of_bytes(alloc, &rest[..n as usize])?;
    Ok((first, all))
}

/// Whether data goes on in content without NET and maps, where there is `#PCDATA`.
pub(crate) fn goes_on(content: &Content) -> bool
    requires { IsContent content.now }
    ensures scanned { IsTrue result → (x : Held) → Holds content.now x → IsHeld content.now.kept plain_state x }
    ensures around { IsTrue result → around_of content.now ≡ in_text }
{
    is_plain(scan_state(content)) && is_in_text(look_around(content))
}

pub(crate) fn is_in_text(around: Around) -> bool
    ensures { IsTrue result → around ≡ in_text }
{
    around.text && !around.section
}

/// Content without NET and maps.
fn is_plain(state: ScanState) -> bool
    ensures { IsTrue result → state ≡ plain_state }
{
    match state.mode {
        Mode::Con => !state.net && !state.maps,
        _ => false,
    }
}

/// A record end that isn't ignored for what stands before it, and so is content (7.6.1).
#[inline(never)]
pub(crate) fn take_live_end(
    alloc: Global,
    content: &mut Content,
    texts: &Texts,
    n: u64,
    told: &mut Vec<Event>,
    stop: &mut Stop,
) -> bool
    requires content { IsContent content.old }
    requires some { 0 < n }
    requires within { n ≤ length (rest_in content.old.kept texts.now) }
    requires live { takes_end (facts_of content.old.inside.elements) ≡ true }
    ensures { TakesPiece texts.now n (Re true) content.old content.new told.old told.new result stop.new }
{
    let run = match judge(alloc, content, texts, Visible::Chars) {
        Ok(run) => run,
        Err(why) => {
            *stop = why;
            return false;
        }
    };
    if let Err(_) = make_room(told, run.room() + 1) {
        *stop = Stop::Memory;
        return false;
    }
    see_end(content, texts, n);
    let released = take_item(content, n, Item::RecordEnd, run, told);
    put_out(told, released);
    true
}
