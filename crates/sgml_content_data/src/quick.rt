// Text before which it is plain that no tag is left out, where it is known what is around.
ghost use Rattle.std.specs.Prelude.{◌≡◌, ◌+◌, ◌^◌, ◌<◌, ◌≤◌, ℕ, true, false, List, length, take, slice_index};
ghost use Rattle.std.specs.List.{list_all};
ghost use Rattle.sgml_entity.specs.Stack.{offset_of};
ghost use Rattle.sgml_text.specs.Units.{characters};
ghost use Rattle.sgml_scan.specs.Sure.{is_text};
ghost use Rattle.sgml_events.specs.declared.event.Event.{Event};
ghost use Rattle.sgml_infer.specs.theory_reading.Pieces.{Re};
ghost use Rattle.sgml_inside.specs.Inside.{facts_of};
ghost use Rattle.sgml_inside.specs.records.Facts.{takes_end};
ghost use Rattle.sgml_prolog_steps.specs.Found.{rest_in};
ghost use Rattle.sgml_content_steps.specs.Content.{IsContent};
ghost use Rattle.sgml_content_data.specs.Roles.{around_of, is_data_there, separator_of};
ghost use Rattle.sgml_content_data.specs.Steps.{record_end_in};
ghost use Rattle.sgml_content_data.specs.Alike.{AreCharacters, StaysAlike, TakesFront, TakesOne, TakesRow, TakesText, counted};

use crate::around::{Around, look_around};
use crate::begun::take_begun;
use crate::front::{bytes_at, front_of, is_data_at};
use crate::passing::{note_next, pass_next};
use crate::role::{Role, of_separator};
use crate::taking::{is_in_text, take_data, take_item};
use crate::telling::put_out;
use sgml_content_steps::{Content, judge_plain, make_room, rest_at};
use sgml_delim::Mode;
use sgml_entity::Texts;
use sgml_events::{Event, Stretch};
use sgml_infer::Visible;
use sgml_inside::Item;
use sgml_scan::{ScanState, text_length};
use std::alloc::Global;

/// Content without NET and maps.
const PLAIN: ScanState = ScanState {
    mode: Mode::Con,
    net: false,
    maps: false,
};

/// Text at the front of what is unread, where content is scanned without NET and maps and this is around: how many bytes
/// it has. Taken is what is ignored, or before which it is plain that no tag is left out; else 0 tells that all is as it
/// was, and that what stands there is to be looked at.
#[inline(always)]
pub fn try_plain_text(
    alloc: Global,
    content: &mut Content,
    texts: &Texts,
    around: Around,
    told: &mut Vec<Event>,
) -> u64
    requires content { IsContent content.old }
    requires around { around ≡ around_of content.old }
    ensures takes { TakesText texts.now content.old content.new told.old.items told.new.items result }
    ensures alike { StaysAlike content.old content.new }
    ensures content { IsContent content.new }
{
    let rest = rest_at(content, texts);
    match rest {
        [] => 0,
        [b, ..] => if *b == b'<' {
            0
        } else if *b == b'\r' {
            counted(
                1,
                try_separator(alloc, content, texts, around, 1, b'\r', told),
            )
        } else if *b == b'\n' {
            counted(
                1,
                try_separator(alloc, content, texts, around, 1, b'\n', told),
            )
        } else {
            // This is data, and no separator.
            if !around.text && *b > b' ' {
                return 0;
            }
            let n = text_there(content, rest);
            if n == 0 {
                return 0;
            }
            if !is_in_text(around) {
                return counted(n as u64, try_front(content, texts, around, n as u64));
            }
            match Stretch::of_bytes(alloc, &rest[..n]) {
                Ok(stretch) => counted(
                    n as u64,
                    try_data(alloc, content, texts, n as u64, stretch, told),
                ),
                Err(_) => 0,
            }
        },
    }
}

/// Data at the front of what is unread, where content is scanned without NET and maps, with the tags that are left out
/// before it: how many bytes stand there. 0 tells that all is as it was, and that what stands there is to be looked at.
#[inline(never)]
pub fn try_begun_text(
    alloc: Global,
    content: &mut Content,
    texts: &Texts,
    told: &mut Vec<Event>,
) -> u64
    requires content { IsContent content.old }
    ensures takes { TakesText texts.now content.old content.new told.old.items told.new.items result }
    ensures content { IsContent content.new }
{
    let rest = rest_at(content, texts);
    let n = text_there(content, rest);
    if n == 0 {
        return 0;
    }
    if !is_data_first(content, rest[0]) {
        return 0;
    }
    let Ok(all) = Stretch::of_bytes(alloc, &rest[..n]) else {
        return 0;
    };
    let Ok(first) = Stretch::of_bytes(alloc, &rest[..1]) else {
        return 0;
    };
    counted(
        n as u64,
        take_begun(alloc, content, texts, n as u64, first, all, told),
    )
}

/// Whether a character is data where it stands.
#[inline(always)]
fn is_data_first(content: &Content, byte: u8) -> bool
    requires { IsContent content.now }
    ensures { result ≡ is_data_there (around_of content.now) byte }
{
    if byte > b' ' {
        return true;
    }
    is_data_at(look_around(content), byte)
}

/// How many characters stand there, if it is told by bytes alone where they end.
#[inline(always)]
fn text_there(content: &Content, rest: &[u8]) -> usize
    ensures within { result ≤ length rest.now }
    ensures sure { (i : ℕ) → i < result → is_text false (slice_index rest.now i) ≡ true }
    ensures scanned { 0 < result → AreCharacters content.now rest.now result }
{
    text_length(content.kept.dtd.syntax(), PLAIN, rest)
}

#[inline(always)]
fn counted(n: u64, went: bool) -> u64
    ensures { result ≡ counted n went }
{
    if went { n } else { 0 }
}

/// Of so many characters those at the front that are ignored. Data is left, since it plainly stands only where there
/// is `#PCDATA`.
#[inline(never)]
fn try_front(content: &mut Content, texts: &Texts, around: Around, n: u64) -> bool
    requires content { IsContent content.old }
    requires around { around ≡ around_of content.old }
    requires some { 0 < n }
    requires within { n ≤ length (rest_in content.old.kept texts.now) }
    ensures takes { (told : List Event) → TakesFront texts.now n content.old content.new told told result }
    ensures alike { StaysAlike content.old content.new }
    ensures content { IsContent content.new }
{
    let bytes = bytes_at(content, texts, n);
    if is_data_at(around, bytes[0]) {
        return false;
    }
    let front = front_of(bytes, around);
    match front.role {
        Role::Ignored => {
            pass_next(content, front.length);
            true
        }
        Role::Data => false,
        Role::RecordEnd => false,
        Role::RecordStart => false,
    }
}

/// Data of so many bytes, told as it stands.
#[inline(always)]
fn try_data(
    alloc: Global,
    content: &mut Content,
    texts: &Texts,
    n: u64,
    stretch: Stretch,
    told: &mut Vec<Event>,
) -> bool
    requires content { IsContent content.old }
    requires some { 0 < n }
    requires within { n ≤ length (rest_in content.old.kept texts.now) }
    requires fits { offset_of content.old.kept.stack.places + n < 2 ^ 64 }
    requires data { list_all (is_data_there (around_of content.old)) (take n (rest_in content.old.kept texts.now)) ≡ true }
    requires stretch { stretch ≡ characters (take n (rest_in content.old.kept texts.now)) }
    ensures takes { TakesRow texts.now n content.old content.new told.old.items told.new.items result }
    ensures alike { StaysAlike content.old content.new }
    ensures content { IsContent content.new }
{
    match judge_plain(alloc, content, Visible::Chars) {
        Some(run) => match take_data(content, n, run, stretch, told) {
            Ok(()) => true,
            Err(_) => false,
        },
        None => false,
    }
}

/// A separator of so many bytes that is no data.
#[inline(always)]
fn try_separator(
    alloc: Global,
    content: &mut Content,
    texts: &Texts,
    around: Around,
    n: u64,
    byte: u8,
    told: &mut Vec<Event>,
) -> bool
    requires content { IsContent content.old }
    requires around { around ≡ around_of content.old }
    requires some { 0 < n }
    requires within { n ≤ length (rest_in content.old.kept texts.now) }
    requires fits { offset_of content.old.kept.stack.places + n < 2 ^ 64 }
    ensures takes { TakesOne texts.now n (separator_of content.old byte) content.old content.new told.old.items told.new.items result }
    ensures alike { StaysAlike content.old content.new }
    ensures content { IsContent content.new }
{
    match of_separator(around, byte) {
        Role::Data => false,
        Role::RecordEnd => try_record_end(alloc, content, texts, n, told),
        Role::RecordStart => {
            let _ = note_next(content, n, Item::RecordStart);
            true
        }
        Role::Ignored => {
            pass_next(content, n);
            true
        }
    }
}

/// A record end where there is `#PCDATA` (7.6.1).
#[inline(always)]
fn try_record_end(
    alloc: Global,
    content: &mut Content,
    texts: &Texts,
    n: u64,
    told: &mut Vec<Event>,
) -> bool
    requires content { IsContent content.old }
    requires some { 0 < n }
    requires within { n ≤ length (rest_in content.old.kept texts.now) }
    requires fits { offset_of content.old.kept.stack.places + n < 2 ^ 64 }
    ensures takes { TakesOne texts.now n (record_end_in content.old) content.old content.new told.old.items told.new.items result }
    ensures alike { StaysAlike content.old content.new }
    ensures content { IsContent content.new }
{
    if content.inside.takes_record_end() {
        return try_live_end(alloc, content, texts, n, told);
    }
    let _ = note_next(content, n, Item::RecordEnd);
    true
}

/// A record end that isn't ignored for what stands before it, and so is content (7.6.1).
#[inline(never)]
fn try_live_end(
    alloc: Global,
    content: &mut Content,
    texts: &Texts,
    n: u64,
    told: &mut Vec<Event>,
) -> bool
    requires content { IsContent content.old }
    requires some { 0 < n }
    requires within { n ≤ length (rest_in content.old.kept texts.now) }
    requires fits { offset_of content.old.kept.stack.places + n < 2 ^ 64 }
    requires live { takes_end (facts_of content.old.inside.elements) ≡ true }
    ensures takes { TakesOne texts.now n (Re true) content.old content.new told.old.items told.new.items result }
    ensures alike { StaysAlike content.old content.new }
    ensures content { IsContent content.new }
{
    match judge_plain(alloc, content, Visible::Chars) {
        Some(run) => {
            if let Err(_) = make_room(told, run.room() + 1) {
                return false;
            }
            let released = take_item(content, n, Item::RecordEnd, run, told);
            put_out(told, released);
            true
        }
        None => false,
    }
}
