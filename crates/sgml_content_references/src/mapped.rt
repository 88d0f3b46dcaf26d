// Text where a short reference map is in force, before which it is plain that no tag is left out.
ghost use Rattle.std.specs.Prelude.{◌≡◌, ◌<◌, ◌≤◌, false, length, take, IsTrue};
ghost use Rattle.sgml_text.specs.Units.{characters};
ghost use Rattle.sgml_prolog_steps.specs.Found.{rest_in};
ghost use Rattle.sgml_content_steps.specs.Content.{IsContent};
ghost use Rattle.sgml_content_steps.specs.Plainly.{IsScannedIn};
ghost use Rattle.sgml_content_data.specs.Roles.{around_of, in_text};
ghost use Rattle.sgml_content_references.specs.Mapped.{mapped_state, AreTextThere, BeginsString, StartsOwn, IsOwnString, IsTextEnd, TakesMapped, TakesMappedRow};

use crate::mapping::is_mapped;
use crate::taking::take_told;
use sgml_content_data::look_around;
use sgml_content_steps::{Content, judge_plain, rest_at};
use sgml_delim::Mode;
use sgml_entity::Texts;
use sgml_events::{Event, Stretch};
use sgml_infer::Visible;
use sgml_scan::{ScanState, text_length};
use sgml_shortref::{Matched, begins_string, longest};
use std::alloc::Global;

/// Content without NET and maps.
const PLAIN: ScanState = ScanState {
    mode: Mode::Con,
    net: false,
    maps: false,
};

/// Text at the front of what is unread, where content is scanned without NET and a short reference map is in force (11.6):
/// how many bytes it has. Taken are characters, and strings of a byte each that the map doesn't name, before which it is
/// plain that no tag is left out; else 0 tells that all is as it was, and that what stands there is to be looked at.
#[inline(never)]
pub fn try_mapped_text(
    alloc: Global,
    content: &mut Content,
    texts: &Texts,
    told: &mut Vec<Event>,
) -> u64
    requires content { IsContent content.old }
    requires scanned { IsScannedIn mapped_state content.old }
    ensures takes { TakesMapped texts.now content.old content.new told.old.items told.new.items result }
    ensures content { IsContent content.new }
{
    if !is_in_text(content) {
        return 0;
    }
    let rest = rest_at(content, texts);
    let n = length_there(content, rest);
    if n == 0 {
        return 0;
    }
    match Stretch::of_bytes(alloc, &rest[..n]) {
        Ok(stretch) => if take_row(alloc, content, texts, n as u64, stretch, told) {
            n as u64
        } else {
            0
        },
        Err(_) => 0,
    }
}

/// Whether `#PCDATA` is around, and no marked section of characters.
fn is_in_text(content: &Content) -> bool
    requires { IsContent content.now }
    ensures { IsTrue result → around_of content.now ≡ in_text }
{
    let around = look_around(content);
    around.text && !around.section
}

/// How many characters, and strings of a byte each that the map in force doesn't name, the text begins with, if it is told
/// by bytes alone where they end.
#[inline(always)]
fn length_there(content: &Content, text: &[u8]) -> usize
    ensures within { result ≤ length text.now }
    ensures each { AreTextThere content.now text.now result }
    ensures ends { IsTextEnd content.now text.now result }
{
    let whole = text_length(content.kept.dtd.syntax(), PLAIN, text);
    for i in 0..whole {
        if !goes_on(content, &text[i..]) {
            return i;
        }
    }
    whole
}

/// Whether no short reference string stands there, but for one of one byte that the map in force doesn't name.
#[inline(always)]
fn goes_on(content: &Content, text: &[u8]) -> bool
    ensures own { IsTrue result → StartsOwn content.now text.now }
    ensures other { result ≡ false → BeginsString text.now }
{
    match text {
        [] => true,
        [b, ..] => !begins_string(*b) || is_own_string(content, text),
    }
}

/// Whether a string of one byte stands there, whatever follows, that the map in force doesn't name.
#[inline(always)]
fn is_own_string(content: &Content, text: &[u8]) -> bool
    ensures { IsTrue result → IsOwnString content.now text.now }
{
    match longest(text, 0, false) {
        Matched::String(number, length) => length == 1 && !is_mapped(content, number),
        Matched::Plain => false,
        Matched::NeedMore => false,
    }
}

/// Takes so many bytes that are data, where it is plain that no tag is left out before them.
#[inline(always)]
fn take_row(
    alloc: Global,
    content: &mut Content,
    texts: &Texts,
    n: u64,
    stretch: Stretch,
    told: &mut Vec<Event>,
) -> bool
    requires content { IsContent content.old }
    requires around { around_of content.old ≡ in_text }
    requires some { 0 < n }
    requires within { n ≤ length (rest_in content.old.kept texts.now) }
    requires stretch { stretch ≡ characters (take n (rest_in content.old.kept texts.now)) }
    requires each { AreTextThere content.old (rest_in content.old.kept texts.now) n }
    requires ends { IsTextEnd content.old (rest_in content.old.kept texts.now) n }
    ensures takes { TakesMappedRow texts.now content.old content.new told.old.items told.new.items result }
    ensures content { IsContent content.new }
{
    match judge_plain(alloc, content, Visible::Chars) {
        Some(run) => match take_told(content, texts, n, run, Some(Event::Chars(stretch)), told) {
            Ok(()) => true,
            Err(_) => false,
        },
        None => false,
    }
}
