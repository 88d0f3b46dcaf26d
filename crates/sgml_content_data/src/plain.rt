// Content before which it is plain that no tag is left out.
ghost use Rattle.std.specs.Prelude.{◌≡◌, ◌+◌, ◌^◌, ◌<◌, ◌≤◌, true, length, take};
ghost use Rattle.std.specs.List.{list_all};
ghost use Rattle.sgml_entity.specs.Stack.{offset_of};
ghost use Rattle.sgml_text.specs.Units.{characters};
ghost use Rattle.sgml_infer.specs.theory_reading.Pieces.{Re};
ghost use Rattle.sgml_inside.specs.Inside.{facts_of};
ghost use Rattle.sgml_inside.specs.records.Facts.{takes_end};
ghost use Rattle.sgml_prolog_steps.specs.Found.{rest_in};
ghost use Rattle.sgml_content_steps.specs.Content.{IsContent};
ghost use Rattle.sgml_content_data.specs.Roles.{around_of, is_data_there};
ghost use Rattle.sgml_content_data.specs.Steps.{TakesPiece, TakesStretch};

use crate::passing::see_end;
use crate::taking::{take_data, take_item, take_live_end, take_stretch};
use crate::telling::put_out;
use sgml_content_steps::{Content, judge_plain, make_room};
use sgml_entity::Texts;
use sgml_events::{Event, Stretch};
use sgml_infer::Visible;
use sgml_inside::Item;
use sgml_prolog_steps::Stop;
use std::alloc::Global;

/// A stretch of data characters of a byte each, told as they stand, at the front of so many characters that stand there.
#[inline(always)]
pub(crate) fn take_plain_stretch(
    alloc: Global,
    content: &mut Content,
    texts: &Texts,
    n: u64,
    whole: u64,
    stretch: Stretch,
    told: &mut Vec<Event>,
    stop: &mut Stop,
) -> bool
    requires content { IsContent content.old }
    requires some { 0 < n }
    requires front { n ≤ whole }
    requires within { whole ≤ length (rest_in content.old.kept texts.now) }
    requires fits { offset_of content.old.kept.stack.places + whole < 2 ^ 64 }
    requires data { list_all (is_data_there (around_of content.old)) (take n (rest_in content.old.kept texts.now)) ≡ true }
    requires stretch { stretch ≡ characters (take n (rest_in content.old.kept texts.now)) }
    ensures { TakesStretch texts.now whole content.old content.new told.old told.new result stop.new }
{
    match judge_plain(alloc, content, Visible::Chars) {
        Some(run) => match take_data(content, n, run, stretch, told) {
            Ok(()) => true,
            Err(_) => {
                *stop = Stop::Memory;
                false
            }
        },
        None => take_stretch(alloc, content, texts, whole, told, stop),
    }
}

/// A record end that isn't ignored for what stands before it (7.6.1).
#[inline(always)]
pub(crate) fn take_plain_end(
    alloc: Global,
    content: &mut Content,
    texts: &Texts,
    n: u64,
    told: &mut Vec<Event>,
    stop: &mut Stop,
) -> bool
    requires content { IsContent content.old }
    requires some { 0 < n }
    requires within { n ≤ length (rest_in content.old.kept texts.now) }
    requires live { takes_end (facts_of content.old.inside.elements) ≡ true }
    ensures { TakesPiece texts.now n (Re true) content.old content.new told.old told.new result stop.new }
{
    match judge_plain(alloc, content, Visible::Chars) {
        Some(run) => {
            if let Err(_) = make_room(told, run.room() + 1) {
                *stop = Stop::Memory;
                return false;
            }
            see_end(content, texts, n);
            let released = take_item(content, n, Item::RecordEnd, run, told);
            put_out(told, released);
            true
        }
        None => take_live_end(alloc, content, texts, n, told, stop),
    }
}
