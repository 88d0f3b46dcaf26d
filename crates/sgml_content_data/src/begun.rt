// Data behind tags that are left out before it, where content is scanned without NET and maps.
ghost use Rattle.std.specs.Prelude.{◌≡◌, ◌+◌, ◌^◌, ◌<◌, ◌≤◌, true, length, take};
ghost use Rattle.std.specs.List.{list_all};
ghost use Rattle.sgml_text.specs.Units.{characters};
ghost use Rattle.sgml_entity.specs.Stack.{offset_of};
ghost use Rattle.sgml_prolog_steps.specs.Found.{rest_in};
ghost use Rattle.sgml_content_steps.specs.Content.{IsContent};
ghost use Rattle.sgml_content_data.specs.Roles.{around_of, in_text, is_data_there};
ghost use Rattle.sgml_content_data.specs.Alike.{TakesBegun};

use crate::passing::pass_next;
use crate::taking::{goes_on, take_item};
use crate::telling::tell_data;
use sgml_content_steps::{Content, judge, make_room};
use sgml_entity::Texts;
use sgml_events::{Event, Stretch};
use sgml_infer::Visible;
use sgml_inside::Item;
use std::alloc::Global;

/// Data of so many bytes, told as it stands where it goes on behind its first character, else that character alone.
#[inline(always)]
pub(crate) fn take_begun(
    alloc: Global,
    content: &mut Content,
    texts: &Texts,
    n: u64,
    first: Stretch,
    all: Stretch,
    told: &mut Vec<Event>,
) -> bool
    requires content { IsContent content.old }
    requires some { 0 < n }
    requires within { n ≤ length (rest_in content.old.kept texts.now) }
    requires fits { offset_of content.old.kept.stack.places + n < 2 ^ 64 }
    requires begins { list_all (is_data_there (around_of content.old)) (take 1 (rest_in content.old.kept texts.now)) ≡ true }
    requires data { list_all (is_data_there in_text) (take n (rest_in content.old.kept texts.now)) ≡ true }
    requires first { first ≡ characters (take 1 (rest_in content.old.kept texts.now)) }
    requires all { all ≡ characters (take n (rest_in content.old.kept texts.now)) }
    ensures takes { TakesBegun texts.now n content.old content.new told.old.items told.new.items result }
    ensures content { IsContent content.new }
{
    let run = match judge(alloc, content, texts, Visible::Chars) {
        Ok(run) => run,
        Err(_) => return false,
    };
    if let Err(_) = make_room(told, run.room() + 2) {
        return false;
    }
    let released = take_item(content, 1, Item::Data, run, told);
    if n > 1 && goes_on(content) {
        pass_next(content, n - 1);
        tell_data(told, released, all);
        return true;
    }
    tell_data(told, released, first);
    true
}
