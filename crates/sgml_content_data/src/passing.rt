// Reading over bytes, and what that notes.
ghost use Rattle.std.specs.Prelude.{◌≡◌, ◌+◌, ◌^◌, ◌<◌, ◌≤◌, None, Some, length};
ghost use Rattle.sgml_entity.specs.Stack.{offset_of};
ghost use Rattle.sgml_infer.specs.theory_reading.Events.{releases_by};
ghost use Rattle.sgml_inside.specs.Inside.{item_of, facts_of};
ghost use Rattle.sgml_prolog_steps.specs.Found.{rest_in};
ghost use Rattle.sgml_content_data.specs.Taking.{with_item};

use sgml_content_steps::{Content, advance, rest_at};
use sgml_entity::Texts;
use sgml_inside::Item;

/// Reads over so many bytes that are nothing to the record ends.
#[inline(always)]
pub(crate) fn pass(content: &mut Content, texts: &Texts, n: u64)
    requires stacked { 0 < length content.old.kept.stack.places }
    requires within { n ≤ length (rest_in content.old.kept texts.now) }
    ensures { content.new ≡ with_item n None content.old }
{
    see_end(content, texts, n);
    pass_next(content, n);
}

/// As `pass` does, where it is known that their end is a place.
#[inline(always)]
pub(crate) fn pass_next(content: &mut Content, n: u64)
    requires stacked { 0 < length content.old.kept.stack.places }
    requires fits { offset_of content.old.kept.stack.places + n < 2 ^ 64 }
    ensures { content.new ≡ with_item n None content.old }
{
    advance(content, n);
}

/// Reads over so many bytes that are an item: whether a record end that waits is data directly before it.
#[inline(always)]
pub(crate) fn note(content: &mut Content, texts: &Texts, n: u64, item: Item) -> bool
    requires stacked { 0 < length content.old.kept.stack.places }
    requires within { n ≤ length (rest_in content.old.kept texts.now) }
    ensures content { content.new ≡ with_item n (Some (item_of item)) content.old }
    ensures released { result ≡ releases_by (facts_of content.old.inside.elements) (item_of item) }
{
    see_end(content, texts, n);
    note_next(content, n, item)
}

/// As `note` does, where it is known that their end is a place.
#[inline(always)]
pub(crate) fn note_next(content: &mut Content, n: u64, item: Item) -> bool
    requires stacked { 0 < length content.old.kept.stack.places }
    requires fits { offset_of content.old.kept.stack.places + n < 2 ^ 64 }
    ensures content { content.new ≡ with_item n (Some (item_of item)) content.old }
    ensures released { result ≡ releases_by (facts_of content.old.inside.elements) (item_of item) }
{
    advance(content, n);
    content.inside.note(item)
}

/// The end of so many bytes that stand there is a place.
#[inline(always)]
pub(crate) fn see_end(content: &Content, texts: &Texts, n: u64)
    requires stacked { 0 < length content.now.kept.stack.places }
    requires within { n ≤ length (rest_in content.now.kept texts.now) }
    ensures { offset_of content.now.kept.stack.places + n < 2 ^ 64 }
{
    let _ = rest_at(content, texts);
}
