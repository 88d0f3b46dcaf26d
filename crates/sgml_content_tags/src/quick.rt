// Tags taken in runs: start-tags with what they specify, and end-tags that are a name alone, where they may stand as
// they come.
ghost use Rattle.std.specs.Prelude.{◌≡◌, ◌≤◌, ◌<◌, ◌+◌, ◌-◌, ◌++◌, ◌∷◌, [], ◌^◌, length, take, false, IfOk, IfSome, IsTrue, None, Some, OnErr, OnOk, slice_get};
ghost use Rattle.std.specs.Str.{bytes_eq};
ghost use Rattle.sgml_entity.specs.Stack.{offset_of};
ghost use Rattle.sgml_names.specs.Naming.{general_name};
ghost use Rattle.sgml_markup.specs.declared.kinds.TokenKind.TheVariants as kind;
ghost use Rattle.sgml_dtd.specs.dtd_elements.Types.{types};
ghost use Rattle.sgml_events.specs.declared.event.Event.TheVariants as event;
ghost use Rattle.sgml_infer.specs.Tables.{name_at, IsNumber};
ghost use Rattle.sgml_scan.specs.Lone.{IsLoneTag};
ghost use Rattle.sgml_scan.specs.StartTags.{IsStartTag};
ghost use Rattle.sgml_starts.specs.Starts.{list_in, StandsThere};
ghost use Rattle.sgml_prolog_steps.specs.Found.{moved_on, rest_in};
ghost use Rattle.sgml_content_steps.specs.theory_starts.There.{input_at};
ghost use Rattle.sgml_content_steps.specs.Content.{IsContent};
ghost use Rattle.sgml_content_steps.specs.Steps.{HasRoomFor};
ghost use Rattle.sgml_content_tags.specs.Ends.{closed};
ghost use Rattle.sgml_content_tags.specs.Named.{IsAlone};
ghost use Rattle.sgml_content_tags.specs.Quick.{name_part, number_spelled, IsNamedThere, IsLoneThere, IsSpecifiedSo, TellsInContent};
ghost use Rattle.sgml_content_steps.specs.Plainly.{LeavesAll};
ghost use Rattle.sgml_content_tags.specs.Values.{after_tag, HasValuesOf};

use crate::beginning::{Begun, take_begun};
use crate::names::is_name_of;
use crate::values::{is_listless, no_values, values_of};
use sgml_content_steps::{
    Content, advance, innermost, judge, judge_plain, make_room, place_of, rest_at, take_run, tell,
};
use sgml_entity::Texts;
use sgml_events::Event;
use sgml_infer::Visible;
use sgml_scan::{StartTag, lone_end, lone_start, start_tag};
use sgml_starts::{StartError, StartValues};
use sgml_text::Memory;
use std::alloc::Global;

/// A tag of so many bytes, of the type of this number.
#[derive(Clone, Copy)]
pub(crate) struct PlainTag {
    pub(crate) length: u64,
    pub(crate) number: u32,
}

// What a start-tag specifies.
#[derive(Clone, Copy)]
pub(crate) enum Specifies {
    // Nothing, and its type has no attribute list.
    Nothing,
    // Nothing.
    Defaults,
    // What stands in it.
    InTag,
}

/// A start-tag, taken where it plainly may stand and has values: how many bytes it has. In content it is the token that
/// stands there, whatever NET and maps are. 0 tells that nothing was taken, and that what stands there is to be looked at.
#[inline(always)]
pub fn try_start(alloc: Global, content: &mut Content, texts: &Texts, told: &mut Vec<Event>) -> u64
    requires content { IsContent content.old }
    ensures went { 0 < result → TellsInContent texts.now content.old content.new told.old.items told.new.items }
    ensures left { result ≡ 0 → LeavesAll content.old content.new told.old.items told.new.items }
    ensures content { IsContent content.new }
{
    match lone_there(content, texts) {
        Some(tag) => try_lone_start(alloc, content, texts, tag, told),
        None => try_other_start(alloc, content, texts, told),
    }
}

// One that is a name alone.
#[inline(always)]
fn try_lone_start(
    alloc: Global,
    content: &mut Content,
    texts: &Texts,
    tag: PlainTag,
    told: &mut Vec<Event>,
) -> u64
    requires content { IsContent content.old }
    requires tag { IsLoneThere content.old texts.now kind.StartTag 1 tag.length tag.number }
    ensures went { 0 < result → TellsInContent texts.now content.old content.new told.old.items told.new.items }
    ensures left { result ≡ 0 → LeavesAll content.old content.new told.old.items told.new.items }
    ensures content { IsContent content.new }
{
    if take_lone_start(alloc, content, texts, tag, told) {
        tag.length
    } else {
        0
    }
}

// One that may specify attributes.
#[inline(never)]
fn try_other_start(
    alloc: Global,
    content: &mut Content,
    texts: &Texts,
    told: &mut Vec<Event>,
) -> u64
    requires content { IsContent content.old }
    ensures went { 0 < result → TellsInContent texts.now content.old content.new told.old.items told.new.items }
    ensures left { result ≡ 0 → LeavesAll content.old content.new told.old.items told.new.items }
    ensures content { IsContent content.new }
{
    match start_there(content, texts) {
        Some(tag) => if take_there(alloc, content, texts, tag, Specifies::InTag, told) {
            tag.length
        } else {
            0
        },
        None => 0,
    }
}

/// An end-tag that is a name alone, taken in the same way where it ends the innermost element.
#[inline(always)]
pub fn try_lone_end(
    alloc: Global,
    content: &mut Content,
    texts: &Texts,
    told: &mut Vec<Event>,
) -> u64
    requires content { IsContent content.old }
    ensures went { 0 < result → TellsInContent texts.now content.old content.new told.old.items told.new.items }
    ensures left { result ≡ 0 → LeavesAll content.old content.new told.old.items told.new.items }
    ensures content { IsContent content.new }
{
    match end_there(content, texts) {
        Some(tag) => if take_lone_end(alloc, content, texts, tag, told) {
            tag.length
        } else {
            0
        },
        None => 0,
    }
}

// The start-tag that stands there, where it is a name alone.
#[inline(always)]
fn lone_there(content: &Content, texts: &Texts) -> Option<PlainTag>
    requires content { IsContent content.now }
    ensures { IfSome result (λ tag. IsLoneThere content.now texts.now kind.StartTag 1 tag.length tag.number) }
{
    let rest = rest_at(content, texts);
    let n = lone_length(content, rest);
    if n == 0 {
        return None;
    }
    let tag = &rest[..n];
    match number_spelled(content, &tag[1..n - 1]) {
        Ok(Some(number)) => Some(PlainTag {
            length: n as u64,
            number,
        }),
        Ok(None) => None,
        Err(_) => None,
    }
}

// The start-tag that stands there, which may specify attributes.
#[inline(always)]
fn start_there(content: &Content, texts: &Texts) -> Option<PlainTag>
    requires content { IsContent content.now }
    ensures { IfSome result (λ tag. IsNamedThere content.now texts.now kind.StartTag tag.length tag.number) }
{
    let rest = rest_at(content, texts);
    let tag = match start_at(content, rest) {
        Some(tag) => tag,
        None => return None,
    };
    let whole = &rest[..tag.length];
    match number_spelled(content, &whole[1..1 + tag.name]) {
        Ok(Some(number)) => Some(PlainTag {
            length: tag.length as u64,
            number,
        }),
        Ok(None) => None,
        Err(_) => None,
    }
}

// The end-tag that stands there, where it is the name of the innermost element alone.
#[inline(always)]
fn end_there(content: &Content, texts: &Texts) -> Option<PlainTag>
    requires content { IsContent content.now }
    ensures { IfSome result (λ tag. IsLoneThere content.now texts.now kind.EndTag 2 tag.length tag.number) }
{
    let rest = rest_at(content, texts);
    let n = end_length(content, rest);
    if n == 0 {
        return None;
    }
    let Some(number) = innermost(content) else {
        return None;
    };
    let tag = &rest[..n];
    if is_named(content, number, &tag[2..n - 1]) {
        Some(PlainTag {
            length: n as u64,
            number,
        })
    } else {
        None
    }
}

#[inline(always)]
fn lone_length(content: &Content, rest: &[u8]) -> usize
    ensures within { result ≤ length rest.now }
    ensures tag { 0 < result → IsLoneTag content.now.kept.doctype.syntax kind.StartTag 1 rest.now result }
{
    lone_start(content.kept.dtd.syntax(), rest)
}

#[inline(always)]
fn start_at(content: &Content, rest: &[u8]) -> Option<StartTag>
    ensures { IfSome result (IsStartTag content.now.kept.doctype.syntax rest.now) }
{
    start_tag(content.kept.dtd.syntax(), rest)
}

#[inline(always)]
fn end_length(content: &Content, rest: &[u8]) -> usize
    ensures within { result ≤ length rest.now }
    ensures tag { 0 < result → IsLoneTag content.now.kept.doctype.syntax kind.EndTag 2 rest.now result }
{
    lone_end(content.kept.dtd.syntax(), rest)
}

// The number of the element type whose name is spelled so.
#[inline(always)]
fn number_spelled(content: &Content, name: &[u8]) -> Result<Option<u32>, Memory>
    requires some { 0 < length name.now }
    ensures { IfOk result (λ number. number ≡ number_spelled content.now name.now) }
{
    content.kept.dtd.element_spelled(name)
}

// Whether the name that is spelled so is that of the element type.
#[inline(always)]
fn is_named(content: &Content, number: u32, name: &[u8]) -> bool
    requires { IsNumber content.now.kept.doctype number }
    ensures { result ≡ bytes_eq (general_name content.now.kept.doctype.syntax name.now) (name_at content.now.kept.doctype number) }
{
    is_name_of(&content.kept.dtd, number, name)
}

// Takes the start-tag, where it may stand and has values.
#[inline(always)]
fn take_lone_start(
    alloc: Global,
    content: &mut Content,
    texts: &Texts,
    tag: PlainTag,
    told: &mut Vec<Event>,
) -> bool
    requires content { IsContent content.old }
    requires tag { IsLoneThere content.old texts.now kind.StartTag 1 tag.length tag.number }
    ensures went { IsTrue result → TellsInContent texts.now content.old content.new told.old.items told.new.items }
    ensures left { result ≡ false → LeavesAll content.old content.new told.old.items told.new.items }
    ensures content { IsContent content.new }
{
    if !is_listless(content, tag.number) {
        return take_listed(alloc, content, texts, tag, told);
    }
    if let Err(_) = make_room(told, 3) {
        return false;
    }
    let place = place_of(content);
    let run = match judge_plain(alloc, content, Visible::Start(tag.number)) {
        Some(run) => run,
        None => return take_lone_behind(alloc, content, texts, tag, told),
    };
    let start = pass_lone(alloc, content, texts, tag);
    let begun = Begun {
        element: tag.number,
        place,
        included: run.is_included(),
        net: false,
    };
    take_begun(content, begun, run, start, told);
    true
}

// The same, with the tags that are left out before it.
#[inline(never)]
fn take_lone_behind(
    alloc: Global,
    content: &mut Content,
    texts: &Texts,
    tag: PlainTag,
    told: &mut Vec<Event>,
) -> bool
    requires content { IsContent content.old }
    requires tag { IsLoneThere content.old texts.now kind.StartTag 1 tag.length tag.number }
    requires listless { list_in content.old.kept.doctype (slice_get (types content.old.kept.doctype.elements) tag.number) ≡ None }
    ensures went { IsTrue result → TellsInContent texts.now content.old content.new told.old.items told.new.items }
    ensures left { result ≡ false → LeavesAll content.old content.new told.old.items told.new.items }
    ensures content { IsContent content.new }
{
    take_there(alloc, content, texts, tag, Specifies::Nothing, told)
}

// The same, where its type has an attribute list.
#[inline(never)]
fn take_listed(
    alloc: Global,
    content: &mut Content,
    texts: &Texts,
    tag: PlainTag,
    told: &mut Vec<Event>,
) -> bool
    requires content { IsContent content.old }
    requires tag { IsLoneThere content.old texts.now kind.StartTag 1 tag.length tag.number }
    ensures went { IsTrue result → TellsInContent texts.now content.old content.new told.old.items told.new.items }
    ensures left { result ≡ false → LeavesAll content.old content.new told.old.items told.new.items }
    ensures content { IsContent content.new }
{
    take_there(alloc, content, texts, tag, Specifies::Defaults, told)
}

// Takes a start-tag, with the tags that are left out before it, where it may stand and has values.
#[inline(always)]
fn take_there(
    alloc: Global,
    content: &mut Content,
    texts: &Texts,
    tag: PlainTag,
    specifies: Specifies,
    told: &mut Vec<Event>,
) -> bool
    requires content { IsContent content.old }
    requires tag { IsNamedThere content.old texts.now kind.StartTag tag.length tag.number }
    requires specifies { IsSpecifiedSo content.old texts.now tag.length tag.number specifies }
    ensures went { IsTrue result → TellsInContent texts.now content.old content.new told.old.items told.new.items }
    ensures left { result ≡ false → LeavesAll content.old content.new told.old.items told.new.items }
    ensures content { IsContent content.new }
{
    let place = place_of(content);
    let run = match judge(alloc, content, texts, Visible::Start(tag.number)) {
        Ok(run) => run,
        Err(_) => return false,
    };
    if let Err(_) = make_room(told, run.room() + 3) {
        return false;
    }
    let start = match values_there(alloc, content, texts, tag, specifies) {
        Ok(start) => start,
        Err(_) => return false,
    };
    let begun = Begun {
        element: tag.number,
        place,
        included: run.is_included(),
        net: false,
    };
    take_begun(content, begun, run, start, told);
    true
}

// Reads over the start-tag, and gives its values.
#[inline(always)]
fn values_there(
    alloc: Global,
    content: &mut Content,
    texts: &Texts,
    tag: PlainTag,
    specifies: Specifies,
) -> Result<StartValues, StartError>
    requires content { IsContent content.old }
    requires tag { IsNamedThere content.old texts.now kind.StartTag tag.length tag.number }
    requires specifies { IsSpecifiedSo content.old texts.now tag.length tag.number specifies }
    ensures ok { IfOk result (λ start. HasValuesOf content.old texts.now tag.number (Some tag.length) start content.new.currents) }
    ensures after { OnOk result (content.new ≡ after_tag content.old texts.now (Some tag.length) content.new.currents) }
    ensures left { OnErr result (content.new ≡ content.old) }
{
    match specifies {
        Specifies::Nothing => Ok(pass_lone(alloc, content, texts, tag)),
        Specifies::Defaults => defaults_there(alloc, content, texts, tag),
        Specifies::InTag => values_of(alloc, content, texts, tag.number, Some(tag.length)),
    }
}

// The same of one that is a name alone.
#[inline(always)]
fn defaults_there(
    alloc: Global,
    content: &mut Content,
    texts: &Texts,
    tag: PlainTag,
) -> Result<StartValues, StartError>
    requires content { IsContent content.old }
    requires tag { IsNamedThere content.old texts.now kind.StartTag tag.length tag.number }
    requires alone { IsAlone content.old.kept.doctype.syntax (take tag.length (rest_in content.old.kept texts.now)) (name_part 1 tag.length) }
    ensures ok { IfOk result (λ start. HasValuesOf content.old texts.now tag.number (Some tag.length) start content.new.currents) }
    ensures after { OnOk result (content.new ≡ after_tag content.old texts.now (Some tag.length) content.new.currents) }
    ensures left { OnErr result (content.new ≡ content.old) }
{
    match values_of(alloc, content, texts, tag.number, None) {
        Ok(start) => {
            advance(content, tag.length);
            Ok(start)
        }
        Err(error) => Err(error),
    }
}

// Reads over it, and gives its values, which are none.
#[inline(always)]
fn pass_lone(alloc: Global, content: &mut Content, texts: &Texts, tag: PlainTag) -> StartValues
    requires listless { list_in content.old.kept.doctype (slice_get (types content.old.kept.doctype.elements) tag.number) ≡ None }
    requires stands { StandsThere (input_at content.old.kept texts.now) (Some tag.length) }
    requires fits { offset_of content.old.kept.stack.places + tag.length < 2 ^ 64 }
    requires alone { IsAlone content.old.kept.doctype.syntax (take tag.length (rest_in content.old.kept texts.now)) (name_part 1 tag.length) }
    ensures ok { HasValuesOf content.old texts.now tag.number (Some tag.length) result content.new.currents }
    ensures after { content.new ≡ after_tag content.old texts.now (Some tag.length) content.new.currents }
{
    advance(content, tag.length);
    no_values(alloc)
}

// Takes the end-tag, where it plainly may stand.
#[inline(always)]
fn take_lone_end(
    alloc: Global,
    content: &mut Content,
    texts: &Texts,
    tag: PlainTag,
    told: &mut Vec<Event>,
) -> bool
    requires content { IsContent content.old }
    requires tag { IsLoneThere content.old texts.now kind.EndTag 2 tag.length tag.number }
    ensures went { IsTrue result → TellsInContent texts.now content.old content.new told.old.items told.new.items }
    ensures left { result ≡ false → LeavesAll content.old content.new told.old.items told.new.items }
    ensures content { IsContent content.new }
{
    if let Err(_) = make_room(told, 1) {
        return false;
    }
    let place = place_of(content);
    let run = match judge_plain(alloc, content, Visible::EndTag(tag.number)) {
        Some(run) => run,
        None => return false,
    };
    take_run(content, place, Visible::EndTag(tag.number), run, told);
    close_lone(content, tag, told);
    true
}

// The innermost element ends, which is of its type.
#[inline(always)]
fn close_lone(content: &mut Content, tag: PlainTag, told: &mut Vec<Event>)
    requires stacked { 0 < length content.old.kept.stack.places }
    requires fits { offset_of content.old.kept.stack.places + tag.length < 2 ^ 64 }
    requires room { HasRoomFor 1 told.old }
    ensures content { content.new ≡ closed tag.length tag.number content.old }
    ensures told { told.new.items ≡ told.old.items ++ event.End tag.number ∷ [] }
{
    tell(
        told,
        Event::End {
            element: tag.number,
        },
    );
    content.inside.close(tag.number);
    advance(content, tag.length);
}
