// Start-tags.
ghost use Rattle.std.specs.Prelude.{◌≡◌, ◌<◌, ◌≤◌, length};
ghost use Rattle.sgml_markup.specs.declared.kinds.TokenKind.TheVariants as kind;
ghost use Rattle.sgml_theory_spelling.specs.theory_reading.Facets.{is_slash};
ghost use Rattle.sgml_theory_spelling.specs.Tags.{how_of};
ghost use Rattle.sgml_prolog_steps.specs.Found.{moved_on, rest_in};
ghost use Rattle.sgml_content_steps.specs.Content.{IsContent};
ghost use Rattle.sgml_content_steps.specs.Steps.{Tells, TellsIn};

use crate::beginning::{Begun, take_begun};
use crate::empty::empty_start;
use crate::names::{lone_in, number_named, tag_at};
use crate::values::{stop_for, values_in, values_of};
use sgml_content_steps::{Content, judge, make_room, place_of};
use sgml_declared::Options;
use sgml_entity::Texts;
use sgml_events::Event;
use sgml_infer::Visible;
use sgml_prolog_steps::{Stop, read_over};
use sgml_scan::Token;
use sgml_starts::StartError;
use sgml_text::Reason;
use std::alloc::Global;

/// A start-tag (7.4): the element begins, or ends at once where its type is declared EMPTY or an attribute is
/// specified that stands for the content (11.3.4).
#[inline(never)]
pub fn take_start(
    options: &Options,
    alloc: Global,
    content: &mut Content,
    texts: &Texts,
    token: Token,
    told: &mut Vec<Event>,
) -> Result<(), Stop>
    requires content { IsContent content.old }
    requires within { token.length ≤ length (rest_in content.old.kept texts.now) }
    requires kind { token.kind ≡ kind.StartTag }
    ensures { TellsIn options.now texts.now token content.old content.new told.old.items told.new.items result }
{
    let place = place_of(content);
    let tag = tag_at(content, texts, token.length);
    let net = ends_in_slash(tag);
    let lone = lone_in(content, tag);
    let number = match number_named(content, tag, lone) {
        Ok(Some(number)) => number,
        Ok(None) => return Err(Stop::Refused(Reason::Undefined)),
        Err(_) => return Err(Stop::Memory),
    };
    let run = match judge(alloc, content, texts, Visible::Start(number)) {
        Ok(run) => run,
        Err(stop) => return Err(stop),
    };
    if let Err(_) = make_room(told, run.room() + 3) {
        return Err(Stop::Memory);
    }
    let start = match values_in(alloc, content, texts, number, token.length, lone) {
        Ok(start) => start,
        Err(error) => return Err(stop_for(options, alloc, &content.kept, error)),
    };
    let begun = Begun {
        element: number,
        place,
        included: run.is_included(),
        net,
    };
    take_begun(content, begun, run, start, told);
    Ok(())
}

// NET ends the tag, and is enabled by it (7.4.1.3).
#[inline(always)]
fn ends_in_slash(tag: &[u8]) -> bool
    ensures { result ≡ is_slash (how_of tag.now) }
{
    match tag.last() {
        Some(b) => *b == b'/',
        None => false,
    }
}

/// An empty start-tag (7.4.1.1): it starts an element of the type of the innermost open one, or where OMITTAG is NO
/// of the one that ended last.
#[inline(never)]
pub fn take_empty_start(
    alloc: Global,
    content: &mut Content,
    texts: &Texts,
    token: Token,
    told: &mut Vec<Event>,
) -> Result<(), Stop>
    requires content { IsContent content.old }
    requires within { token.length ≤ length (rest_in content.old.kept texts.now) }
    requires kind { token.kind ≡ kind.EmptyStart }
    ensures { Tells texts.now token content.old content.new told.old.items told.new.items result }
{
    let place = place_of(content);
    let Some(number) = empty_start(content) else {
        return Err(Stop::Refused(Reason::Undefined));
    };
    let run = match judge(alloc, content, texts, Visible::Start(number)) {
        Ok(run) => run,
        Err(stop) => return Err(stop),
    };
    if let Err(_) = make_room(told, run.room() + 3) {
        return Err(Stop::Memory);
    }
    let start = match values_of(alloc, content, texts, number, None) {
        Ok(start) => start,
        Err(StartError::Refused(reason)) => return Err(Stop::Refused(reason)),
        Err(StartError::Wanted(_)) => unreachable!(),
        Err(StartError::Memory) => return Err(Stop::Memory),
    };
    pass(content, texts, token.length);
    let begun = Begun {
        element: number,
        place,
        included: run.is_included(),
        net: false,
    };
    take_begun(content, begun, run, start, told);
    Ok(())
}

/// Reads over a tag of so many bytes.
pub(crate) fn pass(content: &mut Content, texts: &Texts, n: u64)
    requires stacked { 0 < length content.old.kept.stack.places }
    requires within { n ≤ length (rest_in content.old.kept texts.now) }
    ensures { content.new ≡ record content.old { kept = moved_on n content.old.kept } }
{
    read_over(&mut content.kept, texts, n);
}
