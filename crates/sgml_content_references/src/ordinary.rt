// Short reference strings that stand for their bytes.
ghost use Rattle.std.specs.Prelude.{◌≡◌, ◌+◌, ◌*◌, ◌<◌, ◌≤◌, ◌++◌, true, None, length, vec_capacity, OnOk, OnErr};
ghost use Rattle.sgml_text.specs.Units.{characters};
ghost use Rattle.sgml_theory_reading.specs.Characters.{ordinary};
ghost use Rattle.sgml_infer.specs.declared.visible.Visible.TheVariants as visible;
ghost use Rattle.sgml_prolog_steps.specs.Found.{rest_in};
ghost use Rattle.sgml_content_steps.specs.Content.{IsContent};
ghost use Rattle.sgml_content_steps.specs.Steps.{Tells, HasRoomFor};
ghost use Rattle.sgml_content_steps.specs.Runs.{IsRun};
ghost use Rattle.sgml_content_references.specs.Strings.{string_in, StandsFor};
ghost use Rattle.sgml_content_data.specs.Taking.{with_item};
ghost use Rattle.sgml_content_references.specs.Entities.{events_in, chars_told};
ghost use Rattle.sgml_content_references.specs.Ordinary.{has_items_in, is_content_in, bytes_shown, with_string, TellsContent, TakesString};

use crate::bytes::{all_separators, note_bytes, note_separators, some_content};
use crate::data_telling::tell_any;
use sgml_content_data::has_text;
use sgml_content_steps::{Content, Run, judge, make_room, place_of, take_run};
use sgml_entity::Texts;
use sgml_events::{Event, Stretch};
use sgml_infer::Visible;
use sgml_prolog_steps::{Kept, Stop, read_over, unread};
use sgml_scan::Token;
use sgml_text::{Memory, Text};
use std::alloc::Global;

/// A short reference string that stands for its bytes (9.4.6): it is content where one of them is, and each is what it
/// is as a character (7.6.1). Separators alone are ignored where separators are.
pub fn take_ordinary(
    alloc: Global,
    content: &mut Content,
    texts: &Texts,
    token: Token,
    told: &mut Vec<Event>,
) -> Result<(), Stop>
    requires content { IsContent content.old }
    requires some { 0 < token.length }
    requires within { token.length ≤ length (rest_in content.old.kept texts.now) }
    requires stands { StandsFor texts.now token content.old (λ s own. ordinary s own) }
    ensures { Tells texts.now token content.old content.new told.old.items told.new.items result }
{
    let string = string_there(&content.kept, texts, token.length);
    let items = has_items(content, string);
    if is_content(content, items, string) {
        return take_content(alloc, content, texts, token.length, told);
    }
    if items {
        take_separators(content, texts, token.length);
        return Ok(());
    }
    pass(content, texts, token.length);
    Ok(())
}

/// Whether its bytes are items: separators alone are none where separators are ignored.
fn has_items(content: &Content, string: &[u8]) -> bool
    requires { IsContent content.now }
    ensures { result ≡ has_items_in content.now string.now }
{
    if all_separators(string) {
        has_text(content)
    } else {
        true
    }
}

/// Whether one of its bytes is content.
fn is_content(content: &Content, items: bool, string: &[u8]) -> bool
    requires { items ≡ has_items_in content.now string.now }
    ensures { result ≡ is_content_in content.now string.now }
{
    items && some_content(content.inside.takes_record_end(), string)
}

#[inline(always)]
fn string_there<'a>(kept: &'a Kept, texts: &'a Texts, n: u64) -> &'a [u8]
    requires stacked { 0 < length kept.now.stack.places }
    requires within { n ≤ length (rest_in kept.now texts.now) }
    ensures { result.now ≡ string_in kept.now texts.now n }
{
    let rest = unread(kept.dtd.entities(), texts, &kept.stack);
    &rest[..n as usize]
}

fn pass(content: &mut Content, texts: &Texts, n: u64)
    requires stacked { 0 < length content.old.kept.stack.places }
    requires within { n ≤ length (rest_in content.old.kept texts.now) }
    ensures { content.new ≡ with_item n None content.old }
{
    read_over(&mut content.kept, texts, n);
}

fn take_separators(content: &mut Content, texts: &Texts, n: u64)
    requires stacked { 0 < length content.old.kept.stack.places }
    requires within { n ≤ length (rest_in content.old.kept texts.now) }
    ensures { content.new ≡ with_string n (string_in content.old.kept texts.now n) content.old }
{
    note_separators(&mut content.inside, string_there(&content.kept, texts, n));
    read_over(&mut content.kept, texts, n);
}

/// One that is content.
fn take_content(
    alloc: Global,
    content: &mut Content,
    texts: &Texts,
    n: u64,
    told: &mut Vec<Event>,
) -> Result<(), Stop>
    requires content { IsContent content.old }
    requires some { 0 < n }
    requires within { n ≤ length (rest_in content.old.kept texts.now) }
    requires is { is_content_in content.old (string_in content.old.kept texts.now n) ≡ true }
    ensures { TellsContent texts.now n content.old content.new told.old.items told.new.items result }
{
    let run = match judge(alloc, content, texts, Visible::Chars) {
        Ok(run) => run,
        Err(stop) => return Err(stop),
    };
    match take_string(alloc, content, texts, n, run, told) {
        Ok(()) => Ok(()),
        Err(_) => Err(Stop::Memory),
    }
}

/// Takes a string that was judged, and tells what its bytes are.
fn take_string(
    alloc: Global,
    content: &mut Content,
    texts: &Texts,
    n: u64,
    run: Run,
    told: &mut Vec<Event>,
) -> Result<(), Memory>
    requires content { IsContent content.old }
    requires run { IsRun content.old visible.Chars run }
    requires within { n ≤ length (rest_in content.old.kept texts.now) }
    ensures taken { OnOk result (TakesString content.old content.new texts.now n told.old.items told.new.items) }
    ensures content { OnErr result (content.new ≡ content.old) }
    ensures told { OnErr result (told.new.items ≡ told.old.items) }
{
    let size = string_there(&content.kept, texts, n).len();
    let mut out = Vec::with_capacity(alloc, 2 * size)?;
    make_room(told, run.room() + 1)?;
    let place = place_of(content);
    take_run(content, place, Visible::Chars, run, told);
    note_string(content, texts, n, &mut out);
    tell_bytes(told, out);
    Ok(())
}

fn note_string(content: &mut Content, texts: &Texts, n: u64, out: &mut Vec<u8>)
    requires stacked { 0 < length content.old.kept.stack.places }
    requires within { n ≤ length (rest_in content.old.kept texts.now) }
    requires room { length out.old.items + 2 * n ≤ vec_capacity out.old }
    ensures content { content.new ≡ with_string n (string_in content.old.kept texts.now n) content.old }
    ensures out { out.new.items ≡ out.old.items ++ bytes_shown content.old.inside.elements (string_in content.old.kept texts.now n) }
{
    note_bytes(
        &mut content.inside,
        string_there(&content.kept, texts, n),
        out,
    );
    read_over(&mut content.kept, texts, n);
}

fn tell_bytes(told: &mut Vec<Event>, bytes: Vec<u8>)
    requires room { HasRoomFor 1 told.old }
    ensures { told.new.items ≡ told.old.items ++ chars_told (characters bytes.items) }
{
    tell_any(told, event_of_bytes(bytes));
}

fn event_of_bytes(bytes: Vec<u8>) -> Option<Event>
    ensures { events_in result ≡ chars_told (characters bytes.items) }
{
    let stretch = Stretch::of_text(Text::of(bytes));
    if stretch.is_empty() {
        return None;
    }
    Some(Event::Chars(stretch))
}
