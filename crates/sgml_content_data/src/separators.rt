// Separators, each by what it is where it stands.
ghost use Rattle.std.specs.Prelude.{◌<◌, ◌≤◌, length};
ghost use Rattle.sgml_prolog_steps.specs.Found.{rest_in};
ghost use Rattle.sgml_content_steps.specs.Content.{IsContent};
ghost use Rattle.sgml_content_data.specs.Roles.{separator_of};
ghost use Rattle.sgml_content_data.specs.Steps.{TakesPiece, record_end_in};

use crate::around::look_around;
use crate::passing::{note, pass};
use crate::plain::take_plain_end;
use crate::role::{Role, of_separator};
use crate::taking::take_character;
use sgml_content_steps::Content;
use sgml_entity::Texts;
use sgml_events::Event;
use sgml_inside::Item;
use sgml_prolog_steps::Stop;
use std::alloc::Global;

/// A separator of so many bytes. `stop` tells why where nothing is taken.
#[inline(always)]
pub(crate) fn take_separator(
    alloc: Global,
    content: &mut Content,
    texts: &Texts,
    n: u64,
    byte: u8,
    told: &mut Vec<Event>,
    stop: &mut Stop,
) -> bool
    requires content { IsContent content.old }
    requires some { 0 < n }
    requires within { n ≤ length (rest_in content.old.kept texts.now) }
    ensures { TakesPiece texts.now n (separator_of content.old byte) content.old content.new told.old told.new result stop.new }
{
    match of_separator(look_around(content), byte) {
        Role::Data => take_character(alloc, content, texts, n, byte, told, stop),
        Role::RecordEnd => take_end(alloc, content, texts, n, told, stop),
        Role::RecordStart => {
            let _ = note(content, texts, n, Item::RecordStart);
            true
        }
        Role::Ignored => {
            pass(content, texts, n);
            true
        }
    }
}

/// A record end where there is `#PCDATA` (7.6.1). One that is ignored for what stands before it is no content.
fn take_end(
    alloc: Global,
    content: &mut Content,
    texts: &Texts,
    n: u64,
    told: &mut Vec<Event>,
    stop: &mut Stop,
) -> bool
    requires content { IsContent content.old }
    requires some { 0 < n }
    requires within { n ≤ length (rest_in content.old.kept texts.now) }
    ensures { TakesPiece texts.now n (record_end_in content.old) content.old content.new told.old told.new result stop.new }
{
    if content.inside.takes_record_end() {
        return take_plain_end(alloc, content, texts, n, told, stop);
    }
    let _ = note(content, texts, n, Item::RecordEnd);
    true
}
