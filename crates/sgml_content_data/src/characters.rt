// Stretches of characters.
ghost use Rattle.std.specs.Prelude.{◌≡◌, ◌<◌, ◌≤◌, length};
ghost use Rattle.sgml_scan.specs.markup.declared.kinds.TokenKind.TheVariants as kind;
ghost use Rattle.sgml_prolog_steps.specs.Found.{rest_in};
ghost use Rattle.sgml_content_steps.specs.Content.{IsContent};
ghost use Rattle.sgml_content_data.specs.Steps.{TellsScanned, TellsRead, is_ign, taken};

use crate::around::look_around;
use crate::front::{bytes_at, front_of};
use crate::passing::{note, pass};
use crate::plain::take_plain_stretch;
use crate::role::Role;
use crate::separators::take_separator;
use sgml_content_steps::Content;
use sgml_delim::Mode;
use sgml_entity::Texts;
use sgml_events::{Event, Stretch};
use sgml_inside::Item;
use sgml_prolog_steps::Stop;
use sgml_scan::{ScanState, Token};
use std::alloc::Global;

/// Characters, scanned in this state: in an ignored marked section they are passed over (10.4.2); else those at the
/// front of the stretch that are data are taken, or those that are ignored.
pub fn take_characters(
    alloc: Global,
    content: &mut Content,
    texts: &Texts,
    state: ScanState,
    token: Token,
    told: &mut Vec<Event>,
) -> Result<(), Stop>
    requires content { IsContent content.old }
    requires some { 0 < token.length }
    requires within { token.length ≤ length (rest_in content.old.kept texts.now) }
    requires kind { token.kind ≡ kind.Chars }
    ensures { TellsScanned state texts.now token content.old content.new told.old.items told.new.items result }
{
    let mut stop = Stop::More;
    if try_characters(alloc, content, texts, state, token, told, &mut stop) {
        Ok(())
    } else {
        Err(stop)
    }
}

/// As `take_characters` does, where `stop` tells why nothing is taken.
#[inline(never)]
pub fn try_characters(
    alloc: Global,
    content: &mut Content,
    texts: &Texts,
    state: ScanState,
    token: Token,
    told: &mut Vec<Event>,
    stop: &mut Stop,
) -> bool
    requires content { IsContent content.old }
    requires some { 0 < token.length }
    requires within { token.length ≤ length (rest_in content.old.kept texts.now) }
    requires kind { token.kind ≡ kind.Chars }
    ensures { TellsScanned state texts.now token content.old content.new told.old.items told.new.items (taken result stop.new) }
{
    if is_ignored(state.mode) {
        let _ = note(content, texts, token.length, Item::Markup);
        return true;
    }
    take_read(alloc, content, texts, token, told, stop)
}

/// The mode of an ignored marked section.
fn is_ignored(mode: Mode) -> bool
    ensures { result ≡ is_ign mode }
{
    match mode {
        Mode::Ign => true,
        _ => false,
    }
}

/// Characters that aren't passed over.
fn take_read(
    alloc: Global,
    content: &mut Content,
    texts: &Texts,
    token: Token,
    told: &mut Vec<Event>,
    stop: &mut Stop,
) -> bool
    requires content { IsContent content.old }
    requires some { 0 < token.length }
    requires within { token.length ≤ length (rest_in content.old.kept texts.now) }
    requires kind { token.kind ≡ kind.Chars }
    ensures { TellsRead texts.now token content.old content.new told.old.items told.new.items (taken result stop.new) }
{
    let around = look_around(content);
    let bytes = bytes_at(content, texts, token.length);
    let front = front_of(bytes, around);
    match front.role {
        Role::Data => {
            let stretch = match Stretch::of_bytes(alloc, &bytes[..front.length as usize]) {
                Ok(stretch) => stretch,
                Err(_) => {
                    *stop = Stop::Memory;
                    return false;
                }
            };
            take_plain_stretch(
                alloc,
                content,
                texts,
                front.length,
                token.length,
                stretch,
                told,
                stop,
            )
        }
        Role::RecordEnd => take_separator(alloc, content, texts, 1, front.byte, told, stop),
        Role::RecordStart => take_separator(alloc, content, texts, 1, front.byte, told, stop),
        Role::Ignored => {
            pass(content, texts, front.length);
            true
        }
    }
}
