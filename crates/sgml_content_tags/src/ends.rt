// Tags that end elements.
ghost use Rattle.std.specs.Prelude.{◌≡◌, ◌≤◌, length};
ghost use Rattle.sgml_markup.specs.declared.kinds.TokenKind.TheVariants as kind;
ghost use Rattle.sgml_prolog_steps.specs.Found.{rest_in};
ghost use Rattle.sgml_content_steps.specs.Content.{IsContent};
ghost use Rattle.sgml_content_steps.specs.Steps.{Tells};

use crate::closing::end_element;
use crate::names::{number_ended, tag_at};
use crate::net::enabling;
use sgml_content_steps::{Content, innermost};
use sgml_entity::Texts;
use sgml_events::Event;
use sgml_infer::Visible;
use sgml_prolog_steps::Stop;
use sgml_scan::Token;
use sgml_text::Reason;
use std::alloc::Global;

/// An end-tag (7.5): it ends the innermost element of its type.
#[inline(never)]
pub fn take_end(
    alloc: Global,
    content: &mut Content,
    texts: &Texts,
    token: Token,
    told: &mut Vec<Event>,
) -> Result<(), Stop>
    requires content { IsContent content.old }
    requires within { token.length ≤ length (rest_in content.old.kept texts.now) }
    requires kind { token.kind ≡ kind.EndTag }
    ensures { Tells texts.now token content.old content.new told.old.items told.new.items result }
{
    let tag = tag_at(content, texts, token.length);
    let number = match number_ended(content, tag) {
        Ok(Some(number)) => number,
        Ok(None) => return Err(Stop::Refused(Reason::Undefined)),
        Err(_) => return Err(Stop::Memory),
    };
    end_element(
        alloc,
        content,
        texts,
        token.length,
        Visible::EndTag(number),
        number,
        told,
    )
}

/// An empty end-tag (7.5.1.1): it ends the innermost element.
#[inline(never)]
pub fn take_empty_end(
    alloc: Global,
    content: &mut Content,
    texts: &Texts,
    token: Token,
    told: &mut Vec<Event>,
) -> Result<(), Stop>
    requires content { IsContent content.old }
    requires within { token.length ≤ length (rest_in content.old.kept texts.now) }
    requires kind { token.kind ≡ kind.EmptyEnd }
    ensures { Tells texts.now token content.old content.new told.old.items told.new.items result }
{
    match innermost(content) {
        Some(number) => end_element(
            alloc,
            content,
            texts,
            token.length,
            Visible::EndCurrent,
            number,
            told,
        ),
        None => Err(Stop::Refused(Reason::NotOpen)),
    }
}

/// A null end-tag (7.5.1.3): it ends the innermost element whose start-tag enabled NET.
#[inline(never)]
pub fn take_net(
    alloc: Global,
    content: &mut Content,
    texts: &Texts,
    token: Token,
    told: &mut Vec<Event>,
) -> Result<(), Stop>
    requires content { IsContent content.old }
    requires within { token.length ≤ length (rest_in content.old.kept texts.now) }
    requires kind { token.kind ≡ kind.Net }
    ensures { Tells texts.now token content.old content.new told.old.items told.new.items result }
{
    match enabling(content) {
        Some(number) => end_element(
            alloc,
            content,
            texts,
            token.length,
            Visible::Net,
            number,
            told,
        ),
        None => Err(Stop::Refused(Reason::NotOpen)),
    }
}
