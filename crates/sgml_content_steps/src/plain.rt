// Markup that is no tag and opens nothing: comments and instructions.
ghost use Rattle.std.specs.Prelude.{◌≡◌, ◌<◌, ◌≤◌, [], length, take, IfOk};
ghost use Rattle.sgml_scan.specs.markup.declared.kinds.TokenKind.TheVariants as kind;
ghost use Rattle.sgml_theory_starts.specs.theory_spelling.Content.{instruction};
ghost use Rattle.sgml_prolog_steps.specs.Found.{rest_in};
ghost use Rattle.sgml_content_steps.specs.Content.{IsContent, marked_up};
ghost use Rattle.sgml_content_steps.specs.Steps.{Takes, Tells};

use crate::content::Content;
use crate::telling::{make_room, place_of, tell};
use sgml_entity::Texts;
use sgml_events::Event;
use sgml_inside::Item;
use sgml_prolog_steps::{Stop, own_text, read_over};
use sgml_scan::Token;
use sgml_text::{Memory, Text};
use std::alloc::Global;

/// Reads over markup of so many bytes.
fn mark_up(content: &mut Content, texts: &Texts, n: u64)
    requires stacked { 0 < length content.old.kept.stack.places }
    requires within { n ≤ length (rest_in content.old.kept texts.now) }
    ensures { content.new ≡ marked_up n content.old }
{
    read_over(&mut content.kept, texts, n);
    content.inside.note(Item::Markup);
}

/// A comment declaration (10.3).
pub fn take_comment(content: &mut Content, texts: &Texts, token: Token) -> Result<(), Stop>
    requires content { IsContent content.old }
    requires within { token.length ≤ length (rest_in content.old.kept texts.now) }
    requires kind { token.kind ≡ kind.Comment }
    ensures { Takes texts.now token content.old content.new [] result }
{
    mark_up(content, texts, token.length);
    Ok(())
}

/// A processing instruction (8), which is told with its place.
pub fn take_instruction(
    alloc: Global,
    content: &mut Content,
    texts: &Texts,
    token: Token,
    told: &mut Vec<Event>,
) -> Result<(), Stop>
    requires content { IsContent content.old }
    requires within { token.length ≤ length (rest_in content.old.kept texts.now) }
    requires kind { token.kind ≡ kind.Pi }
    ensures { Tells texts.now token content.old content.new told.old.items told.new.items result }
{
    let place = place_of(content);
    let text = match text_of(alloc, content, texts, token.length) {
        Ok(text) => text,
        Err(_) => return Err(Stop::Memory),
    };
    if let Err(_) = make_room(told, 1) {
        return Err(Stop::Memory);
    }
    mark_up(content, texts, token.length);
    tell(
        told,
        Event::Pi {
            text,
            entity: None,
            place,
        },
    );
    Ok(())
}

/// The text of the instruction of so many bytes.
fn text_of(alloc: Global, content: &Content, texts: &Texts, n: u64) -> Result<Text, Memory>
    requires stacked { 0 < length content.now.kept.stack.places }
    requires within { n ≤ length (rest_in content.now.kept texts.now) }
    ensures { IfOk result (λ text. text ≡ instruction (take n (rest_in content.now.kept texts.now))) }
{
    own_text(alloc, &content.kept, texts, n)
}
