// Tokens that are one character.
ghost use Rattle.std.specs.Prelude.{◌≡◌, ◌<◌, ◌≤◌, length};
ghost use Rattle.sgml_scan.specs.markup.declared.kinds.TokenKind.TheVariants as kind;
ghost use Rattle.sgml_prolog_steps.specs.Found.{rest_in};
ghost use Rattle.sgml_content_steps.specs.Content.{IsContent};
ghost use Rattle.sgml_content_steps.specs.Steps.{Tells};
ghost use Rattle.sgml_content_data.specs.Steps.{taken};

use crate::separators::take_separator;
use crate::taking::take_character;
use sgml_content_steps::Content;
use sgml_entity::Texts;
use sgml_events::Event;
use sgml_prolog_steps::Stop;
use sgml_scan::Token;
use std::alloc::Global;

/// A record end (7.6.1).
pub fn take_record_end(
    alloc: Global,
    content: &mut Content,
    texts: &Texts,
    token: Token,
    told: &mut Vec<Event>,
) -> Result<(), Stop>
    requires content { IsContent content.old }
    requires some { 0 < token.length }
    requires within { token.length ≤ length (rest_in content.old.kept texts.now) }
    requires kind { token.kind ≡ kind.Re }
    ensures { Tells texts.now token content.old content.new told.old.items told.new.items result }
{
    let mut stop = Stop::More;
    if try_record_end(alloc, content, texts, token, told, &mut stop) {
        Ok(())
    } else {
        Err(stop)
    }
}

/// As `take_record_end` does, where `stop` tells why nothing is taken.
pub fn try_record_end(
    alloc: Global,
    content: &mut Content,
    texts: &Texts,
    token: Token,
    told: &mut Vec<Event>,
    stop: &mut Stop,
) -> bool
    requires content { IsContent content.old }
    requires some { 0 < token.length }
    requires within { token.length ≤ length (rest_in content.old.kept texts.now) }
    requires kind { token.kind ≡ kind.Re }
    ensures { Tells texts.now token content.old content.new told.old.items told.new.items (taken result stop.new) }
{
    take_separator(alloc, content, texts, token.length, b'\r', told, stop)
}

/// A record start (7.6.1).
pub fn take_record_start(
    alloc: Global,
    content: &mut Content,
    texts: &Texts,
    token: Token,
    told: &mut Vec<Event>,
) -> Result<(), Stop>
    requires content { IsContent content.old }
    requires some { 0 < token.length }
    requires within { token.length ≤ length (rest_in content.old.kept texts.now) }
    requires kind { token.kind ≡ kind.Rs }
    ensures { Tells texts.now token content.old content.new told.old.items told.new.items result }
{
    let mut stop = Stop::More;
    if try_record_start(alloc, content, texts, token, told, &mut stop) {
        Ok(())
    } else {
        Err(stop)
    }
}

/// As `take_record_start` does, where `stop` tells why nothing is taken.
pub fn try_record_start(
    alloc: Global,
    content: &mut Content,
    texts: &Texts,
    token: Token,
    told: &mut Vec<Event>,
    stop: &mut Stop,
) -> bool
    requires content { IsContent content.old }
    requires some { 0 < token.length }
    requires within { token.length ≤ length (rest_in content.old.kept texts.now) }
    requires kind { token.kind ≡ kind.Rs }
    ensures { Tells texts.now token content.old content.new told.old.items told.new.items (taken result stop.new) }
{
    take_separator(alloc, content, texts, token.length, b'\n', told, stop)
}

/// A reference to a character by its number, which is data also where the character is a separator (9.5).
#[inline(never)]
pub fn take_character_reference(
    alloc: Global,
    content: &mut Content,
    texts: &Texts,
    token: Token,
    byte: u8,
    told: &mut Vec<Event>,
) -> Result<(), Stop>
    requires content { IsContent content.old }
    requires some { 0 < token.length }
    requires within { token.length ≤ length (rest_in content.old.kept texts.now) }
    requires kind { token.kind ≡ kind.CharRef byte }
    ensures { Tells texts.now token content.old content.new told.old.items told.new.items result }
{
    let mut stop = Stop::More;
    if take_character(alloc, content, texts, token.length, byte, told, &mut stop) {
        Ok(())
    } else {
        Err(stop)
    }
}

/// A reference to a function character, which is what the character itself is there (9.5).
#[inline(never)]
pub fn take_function_reference(
    alloc: Global,
    content: &mut Content,
    texts: &Texts,
    token: Token,
    byte: u8,
    told: &mut Vec<Event>,
) -> Result<(), Stop>
    requires content { IsContent content.old }
    requires some { 0 < token.length }
    requires within { token.length ≤ length (rest_in content.old.kept texts.now) }
    requires kind { token.kind ≡ kind.FunctionRef byte }
    ensures { Tells texts.now token content.old content.new told.old.items told.new.items result }
{
    let mut stop = Stop::More;
    if take_separator(alloc, content, texts, token.length, byte, told, &mut stop) {
        Ok(())
    } else {
        Err(stop)
    }
}
