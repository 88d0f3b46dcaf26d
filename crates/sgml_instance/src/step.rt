// One step of reading the instance.
ghost use Rattle.std.specs.Prelude.{◌≡◌, ◌==◌, ◌<◌, ◌≤◌, length, true, false, Err, OnErr};
ghost use Rattle.sgml_declared.specs.decl_lexemes.Readings.{entity_of};
ghost use Rattle.sgml_markup.specs.declared.kinds.TokenKind.TheVariants as kind;
ghost use Rattle.sgml_prolog_steps.specs.Found.{rest_in};
ghost use Rattle.sgml_content_tags.specs.sgml_content_steps.Standing.{IsInInstance};
ghost use Rattle.sgml_content_tags.specs.sgml_content_steps.Content.{IsContent};
ghost use Rattle.sgml_content_tags.specs.sgml_content_steps.Found.{IsWhole};
ghost use Rattle.sgml_content_tags.specs.sgml_content_steps.Steps.{Tells, TellsAt, TellsIn};
ghost use Rattle.sgml_prolog_steps.specs.declared.stepping.Stop.TheVariants as stopping;
ghost use Rattle.sgml_instance.specs.Stepping.{TellsEnd, taken, turned, TellsTurn};

use sgml_content_references::data::{
    take_character_reference, take_characters, take_function_reference, take_record_end,
    take_record_start, try_characters, try_record_end, try_record_start,
};
use sgml_content_references::sections::{
    take_misplaced, take_section_end, take_section_start, take_text_end, take_use,
};
use sgml_content_references::{
    Referred, Strung, take_data, take_data_string, take_external, take_external_string,
    take_ordinary, take_reference, take_string,
};
use sgml_content_tags::content_steps::{
    Content, Found, look, scan_state, take_comment, take_instruction,
};
use sgml_content_tags::{finish, take_empty_end, take_empty_start, take_end, take_net, take_start};
use sgml_declared::Options;
use sgml_entity::Texts;
use sgml_events::Event;
use sgml_markup::TokenKind;
use sgml_prolog_steps::{Kept, Stop};
use sgml_scan::{ScanState, Token};
use sgml_steps::Steps;
use sgml_text::Reason;
use std::alloc::Global;
use std::sync::ledger::Ledger;

/// Takes what stands next with what it tells; where nothing is taken, `stop` tells why. `over` tells then whether the
/// document has ended.
#[inline(always)]
pub(crate) fn step<L: Ledger>(
    options: &Options,
    alloc: Global,
    content: &mut Content,
    over: &mut bool,
    texts: &Texts,
    ended: bool,
    steps: &mut Steps<L>,
    told: &mut Vec<Event>,
    stop: &mut Stop,
) -> bool
    requires content { IsContent content.old }
    requires going_on { over.old ≡ false }
    ensures tells { TellsTurn options.now texts.now ended content.old content.new told.old told.new over.new result stop.new }
    ensures over { OnErr (taken result stop.new) (over.new ≡ false) }
{
    let state = scan_state(content);
    match look(&content.kept, state, texts, ended, steps) {
        Found::Token(token) => take_next(options, alloc, content, texts, state, token, told, stop),
        Found::End => try_end_of_text(alloc, content, over, texts, told, stop),
        Found::Refused(reason) => refused(reason, stop),
        Found::More => undecided(stop),
    }
}

/// What stands next is refused.
#[inline(never)]
fn refused(reason: Reason, stop: &mut Stop) -> bool
    ensures { taken result stop.new ≡ Err (stopping.Refused reason) }
{
    stopped(Stop::Refused(reason), stop)
}

/// What stands next isn't decided.
#[inline(never)]
fn undecided(stop: &mut Stop) -> bool
    ensures { taken result stop.new ≡ Err stopping.More }
{
    stopped(Stop::More, stop)
}

/// Nothing is taken.
#[inline(never)]
fn stopped(why: Stop, stop: &mut Stop) -> bool
    ensures { taken result stop.new ≡ Err why }
{
    *stop = why;
    false
}

/// Whether something was taken.
#[inline(always)]
fn went(given: Result<(), Stop>, stop: &mut Stop) -> bool
    ensures { taken result stop.new ≡ given }
{
    match given {
        Ok(()) => true,
        Err(why) => stopped(why, stop),
    }
}

/// A token: first of all characters, record ends, record starts and tags, which most are.
#[inline(always)]
fn take_next(
    options: &Options,
    alloc: Global,
    content: &mut Content,
    texts: &Texts,
    state: ScanState,
    token: Token,
    told: &mut Vec<Event>,
    stop: &mut Stop,
) -> bool
    requires content { IsContent content.old }
    requires some { 0 < token.length }
    requires within { token.length ≤ length (rest_in content.old.kept texts.now) }
    requires whole { IsWhole state.mode content.old.kept texts.now token.kind token.length }
    ensures { TellsAt options.now state texts.now token content.old content.new told.old.items told.new.items (taken result stop.new) }
{
    match token.kind {
        TokenKind::Chars => try_characters(alloc, content, texts, state, token, told, stop),
        TokenKind::Re => try_record_end(alloc, content, texts, token, told, stop),
        TokenKind::Rs => try_record_start(alloc, content, texts, token, told, stop),
        TokenKind::StartTag => try_start(options, alloc, content, texts, token, told, stop),
        TokenKind::EndTag => try_end(alloc, content, texts, token, told, stop),
        _ => try_token(options, alloc, content, texts, state, token, told, stop),
    }
}

/// A start-tag.
#[inline(always)]
fn try_start(
    options: &Options,
    alloc: Global,
    content: &mut Content,
    texts: &Texts,
    token: Token,
    told: &mut Vec<Event>,
    stop: &mut Stop,
) -> bool
    requires content { IsContent content.old }
    requires within { token.length ≤ length (rest_in content.old.kept texts.now) }
    requires kind { token.kind ≡ kind.StartTag }
    ensures { TellsIn options.now texts.now token content.old content.new told.old.items told.new.items (taken result stop.new) }
{
    went(
        take_start(options, alloc, content, texts, token, told),
        stop,
    )
}

/// An end-tag.
#[inline(always)]
fn try_end(
    alloc: Global,
    content: &mut Content,
    texts: &Texts,
    token: Token,
    told: &mut Vec<Event>,
    stop: &mut Stop,
) -> bool
    requires content { IsContent content.old }
    requires within { token.length ≤ length (rest_in content.old.kept texts.now) }
    requires kind { token.kind ≡ kind.EndTag }
    ensures { Tells texts.now token content.old content.new told.old.items told.new.items (taken result stop.new) }
{
    went(take_end(alloc, content, texts, token, told), stop)
}

/// A token of another kind.
#[inline(always)]
fn try_token(
    options: &Options,
    alloc: Global,
    content: &mut Content,
    texts: &Texts,
    state: ScanState,
    token: Token,
    told: &mut Vec<Event>,
    stop: &mut Stop,
) -> bool
    requires content { IsContent content.old }
    requires some { 0 < token.length }
    requires within { token.length ≤ length (rest_in content.old.kept texts.now) }
    requires whole { IsWhole state.mode content.old.kept texts.now token.kind token.length }
    ensures { TellsAt options.now state texts.now token content.old content.new told.old.items told.new.items (taken result stop.new) }
{
    went(
        take_token(options, alloc, content, texts, state, token, told),
        stop,
    )
}

/// The end of a text.
#[inline(never)]
fn try_end_of_text(
    alloc: Global,
    content: &mut Content,
    over: &mut bool,
    texts: &Texts,
    told: &mut Vec<Event>,
    stop: &mut Stop,
) -> bool
    requires content { IsContent content.old }
    requires going_on { over.old ≡ false }
    ensures tells { TellsEnd texts.now content.old content.new told.old.items told.new.items (turned over.new (taken result stop.new)) }
    ensures over { OnErr (taken result stop.new) (over.new ≡ false) }
{
    went(take_end_of_text(alloc, content, over, texts, told), stop)
}

/// The end of a text, which is that of an entity or of the document (7.1, 9.4).
fn take_end_of_text(
    alloc: Global,
    content: &mut Content,
    over: &mut bool,
    texts: &Texts,
    told: &mut Vec<Event>,
) -> Result<(), Stop>
    requires content { IsContent content.old }
    requires going_on { over.old ≡ false }
    ensures tells { TellsEnd texts.now content.old content.new told.old.items told.new.items (turned over.new result) }
    ensures over { OnErr result (over.new ≡ false) }
{
    if is_in_document(&content.kept) {
        match finish(alloc, content, texts, told) {
            Ok(()) => {
                *over = true;
                Ok(())
            }
            Err(stop) => Err(stop),
        }
    } else {
        take_text_end(content)
    }
}

/// Whether the text at the top is the document's.
fn is_in_document(kept: &Kept) -> bool
    requires { IsInInstance kept.now }
    ensures { result ≡ (entity_of kept.now.stack.places == 0) }
{
    match kept.stack.top() {
        Some(place) => place.entity == 0,
        None => true,
    }
}

/// A token, by its kind.
#[inline(always)]
fn take_token(
    options: &Options,
    alloc: Global,
    content: &mut Content,
    texts: &Texts,
    state: ScanState,
    token: Token,
    told: &mut Vec<Event>,
) -> Result<(), Stop>
    requires content { IsContent content.old }
    requires some { 0 < token.length }
    requires within { token.length ≤ length (rest_in content.old.kept texts.now) }
    requires whole { IsWhole state.mode content.old.kept texts.now token.kind token.length }
    ensures { TellsAt options.now state texts.now token content.old content.new told.old.items told.new.items result }
{
    match token.kind {
        TokenKind::Chars => take_characters(alloc, content, texts, state, token, told),
        TokenKind::Re => take_record_end(alloc, content, texts, token, told),
        TokenKind::Rs => take_record_start(alloc, content, texts, token, told),
        TokenKind::CharRef(b) => take_character_reference(alloc, content, texts, token, b, told),
        TokenKind::FunctionRef(b) => take_function_reference(alloc, content, texts, token, b, told),
        TokenKind::ShortRef(i) => take_short(options, alloc, content, texts, state, i, token, told),
        TokenKind::EntityRef => take_referred(options, alloc, content, texts, state, token, told),
        TokenKind::StartTag => take_start(options, alloc, content, texts, token, told),
        TokenKind::EmptyStart => take_empty_start(alloc, content, texts, token, told),
        TokenKind::EndTag => take_end(alloc, content, texts, token, told),
        TokenKind::EmptyEnd => take_empty_end(alloc, content, texts, token, told),
        TokenKind::Net => take_net(alloc, content, texts, token, told),
        TokenKind::Pi => take_instruction(alloc, content, texts, token, told),
        TokenKind::Comment => take_comment(content, texts, token),
        TokenKind::Declaration => take_use(options, alloc, content, texts, token),
        TokenKind::SectionStart => {
            take_section_start(options, alloc, content, texts, state, token)
        }
        TokenKind::SectionEnd => take_section_end(content, texts, token),
        TokenKind::Separators => take_misplaced(content, token),
        TokenKind::ParameterRef => take_misplaced(content, token),
        TokenKind::SubsetEnd => take_misplaced(content, token),
    }
}

/// A reference to a general entity (9.4.4).
#[inline(never)]
fn take_referred(
    options: &Options,
    alloc: Global,
    content: &mut Content,
    texts: &Texts,
    state: ScanState,
    token: Token,
    told: &mut Vec<Event>,
) -> Result<(), Stop>
    requires content { IsContent content.old }
    requires some { 0 < token.length }
    requires within { token.length ≤ length (rest_in content.old.kept texts.now) }
    requires kind { token.kind ≡ kind.EntityRef }
    ensures { TellsAt options.now state texts.now token content.old content.new told.old.items told.new.items result }
{
    let referred = match take_reference(options, alloc, content, texts, state, token, told) {
        Ok(referred) => referred,
        Err(stop) => return Err(stop),
    };
    match referred {
        Referred::Taken => Ok(()),
        Referred::Data(number) => take_data(alloc, content, texts, token, number, told),
        Referred::External(number) => take_external(alloc, content, texts, token, number, told),
    }
}

/// A short reference (9.4.6).
#[inline(never)]
fn take_short(
    options: &Options,
    alloc: Global,
    content: &mut Content,
    texts: &Texts,
    state: ScanState,
    string: u8,
    token: Token,
    told: &mut Vec<Event>,
) -> Result<(), Stop>
    requires content { IsContent content.old }
    requires some { 0 < token.length }
    requires within { token.length ≤ length (rest_in content.old.kept texts.now) }
    requires kind { token.kind ≡ kind.ShortRef string }
    ensures { TellsAt options.now state texts.now token content.old content.new told.old.items told.new.items result }
{
    let strung = match take_string(options, alloc, content, texts, string, token, told) {
        Ok(strung) => strung,
        Err(stop) => return Err(stop),
    };
    match strung {
        Strung::Taken => Ok(()),
        Strung::Ordinary => take_ordinary(alloc, content, texts, token, told),
        Strung::Data(number) => take_data_string(alloc, content, texts, token, number, told),
        Strung::External(number) => {
            take_external_string(alloc, content, texts, token, number, told)
        }
    }
}
