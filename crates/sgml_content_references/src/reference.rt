// References to general entities in content.
ghost use Rattle.std.specs.Prelude.{◌≡◌, ◌≤◌, length, Some};
ghost use Rattle.sgml_scan.specs.markup.declared.kinds.TokenKind.TheVariants as kind;
ghost use Rattle.sgml_declared.specs.theory_spelling.Content.{is_rcdata};
ghost use Rattle.sgml_prolog_steps.specs.Found.{rest_in};
ghost use Rattle.sgml_content_steps.specs.Content.{IsContent};
ghost use Rattle.sgml_content_references.specs.Referring.{referred_in, said_of_number, TellsReference};

use crate::entity::{Said, said_in};
use crate::instruction::instruct;
use crate::opening::open_text;
use sgml_content_steps::Content;
use sgml_declared::Options;
use sgml_delim::Mode;
use sgml_entity::{Space, Texts};
use sgml_events::Event;
use sgml_prolog_steps::{Stop, referred};
use sgml_scan::{ScanState, Token};
use sgml_text::Reason;
use std::alloc::Global;

/// What a reference comes to.
#[derive(Clone, Copy, Debug, PartialEq, Eq)]
pub enum Referred {
    /// It is taken: its text is open, or its instruction was told.
    Taken,
    /// It is the data of this internal entity, and isn't taken.
    Data(u32),
    /// It is one to this external data entity, and isn't taken.
    External(u32),
}

/// A reference to a general entity (9.4.4). In replaceable character data it is one to no instruction and to no
/// external data (9.1).
pub fn take_reference(
    options: &Options,
    alloc: Global,
    content: &mut Content,
    texts: &Texts,
    state: ScanState,
    token: Token,
    told: &mut Vec<Event>,
) -> Result<Referred, Stop>
    requires content { IsContent content.old }
    requires within { token.length ≤ length (rest_in content.old.kept texts.now) }
    requires kind { token.kind ≡ kind.EntityRef }
    ensures { TellsReference options.now state texts.now token content.old content.new told.old.items told.new.items result }
{
    let number = match referred(alloc, &content.kept, texts, Space::General, token.length) {
        Ok(Some(number)) => number,
        Ok(None) => return Err(Stop::Refused(Reason::Undeclared)),
        Err(_) => return Err(Stop::Memory),
    };
    match said_in(alloc, content, number) {
        Ok(said) => take_said(
            options, alloc, content, texts, state, token, number, said, told,
        ),
        Err(_) => Err(Stop::Memory),
    }
}

// A reference to the entity of this number, which is this.
fn take_said(
    options: &Options,
    alloc: Global,
    content: &mut Content,
    texts: &Texts,
    state: ScanState,
    token: Token,
    number: u32,
    said: Said,
    told: &mut Vec<Event>,
) -> Result<Referred, Stop>
    requires content { IsContent content.old }
    requires within { token.length ≤ length (rest_in content.old.kept texts.now) }
    requires kind { token.kind ≡ kind.EntityRef }
    requires named { referred_in content.old.kept texts.now token.length ≡ Some number }
    requires said { said ≡ said_of_number content.old.kept.doctype number }
    ensures { TellsReference options.now state texts.now token content.old content.new told.old.items told.new.items result }
{
    match said {
        Said::Nothing => Err(Stop::Refused(Reason::Undeclared)),
        Said::TooLong => Err(Stop::Refused(Reason::PiLength)),
        Said::IsData => Ok(Referred::Data(number)),
        Said::IsExternal => {
            if is_rcdata(state.mode) {
                return Err(Stop::Refused(Reason::EntityKind));
            }
            Ok(Referred::External(number))
        }
        Said::Instructs(text) => {
            if is_rcdata(state.mode) {
                return Err(Stop::Refused(Reason::EntityKind));
            }
            match instruct(content, texts, token.length, number, false, text, told) {
                Ok(()) => Ok(Referred::Taken),
                Err(_) => Err(Stop::Memory),
            }
        }
        Said::Reads => {
            match open_text(
                options,
                alloc,
                &mut content.kept,
                texts,
                token.length,
                number,
            ) {
                Ok(()) => Ok(Referred::Taken),
                Err(stop) => Err(stop),
            }
        }
    }
}

fn is_rcdata(mode: Mode) -> bool
    ensures { result ≡ is_rcdata mode }
{
    match mode {
        Mode::Rcd => true,
        Mode::Rcs => true,
        _ => false,
    }
}
