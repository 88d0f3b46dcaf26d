// Short references in content.
ghost use Rattle.std.specs.Prelude.{◌≡◌, ◌<◌, ◌≤◌, length};
ghost use Rattle.sgml_scan.specs.markup.declared.kinds.TokenKind.TheVariants as kind;
ghost use Rattle.sgml_prolog_steps.specs.Found.{rest_in};
ghost use Rattle.sgml_content_steps.specs.Content.{IsContent};
ghost use Rattle.sgml_content_references.specs.declared.mapping.Mapped.TheVariants.{To};
ghost use Rattle.sgml_content_references.specs.Referring.{said_of_number};
ghost use Rattle.sgml_content_references.specs.Strings.{mapped_in, starts_record, string_in, TellsString, inside_started};

use crate::entity::{Said, said_in};
use crate::instruction::instruct;
use crate::mapping::{Mapped, mapped_string, starts_record};
use crate::opening::open_text;
use sgml_content_steps::Content;
use sgml_declared::Options;
use sgml_entity::Texts;
use sgml_events::Event;
use sgml_inside::Item;
use sgml_prolog_steps::{Kept, Stop, unread};
use sgml_scan::Token;
use sgml_text::Reason;
use std::alloc::Global;

/// What a short reference comes to.
#[derive(Clone, Copy, Debug, PartialEq, Eq)]
pub enum Strung {
    /// It is taken: the text of its entity is open, or an instruction was told.
    Taken,
    /// It stands for its bytes, and isn't taken.
    Ordinary,
    /// It stands for the data of this internal entity, and isn't taken.
    Data(u32),
    /// It stands for a reference to this external data entity, and isn't taken.
    External(u32),
}

/// A short reference: the string of this number, by the map in force (9.4.6, 11.6).
pub fn take_string(
    options: &Options,
    alloc: Global,
    content: &mut Content,
    texts: &Texts,
    string: u8,
    token: Token,
    told: &mut Vec<Event>,
) -> Result<Strung, Stop>
    requires content { IsContent content.old }
    requires within { token.length ≤ length (rest_in content.old.kept texts.now) }
    requires kind { token.kind ≡ kind.ShortRef string }
    ensures { TellsString options.now texts.now token content.old content.new told.old.items told.new.items result }
{
    let number = match mapped_string(content, string) {
        Mapped::Nothing => return Ok(Strung::Ordinary),
        Mapped::Undeclared => return Err(Stop::Refused(Reason::Undeclared)),
        Mapped::To(number) => number,
    };
    match said_in(alloc, content, number) {
        Ok(said) => take_mapped(
            options, alloc, content, texts, string, token, number, said, told,
        ),
        Err(_) => Err(Stop::Memory),
    }
}

// One that stands for the entity of this number, which is this.
fn take_mapped(
    options: &Options,
    alloc: Global,
    content: &mut Content,
    texts: &Texts,
    string: u8,
    token: Token,
    number: u32,
    said: Said,
    told: &mut Vec<Event>,
) -> Result<Strung, Stop>
    requires content { IsContent content.old }
    requires within { token.length ≤ length (rest_in content.old.kept texts.now) }
    requires kind { token.kind ≡ kind.ShortRef string }
    requires named { mapped_in content.old string ≡ To number }
    requires said { said ≡ said_of_number content.old.kept.doctype number }
    ensures { TellsString options.now texts.now token content.old content.new told.old.items told.new.items result }
{
    let starts = begins_record(&content.kept, texts, token.length);
    match said {
        Said::Nothing => Err(Stop::Refused(Reason::Undeclared)),
        Said::TooLong => Err(Stop::Refused(Reason::PiLength)),
        Said::IsData => Ok(Strung::Data(number)),
        Said::IsExternal => Ok(Strung::External(number)),
        Said::Instructs(text) => {
            match instruct(content, texts, token.length, number, starts, text, told) {
                Ok(()) => Ok(Strung::Taken),
                Err(_) => Err(Stop::Memory),
            }
        }
        Said::Reads => {
            match open_text(
                options,
                alloc,
                &mut content.kept,
                texts,
                token.length,
                number,
            ) {
                Ok(()) => {
                    start_record(content, starts);
                    Ok(Strung::Taken)
                }
                Err(stop) => Err(stop),
            }
        }
    }
}

fn begins_record(kept: &Kept, texts: &Texts, n: u64) -> bool
    requires stacked { 0 < length kept.now.stack.places }
    requires within { n ≤ length (rest_in kept.now texts.now) }
    ensures { result ≡ starts_record (string_in kept.now texts.now n) }
{
    let rest = unread(kept.dtd.entities(), texts, &kept.stack);
    starts_record(&rest[..n as usize])
}

// A record start comes in the innermost element, where there is one.
fn start_record(content: &mut Content, starts: bool)
    ensures { content.new ≡ inside_started starts content.old }
{
    if starts {
        content.inside.note(Item::RecordStart);
    }
}
