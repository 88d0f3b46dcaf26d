// References to parameter entities between declarations.
ghost use Rattle.std.specs.Prelude.{◌≡◌, ◌<◌, ◌≤◌, false, length, IfOk, OnOk, OnErr, IsSome, Some};
ghost use Rattle.sgml_entity.specs.declared.kinds.Space.TheVariants.{Parameter};
ghost use Rattle.sgml_declared.specs.theory_reading.Types.{body_of};
ghost use Rattle.sgml_declared.specs.theory_standing.Kept.{sources_of};
ghost use Rattle.sgml_declared.specs.theory_standing.Prologs.{is_over};
ghost use Rattle.sgml_declared.specs.Opening.{Opens, IsPushed};
ghost use Rattle.sgml_prolog_steps.specs.Standing.{IsKept};
ghost use Rattle.sgml_prolog_steps.specs.Found.{moved_on, rest_in};
ghost use Rattle.sgml_prolog_steps.specs.Sorts.{sort_in};
ghost use Rattle.sgml_prolog_steps.specs.Steps.{TakesIn};
ghost use Rattle.sgml_prolog_steps.specs.References.{referred_in, said_in, gone_back, instructed_in};
ghost use Rattle.sgml_prolog_steps.specs.declared.sort.Sort.TheVariants as sort;
ghost use Rattle.sgml_prolog_steps.specs.declared.references.Said.TheVariants.{TooLong, Instructs, Reads};

use crate::kept::Kept;
use crate::naming::referred;
use crate::plain::{begin_over, read_over};
use crate::stepping::{Stop, Turn};
use sgml_declared::dtd::Dtd;
use sgml_declared::{OpenError, Options, open};
use sgml_entity::{Body, Space, StackMark, Texts};
use sgml_scan::Token;
use sgml_text::{Memory, Reason, Text};
use std::alloc::Global;

/// What an entity says that a parameter reference names.
#[derive(Debug, Drop)]
pub enum Said {
    Nothing,
    /// A text to be read.
    Reads,
    /// The text of a processing instruction.
    Instructs(Text),
    /// An instruction whose text passes PILEN.
    TooLong,
    Other,
}

// What the entity of a number says.
fn told_of(alloc: Global, dtd: &Dtd, number: u32) -> Result<Said, Memory>
    ensures { IfOk result (λ s. s ≡ said_in dtd.now (body_of dtd.now number)) }
{
    match dtd.entities().get(number) {
        Some(entity) => told_by(alloc, dtd, &entity.body),
        None => Ok(Said::Nothing),
    }
}

fn told_by(alloc: Global, dtd: &Dtd, body: &Body) -> Result<Said, Memory>
    ensures { IfOk result (λ s. s ≡ said_in dtd.now (Some body.now)) }
{
    match body {
        Body::Sgml(_) => Ok(Said::Reads),
        Body::External(_) => Ok(Said::Reads),
        Body::Pi(text) => instructed(alloc, dtd, text),
        Body::Cdata(_) => Ok(Said::Other),
        Body::Sdata(_) => Ok(Said::Other),
        Body::ExternalData { .. } => Ok(Said::Other),
    }
}

fn instructed(alloc: Global, dtd: &Dtd, text: &Text) -> Result<Said, Memory>
    ensures { IfOk result (λ s. s ≡ instructed_in dtd.now text.now) }
{
    if text.items().len() as u64 > dtd.syntax().quantities.pilen as u64 {
        return Ok(Said::TooLong);
    }
    Ok(Said::Instructs(text.copy(alloc)?))
}

/// A reference to a parameter entity (9.4.4).
pub fn take_reference(
    options: &Options,
    alloc: Global,
    kept: &mut Kept,
    texts: &Texts,
    token: Token,
) -> Result<Turn, Stop>
    requires kept { IsKept kept.old }
    requires going_on { is_over kept.old ≡ false }
    requires within { token.length ≤ length (rest_in kept.old texts.now) }
    requires sort { sort_in kept.old token.kind ≡ sort.Reference }
    ensures { TakesIn options.now texts.now token kept.old kept.new result }
{
    let number = match referred(alloc, kept, texts, Space::Parameter, token.length) {
        Ok(Some(number)) => number,
        Ok(None) => return Err(Stop::Refused(Reason::Undeclared)),
        Err(_) => return Err(Stop::Memory),
    };
    let told = match told_in(alloc, kept, number) {
        Ok(told) => told,
        Err(_) => return Err(Stop::Memory),
    };
    match told {
        Said::Nothing => Err(Stop::Refused(Reason::Undeclared)),
        Said::Reads => open_referred(options, alloc, kept, texts, token, number),
        Said::Instructs(text) => {
            begin_over(kept, texts, token.length);
            Ok(Turn::Instruction {
                text,
                entity: Some(number),
            })
        }
        Said::TooLong => Err(Stop::Refused(Reason::PiLength)),
        Said::Other => Err(Stop::Refused(Reason::EntityKind)),
    }
}

fn told_in(alloc: Global, kept: &Kept, number: u32) -> Result<Said, Memory>
    ensures { IfOk result (λ s. s ≡ said_in kept.now.doctype (body_of kept.now.doctype number)) }
{
    told_of(alloc, &kept.dtd, number)
}

fn open_referred(
    options: &Options,
    alloc: Global,
    kept: &mut Kept,
    texts: &Texts,
    token: Token,
    number: u32,
) -> Result<Turn, Stop>
    requires kept { IsKept kept.old }
    requires going_on { is_over kept.old ≡ false }
    requires within { token.length ≤ length (rest_in kept.old texts.now) }
    requires sort { sort_in kept.old token.kind ≡ sort.Reference }
    requires named { referred_in kept.old texts.now token.length ≡ Some number }
    requires reads { said_in kept.old.doctype (body_of kept.old.doctype number) ≡ Reads }
    ensures { TakesIn options.now texts.now token kept.old kept.new result }
{
    let mark = kept.stack.mark();
    match open_after(options, alloc, kept, texts, token.length, number) {
        Ok(()) => Ok(Turn::Silent),
        Err(OpenError::Refused(reason)) => {
            go_back(kept, mark);
            Err(Stop::Refused(reason))
        }
        Err(OpenError::Wanted(file)) => {
            go_back(kept, mark);
            Err(Stop::Wanted {
                entity: number,
                file,
            })
        }
        Err(OpenError::Memory) => {
            go_back(kept, mark);
            Err(Stop::Memory)
        }
    }
}

/// Goes back to where the stack was marked.
pub fn go_back(kept: &mut Kept, mark: StackMark)
    requires depth { mark.depth < length kept.old.stack.places }
    requires spent { mark.spent ≤ kept.old.stack.expand }
    ensures { kept.new ≡ gone_back mark kept.old }
{
    kept.stack.rewind(mark);
}

/// Reads over so many bytes and then opens the text of an entity. Where it isn't opened, they aren't read.
pub fn open_after(
    options: &Options,
    alloc: Global,
    kept: &mut Kept,
    texts: &Texts,
    n: u64,
    number: u32,
) -> Result<(), OpenError>
    requires stacked { 0 < length kept.old.stack.places }
    requires named { IsSome kept.old.subset → IsSome kept.old.doctype.name }
    requires within { n ≤ length (rest_in kept.old texts.now) }
    ensures opens { Opens options.now (sources_of kept.old) texts.now (moved_on n kept.old).stack kept.new.stack number result }
    ensures pushed { OnOk result (IsPushed kept.old.doctype.entities texts.now (moved_on n kept.old).stack kept.new.stack number) }
    ensures rest { kept.new ≡ record kept.old { stack = kept.new.stack } }
    ensures err { OnErr result (kept.new.stack ≡ (moved_on n kept.old).stack) }
{
    read_over(kept, texts, n);
    open(
        options,
        alloc,
        &kept.dtd,
        &kept.subset,
        texts,
        &mut kept.stack,
        number,
    )
}
