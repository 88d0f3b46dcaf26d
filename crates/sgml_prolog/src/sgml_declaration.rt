// The SGML declaration before the document type.
ghost use Rattle.std.specs.Prelude.{◌≡◌, ◌<◌, ◌≤◌, ◌+◌, ◌^◌, false, length, take, IfOk, IfErr, OnOk, OnErr, Option};
ghost use Rattle.sgml_entity.specs.Stack.{offset_of};
ghost use Rattle.sgml_dtd.specs.Doctypes.{nothing};
ghost use Rattle.sgml_declared.specs.theory_reading.Facets.{stage_of_syntax};
ghost use Rattle.sgml_declared.specs.theory_reading.Names.{Name};
ghost use Rattle.sgml_declared.specs.theory_standing.Prologs.{is_over};
ghost use Rattle.sgml_declared.specs.Files.{Choices};
ghost use Rattle.sgml_prolog_steps.specs.Standing.{stage_of, IsKept};
ghost use Rattle.sgml_prolog_steps.specs.Found.{rest_in, IsSgmlThere};
ghost use Rattle.sgml_prolog_steps.specs.Steps.{IsStep};
ghost use Rattle.sgml_prolog_steps.specs.declared.stepping.Turn.TheVariants.{Silent};
ghost use Rattle.sgml_prolog_steps.specs.declared.stepping.Stop.TheVariants as stop;
ghost use Rattle.sgml_prolog.specs.Sgml.{IsSgmlRead, restarted, document_at};

use crate::declared_syntax::read_sgml;
use sgml_declared::Options;
use sgml_dtd::Dtd;
use sgml_entity::{InputStack, Texts};
use sgml_prolog_steps::{Kept, Stage, Stop, Turn, unread};
use sgml_syntax::Syntax;
use sgml_text::{Memory, RefusalError};
use std::alloc::Global;

/// Takes the SGML declaration that ends in so many bytes if it has an end there, or tells why it is
/// refused (13).
pub fn take_sgml(
    options: &Options,
    alloc: Global,
    kept: &mut Kept,
    texts: &Texts,
    ended: bool,
    n: u64,
) -> Result<Turn, Stop>
    requires kept { IsKept kept.old }
    requires going_on { is_over kept.old ≡ false }
    requires expand { kept.old.stack.expand ≡ options.now.expand }
    requires there { IsSgmlThere kept.old texts.now ended n }
    ensures { (c : Choices) (asked : Option Name) → IsStep c texts.now ended asked kept.old kept.new result }
{
    let at = offset(&kept.stack);
    match sgml_in(alloc, kept, texts, n) {
        Ok((syntax, used)) => restart(options, alloc, kept, &syntax, at + used as u64),
        Err(RefusalError::Refused(reason)) => Err(Stop::Refused(reason)),
        Err(RefusalError::Memory) => Err(Stop::Memory),
    }
}

// The bytes up to its end.
fn own_bytes<'a>(kept: &'a Kept, texts: &'a Texts, n: u64) -> &'a [u8]
    requires stacked { 0 < length kept.now.stack.places }
    requires within { n ≤ length (rest_in kept.now texts.now) }
    ensures value { result.now ≡ take n (rest_in kept.now texts.now) }
    ensures fits { offset_of kept.now.stack.places + length result.now < 2 ^ 64 }
{
    let rest = unread(kept.dtd.entities(), texts, &kept.stack);
    &rest[..n as usize]
}

// What is read of them.
fn sgml_in(
    alloc: Global,
    kept: &Kept,
    texts: &Texts,
    n: u64,
) -> Result<(Syntax, usize), RefusalError>
    requires stacked { 0 < length kept.now.stack.places }
    requires within { n ≤ length (rest_in kept.now texts.now) }
    ensures read { IsSgmlRead (take n (rest_in kept.now texts.now)) result }
    ensures fits { IfOk result (λ x. offset_of kept.now.stack.places + x.1 < 2 ^ 64) }
{
    let own = own_bytes(kept, texts, n);
    read_sgml(alloc, own)
}

fn offset(stack: &InputStack) -> u64
    ensures { result ≡ offset_of stack.now.places }
{
    match stack.top() {
        Some(place) => place.at,
        None => 0,
    }
}

// Nothing is declared but this syntax, and the document is read on from here.
fn restart(
    options: &Options,
    alloc: Global,
    kept: &mut Kept,
    syntax: &Syntax,
    at: u64,
) -> Result<Turn, Stop>
    ensures ok { IfOk result (λ x. x ≡ Silent) }
    ensures kept { OnOk result (kept.new ≡ restarted syntax.now options.now.expand at kept.old) }
    ensures err { IfErr result (λ e. e ≡ stop.Memory) }
    ensures left { OnErr result (kept.new ≡ kept.old) }
{
    let dtd = match empty_type(alloc, syntax) {
        Ok(dtd) => dtd,
        Err(_) => return Err(Stop::Memory),
    };
    let stack = match document_at(options, alloc, syntax, at) {
        Ok(stack) => stack,
        Err(_) => return Err(Stop::Memory),
    };
    kept.dtd = Box::into_inner(dtd);
    kept.stack = stack;
    kept.stage = after_syntax(kept.stage);
    Ok(Turn::Silent)
}

/// A document type without declarations.
pub(crate) fn empty_type(alloc: Global, syntax: &Syntax) -> Result<Box<Dtd>, Memory>
    ensures { IfOk result (λ dtd. dtd.value ≡ nothing syntax.now) }
{
    let dtd = Dtd::new(alloc, syntax)?;
    Ok(Box::new(alloc, dtd)?)
}

fn document_at(
    options: &Options,
    alloc: Global,
    syntax: &Syntax,
    at: u64,
) -> Result<InputStack, Memory>
    ensures { IfOk result (λ s. s ≡ document_at syntax.now options.now.expand at) }
{
    let mut stack = InputStack::new(alloc, syntax.quantities.entlvl, options.expand)?;
    stack.advance(at);
    Ok(stack)
}

fn after_syntax(stage: Stage) -> Stage
    ensures { stage_of result ≡ stage_of_syntax (stage_of stage) }
{
    match stage {
        Stage::AtBeginning => Stage::BeforeDoctype,
        Stage::BeforeDoctype => Stage::BeforeDoctype,
        Stage::InSubset => Stage::InSubset,
        Stage::AfterSubset => Stage::AfterSubset,
    }
}
