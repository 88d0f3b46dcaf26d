// The starts of marked sections.
ghost use Rattle.std.specs.Prelude.{◌≡◌, ◌<◌, ◌≤◌, [], length, false, IfErr, IfOk, IsSome, OnErr, OnOk};
ghost use Rattle.sgml_theory_reading.specs.records.Items as item;
ghost use Rattle.sgml_decl_lexemes.specs.decl_parts.declared.ends.Construct.TheVariants.{SectionStart};
ghost use Rattle.sgml_marked.specs.declared.status.Status.TheVariants as statuses;
ghost use Rattle.sgml_scan.specs.markup.declared.kinds.TokenKind.TheVariants as kind;
ghost use Rattle.sgml_declared.specs.Taking.{Ends, StatusIsTaken, StatusIsStopped};
ghost use Rattle.sgml_declared.specs.Over.{IsOver};
ghost use Rattle.sgml_prolog_steps.specs.Found.{rest_in, SectionEnds};
ghost use Rattle.sgml_content_steps.specs.Content.{IsContent};
ghost use Rattle.sgml_content_steps.specs.Steps.{TakesAt};
ghost use Rattle.sgml_content_sections.specs.Starts.{is_ignored, section_begun, IsBegun, IsNotBegun};

use sgml_content_steps::Content;
use sgml_declared::{Options, TakeError, section_status};
use sgml_delim::Mode;
use sgml_entity::Texts;
use sgml_inside::Item;
use sgml_marked::Status;
use sgml_prolog_steps::{Kept, Stop, begin_section, go_back, read_over, stop_of, texts_on};
use sgml_scan::{ScanState, Token};
use sgml_text::Memory;
use std::alloc::Global;

/// The start of a marked section (10.4): one of its status begins in the text at the top. In an ignored section
/// it is ignored, and no status keyword is read.
pub fn take_section_start(
    options: &Options,
    alloc: Global,
    content: &mut Content,
    texts: &Texts,
    state: ScanState,
    token: Token,
) -> Result<(), Stop>
    requires content { IsContent content.old }
    requires within { token.length ≤ length (rest_in content.old.kept texts.now) }
    requires kind { token.kind ≡ kind.SectionStart }
    requires whole { SectionEnds state.mode content.old.kept texts.now token.length }
    ensures { TakesAt options.now state texts.now token content.old content.new [] result }
{
    let level = match texts_on(&content.kept) {
        Ok(level) => level,
        Err(_) => return Err(Stop::Memory),
    };
    if is_ignored(state.mode) {
        return match begin_ignored(content, texts, level, token.length) {
            Ok(()) => Ok(()),
            Err(_) => Err(Stop::Memory),
        };
    }
    match begin_by_status(
        options,
        alloc,
        &mut content.kept,
        texts,
        level,
        token.length,
    ) {
        Ok(()) => {
            content.inside.note(Item::Markup);
            Ok(())
        }
        Err(stop) => Err(stop),
    }
}

fn is_ignored(mode: Mode) -> bool
    ensures { result ≡ is_ignored mode }
{
    match mode {
        Mode::Ign => true,
        _ => false,
    }
}

fn begin_ignored(content: &mut Content, texts: &Texts, level: u32, n: u64) -> Result<(), Memory>
    requires stacked { 0 < length content.old.kept.stack.places }
    requires within { n ≤ length (rest_in content.old.kept texts.now) }
    ensures ok { OnOk result (content.new ≡ section_begun statuses.Ignore level n content.old) }
    ensures err { OnErr result (content.new ≡ content.old) }
{
    begin_section(&mut content.kept, Status::Ignore, level)?;
    read_over(&mut content.kept, texts, n);
    content.inside.note(Item::Markup);
    Ok(())
}

// Begins a section of the status that its keywords tell.
fn begin_by_status(
    options: &Options,
    alloc: Global,
    kept: &mut Kept,
    texts: &Texts,
    level: u32,
    size: u64,
) -> Result<(), Stop>
    requires stacked { 0 < length kept.old.stack.places }
    requires whole { Ends SectionStart kept.old.doctype texts.now kept.old.stack size }
    requires named { IsSome kept.old.subset → IsSome kept.old.doctype.name }
    ensures ok { OnOk result (IsBegun options.now texts.now level kept.old kept.new) }
    ensures err { IfErr result (IsNotBegun options.now texts.now kept.old) }
    ensures left { OnErr result (kept.new ≡ kept.old) }
{
    let mark = kept.stack.mark();
    let status = match read_status(options, alloc, kept, texts, size) {
        Ok(status) => status,
        Err(error) => return Err(stop_of(error)),
    };
    match begin_section(kept, status, level) {
        Ok(()) => Ok(()),
        Err(_) => {
            go_back(kept, mark);
            Err(Stop::Memory)
        }
    }
}

// The status that its keywords tell. The start is all there, and is read over.
fn read_status(
    options: &Options,
    alloc: Global,
    kept: &mut Kept,
    texts: &Texts,
    size: u64,
) -> Result<Status, TakeError>
    requires whole { Ends SectionStart kept.old.doctype texts.now kept.old.stack size }
    requires named { IsSome kept.old.subset → IsSome kept.old.doctype.name }
    ensures taken { IfOk result (StatusIsTaken false options.now kept.old.doctype kept.old.subset texts.now kept.old.stack kept.new.stack) }
    ensures over { OnOk result (IsOver SectionStart kept.old.doctype texts.now kept.old.stack kept.new.stack) }
    ensures same { OnOk result (kept.new ≡ record kept.old { stack = kept.new.stack }) }
    ensures err { IfErr result (StatusIsStopped false options.now kept.old.doctype kept.old.subset texts.now kept.old.stack) }
    ensures left { OnErr result (kept.new ≡ kept.old) }
{
    section_status(
        options,
        alloc,
        &kept.dtd,
        &kept.subset,
        texts,
        &mut kept.stack,
        size,
        false,
    )
}
