// The start of a marked section.
ghost use Rattle.std.specs.Prelude.{◌≡◌, false, true, IfErr, IfOk, IsSome, OnErr, OnOk, Option};
ghost use Rattle.sgml_declared.specs.decl_parts.declared.ends.Construct.TheVariants.{SectionStart};
ghost use Rattle.sgml_declared.specs.theory_reading.Names.{Name as Bytes};
ghost use Rattle.sgml_declared.specs.theory_standing.Prologs.{is_over};
ghost use Rattle.sgml_declared.specs.Taking.{Ends, StatusIsTaken, StatusIsStopped};
ghost use Rattle.sgml_declared.specs.Over.{IsOver};
ghost use Rattle.sgml_prolog_steps.specs.Standing.{IsKept};
ghost use Rattle.sgml_prolog_steps.specs.Found.{innermost, IsTokenThere};
ghost use Rattle.sgml_prolog_steps.specs.Sorts.{sort_in, is_ignored};
ghost use Rattle.sgml_prolog_steps.specs.Steps.{IsStep};
ghost use Rattle.sgml_prolog_steps.specs.declared.sort.Sort.TheVariants as sort;

use sgml_declared::{Options, TakeError, section_status};
use sgml_entity::Texts;
use sgml_marked::Status;
use sgml_prolog_steps::{Kept, Stop, Turn, begin_section, go_back, stop_of, texts_on};
use sgml_scan::Token;
use std::alloc::Global;

/// The start of a marked section that isn't in an ignored one (10.4): a section of its status begins in
/// the text at the top. An error, want of memory too, leaves `kept` as it was.
pub fn take_section_start(
    options: &Options,
    alloc: Global,
    kept: &mut Kept,
    texts: &Texts,
    token: Token,
    ended: bool,
) -> Result<Turn, Stop>
    requires kept { IsKept kept.old }
    requires going_on { is_over kept.old ≡ false }
    requires sort { sort_in kept.old token.kind ≡ sort.SectionStart }
    requires read { is_ignored (innermost kept.old.sections) ≡ false }
    requires there { IsTokenThere kept.old texts.now ended token }
    ensures { (asked : Option Bytes) → IsStep options.now texts.now ended asked kept.old kept.new result }
{
    let level = match texts_on(kept) {
        Ok(level) => level,
        Err(_) => return Err(Stop::Memory),
    };
    let mark = kept.stack.mark();
    let status = match read_status(options, alloc, kept, texts, token.length) {
        Ok(status) => status,
        Err(error) => return Err(stop_of(error)),
    };
    match begin_section(kept, status, level) {
        Ok(()) => Ok(Turn::Silent),
        Err(_) => {
            go_back(kept, mark);
            Err(Stop::Memory)
        }
    }
}

// The status that its keywords tell. It is read over.
fn read_status(
    options: &Options,
    alloc: Global,
    kept: &mut Kept,
    texts: &Texts,
    length: u64,
) -> Result<Status, TakeError>
    requires whole { Ends SectionStart kept.old.doctype texts.now kept.old.stack length }
    requires named { IsSome kept.old.subset → IsSome kept.old.doctype.name }
    ensures taken { IfOk result (StatusIsTaken true options.now kept.old.doctype kept.old.subset texts.now kept.old.stack kept.new.stack) }
    ensures over { OnOk result (IsOver SectionStart kept.old.doctype texts.now kept.old.stack kept.new.stack) }
    ensures same { OnOk result (kept.new ≡ record kept.old { stack = kept.new.stack }) }
    ensures err { IfErr result (StatusIsStopped true options.now kept.old.doctype kept.old.subset texts.now kept.old.stack) }
    ensures left { OnErr result (kept.new ≡ kept.old) }
{
    section_status(
        options,
        alloc,
        &kept.dtd,
        &kept.subset,
        texts,
        &mut kept.stack,
        length,
        true,
    )
}
