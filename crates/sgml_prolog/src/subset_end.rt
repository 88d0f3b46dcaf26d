// The end of a document type.
ghost use Rattle.std.specs.Prelude.{◌≡◌, ◌==◌, ◌<◌, ℕ, false, is_some, length, true, IfErr, IsSome, List, OnErr, OnOk, Option};
ghost use Rattle.sgml_declared.specs.decl_lexemes.Readings.{entity_of};
ghost use Rattle.sgml_declared.specs.decl_parts.declared.ends.Construct.TheVariants.{SubsetEnd};
ghost use Rattle.sgml_declared.specs.theory_reading.Facets.{AfterSubset, subset_number};
ghost use Rattle.sgml_declared.specs.theory_reading.Names.{Name as Bytes};
ghost use Rattle.sgml_declared.specs.theory_standing.Kept.{sources_of};
ghost use Rattle.sgml_declared.specs.theory_standing.Prologs.{is_over};
ghost use Rattle.sgml_declared.specs.Files.{Choices};
ghost use Rattle.sgml_declared.specs.Opening.{Opens, IsPushed};
ghost use Rattle.sgml_declared.specs.Taking.{IsWhole, EndIsTaken, EndIsStopped};
ghost use Rattle.sgml_declared.specs.Over.{IsOver};
ghost use Rattle.sgml_prolog_steps.specs.Standing.{IsKept};
ghost use Rattle.sgml_prolog_steps.specs.Found.{IsTokenThere};
ghost use Rattle.sgml_prolog_steps.specs.Sorts.{sort_in};
ghost use Rattle.sgml_prolog_steps.specs.Steps.{IsStep, Takes};
ghost use Rattle.sgml_prolog_steps.specs.declared.sort.Sort.TheVariants as sort;
ghost use Rattle.sgml_prolog.specs.Ending.{EndsType, IsSubsetOn, IsAtOrOver};

use sgml_declared::{OpenError, Options, TakeError, open, take_subset_end};
use sgml_entity::Texts;
use sgml_prolog_steps::{Kept, Stage, Stop, Turn, go_back, is_section_open, stop_of};
use sgml_scan::Token;
use sgml_text::{Reason, RefusalError};
use std::alloc::Global;

// The number of the external subset.
const SUBSET: u32 = 1;

// How many texts are being read where a section begins in the document's text, which lies under all others.
const DOCUMENT_ALONE: u32 = 1;

/// The end of a document type, from `]` to `>`, in the document's own text (11.1). The external subset
/// is opened then, where one was named, and its want is told first. No section may be open (10.4), and
/// without an external subset all that is used must have been declared. An error leaves `kept` as it was.
pub fn take_subset_end_step(
    options: &Options,
    alloc: Global,
    kept: &mut Kept,
    texts: &Texts,
    token: Token,
    ended: bool,
) -> Result<Turn, Stop>
    requires kept { IsKept kept.old }
    requires going_on { is_over kept.old ≡ false }
    requires there { IsTokenThere kept.old texts.now ended token }
    requires sort { sort_in kept.old token.kind ≡ sort.SubsetEnd }
    requires here { (entity_of kept.old.stack.places == 0) ≡ true }
    ensures { (asked : Option Bytes) → IsStep options.now texts.now ended asked kept.old kept.new result }
{
    let mark = kept.stack.mark();
    match read_end(options, alloc, kept, texts, ended) {
        Ok(()) => {}
        Err(error) => return Err(stop_of(error)),
    }
    match end_type(options, alloc, kept, texts) {
        Ok(()) => {
            leave_subset(kept);
            Ok(Turn::Silent)
        }
        Err(stop) => {
            go_back(kept, mark);
            Err(stop)
        }
    }
}

/// A `]` in another text than the document's, where no document type ends (11.1).
pub fn refuse_subset_end(kept: &Kept, texts: &Texts, token: Token) -> Result<Turn, Stop>
    requires going_on { is_over kept.now ≡ false }
    requires sort { sort_in kept.now token.kind ≡ sort.SubsetEnd }
    requires elsewhere { (entity_of kept.now.stack.places == 0) ≡ false }
    ensures { Takes texts.now token kept.now kept.now result }
{
    Err(Stop::Refused(Reason::DeclarationSyntax))
}

// Reads over what is spelled there.
fn read_end(
    options: &Options,
    alloc: Global,
    kept: &mut Kept,
    texts: &Texts,
    ended: bool,
) -> Result<(), TakeError>
    requires whole { IsWhole SubsetEnd kept.old.doctype texts.now kept.old.stack }
    requires named { IsSome kept.old.subset → IsSome kept.old.doctype.name }
    ensures taken { OnOk result (EndIsTaken options.now kept.old.doctype kept.old.subset texts.now kept.old.stack kept.new.stack) }
    ensures over { OnOk result (IsOver SubsetEnd kept.old.doctype texts.now kept.old.stack kept.new.stack) }
    ensures same { OnOk result (kept.new ≡ record kept.old { stack = kept.new.stack }) }
    ensures err { IfErr result (EndIsStopped options.now kept.old.doctype kept.old.subset texts.now kept.old.stack) }
    ensures left { OnErr result (kept.new ≡ kept.old) }
{
    take_subset_end(
        options,
        alloc,
        &kept.dtd,
        &kept.subset,
        texts,
        &mut kept.stack,
        ended,
    )
}

// Ends the document type whose end was read over. Its external subset is on the stack then.
fn end_type(options: &Options, alloc: Global, kept: &mut Kept, texts: &Texts) -> Result<(), Stop>
    requires alone { length kept.old.stack.places ≡ 1 }
    requires kept { IsKept kept.old }
    ensures ends { EndsType options.now texts.now kept.old result }
    ensures subset { OnOk result (IsSubsetOn kept.old.subset kept.old.doctype.entities texts.now kept.old.stack kept.new.stack) }
    ensures same { kept.new ≡ record kept.old { stack = kept.new.stack } }
    ensures over { IsAtOrOver kept.old.stack kept.new.stack }
{
    if kept.subset.is_some() {
        open_subset(options, alloc, kept, texts)
    } else {
        end_alone(kept)
    }
}

// Opens the external subset, and then asks whether a section is open.
fn open_subset(options: &Options, alloc: Global, kept: &mut Kept, texts: &Texts) -> Result<(), Stop>
    requires alone { length kept.old.stack.places ≡ 1 }
    requires kept { IsKept kept.old }
    requires some { is_some kept.old.subset ≡ true }
    ensures ends { EndsType options.now texts.now kept.old result }
    ensures subset { OnOk result (IsSubsetOn kept.old.subset kept.old.doctype.entities texts.now kept.old.stack kept.new.stack) }
    ensures same { kept.new ≡ record kept.old { stack = kept.new.stack } }
    ensures over { IsAtOrOver kept.old.stack kept.new.stack }
{
    match push_subset(options, alloc, kept, texts) {
        Ok(()) => {}
        Err(OpenError::Refused(reason)) => return Err(Stop::Refused(reason)),
        Err(OpenError::Wanted(file)) => return Err(Stop::Wanted {
            entity: SUBSET,
            file,
        }),
        Err(OpenError::Memory) => return Err(Stop::Memory),
    }
    if is_section_open(kept, DOCUMENT_ALONE) {
        return Err(Stop::Refused(Reason::SectionOpen));
    }
    Ok(())
}

fn push_subset(
    options: &Options,
    alloc: Global,
    kept: &mut Kept,
    texts: &Texts,
) -> Result<(), OpenError>
    requires stacked { 0 < length kept.old.stack.places }
    requires named { IsSome kept.old.subset → IsSome kept.old.doctype.name }
    ensures opens { Opens options.now (sources_of kept.old) texts.now kept.old.stack kept.new.stack subset_number result }
    ensures pushed { OnOk result (IsPushed kept.old.doctype.entities texts.now kept.old.stack kept.new.stack subset_number) }
    ensures same { kept.new ≡ record kept.old { stack = kept.new.stack } }
    ensures left { OnErr result (kept.new ≡ kept.old) }
{
    open(
        options,
        alloc,
        &kept.dtd,
        &kept.subset,
        texts,
        &mut kept.stack,
        SUBSET,
    )
}

// Without an external subset the document type is judged here.
fn end_alone(kept: &Kept) -> Result<(), Stop>
    requires alone { length kept.now.stack.places ≡ 1 }
    requires kept { IsKept kept.now }
    requires none { is_some kept.now.subset ≡ false }
    ensures { (c : Choices) (texts : List (ℕ × Bytes)) → EndsType c texts kept.now result }
{
    if is_section_open(kept, DOCUMENT_ALONE) {
        return Err(Stop::Refused(Reason::SectionOpen));
    }
    match kept.dtd.finish() {
        Ok(()) => Ok(()),
        Err(RefusalError::Refused(reason)) => Err(Stop::Refused(reason)),
        Err(RefusalError::Memory) => Err(Stop::Memory),
    }
}

fn leave_subset(kept: &mut Kept)
    ensures { kept.new ≡ record kept.old { stage = AfterSubset } }
{
    kept.stage = Stage::AfterSubset;
}
