// The head of the document type declaration.
ghost use Rattle.std.specs.Prelude.{◌≡◌, [], true, false, None, IfErr, OnErr, OnOk};
ghost use Rattle.sgml_declared.specs.decl_parts.declared.ends.Construct.TheVariants.{Declaration};
ghost use Rattle.sgml_declared.specs.theory_reading.Facets.{stage_of_head};
ghost use Rattle.sgml_declared.specs.theory_standing.Prologs.{is_over};
ghost use Rattle.sgml_declared.specs.Files.{sources_in};
ghost use Rattle.sgml_declared.specs.Taking.{Ends};
ghost use Rattle.sgml_declared.specs.Heads.{HeadIsStopped};
ghost use Rattle.sgml_prolog_steps.specs.Standing.{stage_of, IsKept};
ghost use Rattle.sgml_prolog_steps.specs.Found.{IsTokenThere};
ghost use Rattle.sgml_prolog_steps.specs.Sorts.{sort_in};
ghost use Rattle.sgml_prolog_steps.specs.Steps.{IsStep};
ghost use Rattle.sgml_prolog_steps.specs.declared.sort.Sort.TheVariants as sort;
ghost use Rattle.sgml_prolog.specs.Heads.{is_head, IsHeadKept};

use sgml_declared::{Options, TakeError, take_head};
use sgml_entity::Texts;
use sgml_prolog_steps::{Kept, Stage, Stop, Turn, stop_of};
use sgml_scan::Token;
use sgml_text::Text;
use std::alloc::Global;

/// Takes the head of a document type declaration (11.1). The text of the external subset that it names
/// may have been given already, if it was asked for in the file `asked`.
pub fn take_head_step(
    options: &Options,
    alloc: Global,
    kept: &mut Kept,
    texts: &Texts,
    asked: &Option<Text>,
    token: Token,
    ended: bool,
) -> Result<Turn, Stop>
    requires kept { IsKept kept.old }
    requires going_on { is_over kept.old ≡ false }
    requires there { IsTokenThere kept.old texts.now ended token }
    requires sort { sort_in kept.old token.kind ≡ sort.Head }
    requires head { is_head kept.old texts.now token ≡ true }
    ensures { IsStep options.now texts.now ended asked.now kept.old kept.new result }
{
    match read(options, alloc, kept, texts, asked, token.length) {
        Ok(()) => Ok(Turn::Silent),
        Err(error) => Err(stop_of(error)),
    }
}

// Adds the name that it says, and reads over it.
fn read(
    options: &Options,
    alloc: Global,
    kept: &mut Kept,
    texts: &Texts,
    asked: &Option<Text>,
    length: u64,
) -> Result<(), TakeError>
    requires whole { Ends Declaration kept.old.doctype texts.now kept.old.stack length }
    requires first { kept.old.doctype.entities ≡ [] }
    ensures taken { OnOk result (IsHeadKept options.now texts.now asked.now kept.old kept.new) }
    ensures err { IfErr result (HeadIsStopped options.now (sources_in kept.old.doctype None) texts.now asked.now kept.old.stack) }
    ensures left { OnErr result (kept.new ≡ kept.old) }
{
    let head = match take_head(
        options,
        alloc,
        &mut kept.dtd,
        texts,
        asked,
        &mut kept.stack,
        length,
    ) {
        Ok(head) => head,
        Err(error) => return Err(error),
    };
    kept.subset = head.external;
    kept.stage = stage_of_head(head.subset);
    Ok(())
}

// An internal subset begins, or the declaration is over.
fn stage_of_head(subset: bool) -> Stage
    ensures { stage_of result ≡ stage_of_head subset }
{
    if subset {
        Stage::InSubset
    } else {
        Stage::AfterSubset
    }
}
