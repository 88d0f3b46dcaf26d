// Declarations in the document type.
ghost use Rattle.std.specs.Prelude.{◌≡◌, false, IfErr, IfSome, IsSome, OnErr, OnOk, Option};
ghost use Rattle.sgml_declared.specs.decl_parts.declared.ends.Construct.TheVariants.{Declaration};
ghost use Rattle.sgml_declared.specs.theory_reading.Names.{Name as Bytes};
ghost use Rattle.sgml_declared.specs.theory_standing.Prologs.{is_over};
ghost use Rattle.sgml_declared.specs.Files.{IsNoted};
ghost use Rattle.sgml_declared.specs.Taking.{Ends, DeclarationIsStopped};
ghost use Rattle.sgml_declared.specs.Over.{IsOver, IsMore};
ghost use Rattle.sgml_prolog_steps.specs.Standing.{IsKept};
ghost use Rattle.sgml_prolog_steps.specs.Found.{IsTokenThere};
ghost use Rattle.sgml_prolog_steps.specs.Sorts.{sort_in};
ghost use Rattle.sgml_prolog_steps.specs.Steps.{IsStep};
ghost use Rattle.sgml_prolog_steps.specs.declared.sort.Sort.TheVariants as sort;
ghost use Rattle.sgml_prolog.specs.Declaring.{TakesDeclaration};

use sgml_declared::{Noted, Options, TakeError, take_declaration};
use sgml_entity::Texts;
use sgml_prolog_steps::{Kept, Stop, Turn, sgml_reason, stop_of};
use sgml_scan::Token;
use std::alloc::Global;

/// A declaration in the document type (10, 11). A second SGML declaration has no place there (13).
pub fn take_declaration_step(
    options: &Options,
    alloc: Global,
    kept: &mut Kept,
    texts: &Texts,
    noted: &mut Option<Noted>,
    token: Token,
    ended: bool,
) -> Result<Turn, Stop>
    requires kept { IsKept kept.old }
    requires going_on { is_over kept.old ≡ false }
    requires sort { sort_in kept.old token.kind ≡ sort.Declaration }
    requires there { IsTokenThere kept.old texts.now ended token }
    requires noted { IfSome noted.old (IsNoted options.now) }
    ensures step { (asked : Option Bytes) → IsStep options.now texts.now ended asked kept.old kept.new result }
    ensures noted { IfSome noted.new (IsNoted options.now) }
{
    match sgml_reason(alloc, kept, texts, token.length) {
        Ok(None) => {}
        Ok(Some(reason)) => return Err(Stop::Refused(reason)),
        Err(_) => return Err(Stop::Memory),
    }
    match read(options, alloc, kept, texts, noted, token.length) {
        Ok(()) => Ok(Turn::Silent),
        Err(error) => Err(stop_of(error)),
    }
}

// Adds what it says, and reads over it.
fn read(
    options: &Options,
    alloc: Global,
    kept: &mut Kept,
    texts: &Texts,
    noted: &mut Option<Noted>,
    length: u64,
) -> Result<(), TakeError>
    requires whole { Ends Declaration kept.old.doctype texts.now kept.old.stack length }
    requires named { IsSome kept.old.subset → IsSome kept.old.doctype.name }
    requires noted { IfSome noted.old (IsNoted options.now) }
    ensures taken { OnOk result (TakesDeclaration options.now texts.now kept.old kept.new) }
    ensures over { OnOk result (IsOver Declaration kept.old.doctype texts.now kept.old.stack kept.new.stack) }
    ensures more { OnOk result (IsMore kept.old.doctype kept.new.doctype) }
    ensures same { OnOk result (kept.new ≡ record kept.old { doctype = kept.new.doctype; stack = kept.new.stack }) }
    ensures noted { IfSome noted.new (IsNoted options.now) }
    ensures err { IfErr result (DeclarationIsStopped options.now kept.old.doctype kept.old.subset texts.now kept.old.stack) }
    ensures left { OnErr result (kept.new ≡ kept.old) }
{
    match take_declaration(
        options,
        alloc,
        &mut kept.dtd,
        &kept.subset,
        texts,
        &mut kept.stack,
        noted,
        length,
    ) {
        Ok(()) => {}
        Err(error) => return Err(error),
    }
    Ok(())
}
