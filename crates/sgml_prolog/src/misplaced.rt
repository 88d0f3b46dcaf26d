// Another declaration where the head of the document type declaration may stand.
ghost use Rattle.std.specs.Prelude.{◌≡◌, false, Option};
ghost use Rattle.sgml_declared.specs.theory_reading.Names.{Name};
ghost use Rattle.sgml_declared.specs.theory_standing.Prologs.{is_over};
ghost use Rattle.sgml_prolog_steps.specs.Standing.{IsKept};
ghost use Rattle.sgml_prolog_steps.specs.Found.{IsTokenThere};
ghost use Rattle.sgml_prolog_steps.specs.Sorts.{sort_in};
ghost use Rattle.sgml_prolog_steps.specs.Steps.{IsStep};
ghost use Rattle.sgml_prolog_steps.specs.declared.sort.Sort.TheVariants as sort;
ghost use Rattle.sgml_prolog.specs.Heads.{is_head};

use sgml_declared::{Options, misplaced_declaration};
use sgml_entity::Texts;
use sgml_prolog_steps::{Kept, Stop, Turn};
use sgml_scan::Token;
use std::alloc::Global;

/// Refuses a declaration that isn't the head.
pub fn refuse_other(
    options: &Options,
    alloc: Global,
    kept: &mut Kept,
    texts: &Texts,
    ended: bool,
    token: Token,
) -> Result<Turn, Stop>
    requires kept { IsKept kept.old }
    requires going_on { is_over kept.old ≡ false }
    requires there { IsTokenThere kept.old texts.now ended token }
    requires sort { sort_in kept.old token.kind ≡ sort.Head }
    requires other { is_head kept.old texts.now token ≡ false }
    ensures { (asked : Option Name) → IsStep options.now texts.now ended asked kept.old kept.new result }
{
    match misplaced_declaration(
        options,
        alloc,
        &kept.dtd,
        texts,
        &mut kept.stack,
        token.length,
    ) {
        Ok(reason) => Err(Stop::Refused(reason)),
        Err(_) => Err(Stop::Memory),
    }
}
