// The end of a document type.
ghost use Rattle.std.specs.Prelude.{◌≡◌, IfErr, IsSome, OnOk, OnErr};
ghost use Rattle.sgml_decl_lexemes.specs.decl_parts.declared.ends.Construct.TheVariants.{SubsetEnd};
ghost use Rattle.sgml_declared.specs.Taking.{IsWhole, EndIsTaken, EndIsStopped};
ghost use Rattle.sgml_declared.specs.Over.{IsOver};

use crate::error::TakeError;
use crate::options::Options;
use crate::reading::read_subset_end;
use crate::subset::ExternalSubset;
use sgml_dtd::Dtd;
use sgml_entity::{InputStack, Texts};
use std::alloc::Global;

/// Reads the end of the document type at the top of the stack, from `]` to `>` (11.1). Whether the
/// document type may end there isn't judged.
pub fn take_subset_end(
    options: &Options,
    alloc: Global,
    dtd: &Dtd,
    subset: &Option<ExternalSubset>,
    texts: &Texts,
    stack: &mut InputStack,
    ended: bool,
) -> Result<(), TakeError>
    requires whole { IsWhole SubsetEnd dtd.now texts.now stack.old }
    requires named { IsSome subset.now → IsSome dtd.now.name }
    ensures ok { OnOk result (EndIsTaken options.now dtd.now subset.now texts.now stack.old stack.new) }
    ensures over { OnOk result (IsOver SubsetEnd dtd.now texts.now stack.old stack.new) }
    ensures err { IfErr result (EndIsStopped options.now dtd.now subset.now texts.now stack.old) }
    ensures err_stack { OnErr result (stack.new ≡ stack.old) }
{
    match read_subset_end(options, alloc, dtd, subset, texts, stack, ended) {
        Ok(_) => Ok(()),
        Err(error) => Err(error),
    }
}
