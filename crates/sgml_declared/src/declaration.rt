// Declarations in a document type.
ghost use Rattle.std.specs.Prelude.{◌≡◌, IfErr, IfSome, IsSome, OnOk, OnErr};
ghost use Rattle.sgml_decl_lexemes.specs.decl_parts.declared.ends.Construct.TheVariants.{Declaration};
ghost use Rattle.sgml_declared.specs.Files.{IsNoted};
ghost use Rattle.sgml_declared.specs.Taking.{Ends, DeclarationIsTaken, DeclarationIsStopped};
ghost use Rattle.sgml_declared.specs.Over.{IsOver, IsMore};

use crate::error::TakeError;
use crate::noted::Noted;
use crate::options::Options;
use crate::reading::{go_back, read_declaration};
use crate::subset::ExternalSubset;
use sgml_dtd::Dtd;
use sgml_entity::{InputStack, Texts};
use sgml_text::RefusalError;
use std::alloc::Global;

/// Reads the declaration at the top of the stack, and adds what it says to the document type (10, 11).
/// It has so many bytes. `subset` is where the external subset is, once a head has named one; `noted` is
/// the file of a declaration before, of a run with the same options.
pub fn take_declaration(
    options: &Options,
    alloc: Global,
    dtd: &mut Dtd,
    subset: &Option<ExternalSubset>,
    texts: &Texts,
    stack: &mut InputStack,
    noted: &mut Option<Noted>,
    length: u64,
) -> Result<(), TakeError>
    requires whole { Ends Declaration dtd.old texts.now stack.old length }
    requires named { IsSome subset.now → IsSome dtd.old.name }
    requires noted { IfSome noted.old (IsNoted options.now) }
    ensures ok { OnOk result (DeclarationIsTaken options.now dtd.old subset.now texts.now dtd.new stack.old stack.new) }
    ensures over { OnOk result (IsOver Declaration dtd.old texts.now stack.old stack.new) }
    ensures more { OnOk result (IsMore dtd.old dtd.new) }
    ensures noted { IfSome noted.new (IsNoted options.now) }
    ensures err { IfErr result (DeclarationIsStopped options.now dtd.old subset.now texts.now stack.old) }
    ensures err_dtd { OnErr result (dtd.new ≡ dtd.old) }
    ensures err_stack { OnErr result (stack.new ≡ stack.old) }
{
    let found = options.note_base(alloc, dtd, subset, stack, noted)?;
    let mark = stack.mark();
    let lexemes = match read_declaration(options, alloc, dtd, subset, texts, stack, length) {
        Ok(lexemes) => lexemes,
        Err(error) => return Err(error),
    };
    match dtd.add(&lexemes, options.noted_base(found, noted)) {
        Ok(()) => Ok(()),
        Err(RefusalError::Refused(reason)) => {
            go_back(stack, mark);
            Err(TakeError::Refused(reason))
        }
        Err(RefusalError::Memory) => {
            go_back(stack, mark);
            Err(TakeError::Memory)
        }
    }
}
