// The lexemes of what stands at the top of the stack, and the way back from there.
ghost use Rattle.std.specs.Prelude.{◌≡◌, ◌<◌, ◌≤◌, IfOk, IfErr, IsSome, OnOk, OnErr, length};
ghost use Rattle.sgml_entity.specs.Stack.{Stack};
ghost use Rattle.sgml_decl_lexemes.specs.decl_parts.declared.ends.Construct.TheVariants.{Declaration, SectionStart, SubsetEnd};
ghost use Rattle.sgml_declared.specs.Files.{sources_in};
ghost use Rattle.sgml_declared.specs.Taking.{Ends, IsWhole};
ghost use Rattle.sgml_declared.specs.Over.{IsOver};
ghost use Rattle.sgml_declared.specs.Reading.{IsAhead, IsMarkOf, IsTold, IsWantTold, AreTheLexemes, LexemesAreStopped};

use crate::error::TakeError;
use crate::options::Options;
use crate::subset::ExternalSubset;
use sgml_decl_lexemes::{LexError, Lexemes, scanned_lexemes, scanned_section_start, subset_end};
use sgml_dtd::Dtd;
use sgml_entity::{InputStack, StackMark, Texts};
use sgml_text::Reason;
use std::alloc::Global;

/// The lexemes of the declaration at the top of the stack, which has so many bytes.
pub(crate) fn read_declaration(
    options: &Options,
    alloc: Global,
    dtd: &Dtd,
    subset: &Option<ExternalSubset>,
    texts: &Texts,
    stack: &mut InputStack,
    length: u64,
) -> Result<Lexemes, TakeError>
    requires whole { Ends Declaration dtd.now texts.now stack.old length }
    requires named { IsSome subset.now → IsSome dtd.now.name }
    ensures ok { IfOk result (AreTheLexemes Declaration options.now dtd.now subset.now texts.now stack.old stack.new) }
    ensures over { OnOk result (IsOver Declaration dtd.now texts.now stack.old stack.new) }
    ensures ahead { OnOk result (IsAhead stack.old stack.new) }
    ensures err { IfErr result (LexemesAreStopped Declaration options.now dtd.now subset.now texts.now stack.old) }
    ensures err_stack { OnErr result (stack.new ≡ stack.old) }
{
    match scanned_lexemes(alloc, dtd.syntax(), dtd.entities(), stack, texts, length) {
        Ok(lexemes) => Ok(lexemes),
        Err(error) => Err(take_error(options, alloc, dtd, subset, error)),
    }
}

/// The lexemes of the start of a marked section at the top of the stack, which has so many bytes.
pub(crate) fn read_section_start(
    options: &Options,
    alloc: Global,
    dtd: &Dtd,
    subset: &Option<ExternalSubset>,
    texts: &Texts,
    stack: &mut InputStack,
    length: u64,
) -> Result<Lexemes, TakeError>
    requires whole { Ends SectionStart dtd.now texts.now stack.old length }
    requires named { IsSome subset.now → IsSome dtd.now.name }
    ensures ok { IfOk result (AreTheLexemes SectionStart options.now dtd.now subset.now texts.now stack.old stack.new) }
    ensures over { OnOk result (IsOver SectionStart dtd.now texts.now stack.old stack.new) }
    ensures ahead { OnOk result (IsAhead stack.old stack.new) }
    ensures err { IfErr result (LexemesAreStopped SectionStart options.now dtd.now subset.now texts.now stack.old) }
    ensures err_stack { OnErr result (stack.new ≡ stack.old) }
{
    match scanned_section_start(alloc, dtd.syntax(), dtd.entities(), stack, texts, length) {
        Ok(lexemes) => Ok(lexemes),
        Err(error) => Err(take_error(options, alloc, dtd, subset, error)),
    }
}

/// The lexemes of the end of a document type at the top of the stack, which are none.
pub(crate) fn read_subset_end(
    options: &Options,
    alloc: Global,
    dtd: &Dtd,
    subset: &Option<ExternalSubset>,
    texts: &Texts,
    stack: &mut InputStack,
    ended: bool,
) -> Result<Lexemes, TakeError>
    requires whole { IsWhole SubsetEnd dtd.now texts.now stack.old }
    requires named { IsSome subset.now → IsSome dtd.now.name }
    ensures ok { IfOk result (AreTheLexemes SubsetEnd options.now dtd.now subset.now texts.now stack.old stack.new) }
    ensures over { OnOk result (IsOver SubsetEnd dtd.now texts.now stack.old stack.new) }
    ensures err { IfErr result (LexemesAreStopped SubsetEnd options.now dtd.now subset.now texts.now stack.old) }
    ensures err_stack { OnErr result (stack.new ≡ stack.old) }
{
    match subset_end(alloc, dtd.syntax(), dtd.entities(), stack, texts, ended) {
        Ok(lexemes) => Ok(lexemes),
        Err(error) => Err(take_error(options, alloc, dtd, subset, error)),
    }
}

/// The error that one of lexemes is, with the file of a text that is wanted. That more is needed never comes: what is read is
/// whole.
pub fn take_error(
    options: &Options,
    alloc: Global,
    dtd: &Dtd,
    subset: &Option<ExternalSubset>,
    error: LexError,
) -> TakeError
    requires { IsSome subset.now → IsSome dtd.now.name }
    ensures { IsTold options.now (sources_in dtd.now subset.now) error result }
{
    match error {
        LexError::Refused(reason) => TakeError::Refused(reason),
        LexError::Wanted(entity) => want(options, alloc, dtd, subset, entity),
        LexError::NeedMore => TakeError::Refused(Reason::Unclosed),
        LexError::Memory => TakeError::Memory,
    }
}

// The text of this entity is wanted.
fn want(
    options: &Options,
    alloc: Global,
    dtd: &Dtd,
    subset: &Option<ExternalSubset>,
    entity: u32,
) -> TakeError
    requires { IsSome subset.now → IsSome dtd.now.name }
    ensures { IsWantTold options.now (sources_in dtd.now subset.now) entity result }
{
    match options.file_of(alloc, dtd, subset, entity) {
        Ok(Some(file)) => TakeError::Wanted { entity, file },
        Ok(None) => TakeError::Refused(Reason::Unresolved),
        Err(_) => TakeError::Memory,
    }
}

/// Goes back to where the stack was marked.
pub(crate) fn go_back(stack: &mut InputStack, mark: StackMark)
    requires depth { mark.depth < length stack.old.places }
    requires spent { mark.spent ≤ stack.old.expand }
    ensures { (s : Stack) → IsMarkOf mark s → IsAhead s stack.old → stack.new ≡ s }
{
    stack.rewind(mark);
}
