// The lexemes of a declaration in content.
ghost use Rattle.std.specs.Prelude.{◌≡◌, IfErr, IfOk, IsSome, OnErr, OnOk, true};
ghost use Rattle.sgml_decl_lexemes.specs.decl_parts.declared.ends.Construct.TheVariants.{Declaration};
ghost use Rattle.sgml_decl_lexemes.specs.Declares.{asked, begins};
ghost use Rattle.sgml_decl_lexemes.specs.Wholeness.{is_end_reached};
ghost use Rattle.sgml_declared.specs.Taking.{IsWhole};
ghost use Rattle.sgml_declared.specs.Over.{IsOver};
ghost use Rattle.sgml_declared.specs.Reading.{AreTheLexemes};
ghost use Rattle.sgml_content_sections.specs.Uses.{LexemesAreRefused, TellsNoCharacter, is_no_character};
ghost use Rattle.sgml_content_sections.specs.Lexing.{AreLexemesNext};

use sgml_decl_lexemes::{LexError, Lexemes, lexemes, reaches_end};
use sgml_declared::{ExternalSubset, Options, TakeError, take_error};
use sgml_dtd::Dtd;
use sgml_entity::{Entities, InputStack, Texts};
use sgml_prolog_steps::Kept;
use sgml_syntax::Syntax;
use sgml_text::Reason;
use std::alloc::Global;

/// The lexemes of the declaration at the top of the stack, which is all there and is read over; or why
/// it is none that may stand in content.
pub(crate) fn read_lexemes(
    options: &Options,
    alloc: Global,
    kept: &mut Kept,
    texts: &Texts,
) -> Result<Lexemes, TakeError>
    requires whole { IsWhole Declaration kept.old.doctype texts.now kept.old.stack }
    requires named { IsSome kept.old.subset → IsSome kept.old.doctype.name }
    ensures ok { IfOk result (AreLexemesNext options.now texts.now kept.old kept.new) }
    ensures over { OnOk result (IsOver Declaration kept.old.doctype texts.now kept.old.stack kept.new.stack) }
    ensures same { OnOk result (kept.new ≡ record kept.old { stack = kept.new.stack }) }
    ensures err { IfErr result (LexemesAreRefused options.now kept.old.doctype kept.old.subset texts.now kept.old.stack) }
    ensures left { OnErr result (kept.new ≡ kept.old) }
{
    read_on(
        options,
        alloc,
        &kept.dtd,
        &kept.subset,
        texts,
        &mut kept.stack,
    )
}

fn read_on(
    options: &Options,
    alloc: Global,
    dtd: &Dtd,
    subset: &Option<ExternalSubset>,
    texts: &Texts,
    stack: &mut InputStack,
) -> Result<Lexemes, TakeError>
    requires whole { IsWhole Declaration dtd.now texts.now stack.old }
    requires named { IsSome subset.now → IsSome dtd.now.name }
    ensures ok { IfOk result (AreTheLexemes Declaration options.now dtd.now subset.now texts.now stack.old stack.new) }
    ensures over { OnOk result (IsOver Declaration dtd.now texts.now stack.old stack.new) }
    ensures err { IfErr result (LexemesAreRefused options.now dtd.now subset.now texts.now stack.old) }
    ensures left { OnErr result (stack.new ≡ stack.old) }
{
    let syntax = dtd.syntax();
    let entities = dtd.entities();
    match lexemes(alloc, syntax, entities, stack, texts, true) {
        Ok(lexemes) => Ok(lexemes),
        Err(error) => {
            if is_no_character(error) {
                return Err(no_character(alloc, syntax, entities, texts, stack));
            }
            Err(take_error(options, alloc, dtd, subset, error))
        }
    }
}

fn is_no_character(error: LexError) -> bool
    ensures { result ≡ is_no_character error }
{
    match error {
        LexError::Refused(Reason::CharNumber) => true,
        _ => false,
    }
}

// The error of a declaration with a reference to no character (9.5): where its end is reached, it is
// refused because it has no place.
fn no_character(
    alloc: Global,
    syntax: &Syntax,
    entities: &Entities,
    texts: &Texts,
    stack: &mut InputStack,
) -> TakeError
    requires { begins Declaration entities.now.entities texts.now stack.old.places ≡ true }
    ensures told { TellsNoCharacter (is_end_reached (asked Declaration syntax.now entities.now texts.now stack.old true)) result }
    ensures stack { stack.new ≡ stack.old }
{
    match reaches_end(alloc, syntax, entities, stack, texts, true) {
        Ok(true) => TakeError::Refused(Reason::DeclarationPlace),
        Ok(false) => TakeError::Refused(Reason::CharNumber),
        Err(_) => TakeError::Memory,
    }
}
