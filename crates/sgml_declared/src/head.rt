// The head of a document type declaration.
ghost use Rattle.std.specs.Prelude.{◌≡◌, [], Err, IfOk, IfErr, OnErr, None};
ghost use Rattle.sgml_decl_lexemes.specs.decl_parts.declared.ends.Construct.TheVariants.{Declaration};
ghost use Rattle.sgml_theory_standing.specs.theory_spelling.Prolog.{other_reason};
ghost use Rattle.sgml_declared.specs.Files.{sources_in};
ghost use Rattle.sgml_declared.specs.Taking.{Ends};
ghost use Rattle.sgml_declared.specs.Heads.{HeadIsTaken, HeadIsStopped, IsMisplaced};
ghost use Rattle.sgml_declared.specs.Over.{HeadIsOver};

use crate::adding::add_head;
use crate::error::TakeError;
use crate::options::Options;
use crate::reading::{go_back, read_declaration};
use crate::subset::ExternalSubset;
use sgml_dtd::Dtd;
use sgml_entity::{InputStack, Texts};
use sgml_text::{Memory, Reason, Text};
use std::alloc::Global;

/// What the head of a document type declaration says beside the type's name.
#[derive(Drop)]
pub struct Head {
    /// Where the external subset is that it names.
    pub external: Option<ExternalSubset>,
    /// An internal subset begins. Where none does, the external subset was opened.
    pub subset: bool,
}

/// Reads the head of a document type declaration at the top of the stack, which has so many bytes, and adds
/// the type's name to the document type (11.1). Where no internal subset begins it opens the external subset that is named. A text
/// that was given for that was asked for in the file `asked`. Where this isn't the subset's file the text
/// isn't taken for it: then `Memory` is answered.
pub fn take_head(
    options: &Options,
    alloc: Global,
    dtd: &mut Dtd,
    texts: &Texts,
    asked: &Option<Text>,
    stack: &mut InputStack,
    length: u64,
) -> Result<Head, TakeError>
    requires whole { Ends Declaration dtd.old texts.now stack.old length }
    requires first { dtd.old.entities ≡ [] }
    ensures ok { IfOk result (HeadIsTaken options.now (sources_in dtd.old None) texts.now asked.now dtd.new stack.old stack.new) }
    ensures over { IfOk result (HeadIsOver dtd.old dtd.new texts.now stack.old stack.new) }
    ensures err { IfErr result (HeadIsStopped options.now (sources_in dtd.old None) texts.now asked.now stack.old) }
    ensures err_dtd { OnErr result (dtd.new ≡ dtd.old) }
    ensures err_stack { OnErr result (stack.new ≡ stack.old) }
{
    let base = options.base_at(alloc, dtd, &None, stack)?;
    let mark = stack.mark();
    let lexemes = match read_declaration(options, alloc, dtd, &None, texts, stack, length) {
        Ok(lexemes) => lexemes,
        Err(error) => return Err(error),
    };
    match add_head(options, alloc, dtd, texts, asked, stack, &lexemes, base) {
        Ok(head) => Ok(head),
        Err(error) => {
            go_back(stack, mark);
            Err(error)
        }
    }
}

/// Why the declaration of so many bytes at the top of the stack is refused that stands before the head of
/// a document type and isn't one (7.1).
pub fn misplaced_declaration(
    options: &Options,
    alloc: Global,
    dtd: &Dtd,
    texts: &Texts,
    stack: &mut InputStack,
    length: u64,
) -> Result<Reason, Memory>
    requires whole { Ends Declaration dtd.now texts.now stack.old length }
    requires first { dtd.now.entities ≡ [] }
    ensures reason { IfOk result (IsMisplaced options.now (sources_in dtd.now None) texts.now stack.old) }
    ensures stack { stack.new ≡ stack.old }
{
    let mark = stack.mark();
    match read_declaration(options, alloc, dtd, &None, texts, stack, length) {
        Ok(_) => {
            go_back(stack, mark);
            Ok(Reason::NoDoctype)
        }
        Err(TakeError::Refused(reason)) => Ok(other_reason(reason)),
        Err(TakeError::Wanted { .. }) => Ok(Reason::NoDoctype),
        Err(TakeError::Memory) => Err(Memory),
    }
}

fn other_reason(reason: Reason) -> Reason
    ensures { result ≡ other_reason (Err reason) }
{
    match reason {
        Reason::LinkOut => Reason::LinkOut,
        Reason::SubdocOut => Reason::SubdocOut,
        Reason::OtherOut => Reason::OtherOut,
        _ => Reason::NoDoctype,
    }
}
