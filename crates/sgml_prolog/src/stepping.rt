// One step of reading.
ghost use Rattle.std.specs.Prelude.{◌≡◌, ◌<◌, false, IfSome, Option};
ghost use Rattle.sgml_declared.specs.theory_reading.Names.{Name};
ghost use Rattle.sgml_declared.specs.theory_standing.Prologs.{is_over};
ghost use Rattle.sgml_declared.specs.Files.{IsNoted};
ghost use Rattle.sgml_prolog_steps.specs.Standing.{IsKept};
ghost use Rattle.sgml_prolog_steps.specs.Found.{IsTokenThere};
ghost use Rattle.sgml_prolog_steps.specs.Sorts.{sort_in};
ghost use Rattle.sgml_prolog_steps.specs.Steps.{IsStep};
ghost use Rattle.sgml_prolog_steps.specs.declared.sort.Sort.TheVariants as sort;

use crate::declaration::take_declaration_step;
use crate::head::take_head_step;
use crate::keyword::is_head;
use crate::misplaced::refuse_other;
use crate::section_start::take_section_start;
use crate::sgml_declaration::take_sgml;
use crate::subset_end::{refuse_subset_end, take_subset_end_step};
use sgml_declared::{Noted, Options};
use sgml_entity::Texts;
use sgml_prolog_steps::{
    Found, Kept, Sort, Stop, Turn, is_in_document, is_in_ignored, look, refuse_misfit, sort_in,
    take_comment, take_ignored_start, take_instruction, take_reference, take_section_end,
    take_separators, take_skipped, take_text_end,
};
use sgml_scan::Token;
use sgml_steps::Steps;
use sgml_text::Text;
use std::alloc::Global;
use std::sync::ledger::Ledger;

/// Takes what stands next, or tells why nothing is taken.
pub(crate) fn step<L: Ledger>(
    options: &Options,
    alloc: Global,
    kept: &mut Kept,
    texts: &Texts,
    asked: &Option<Text>,
    noted: &mut Option<Noted>,
    ended: bool,
    steps: &mut Steps<L>,
) -> Result<Turn, Stop>
    requires kept { IsKept kept.old }
    requires going_on { is_over kept.old ≡ false }
    requires expand { kept.old.stack.expand ≡ options.now.expand }
    requires noted { IfSome noted.old (IsNoted options.now) }
    ensures noted { IfSome noted.new (IsNoted options.now) }
    ensures step { IsStep options.now texts.now ended asked.now kept.old kept.new result }
{
    match look(kept, texts, ended, steps) {
        Found::End => take_text_end(kept),
        Found::Token(token) => take_token(options, alloc, kept, texts, asked, noted, token, ended),
        Found::SgmlDeclaration(n) => take_sgml(options, alloc, kept, texts, ended, n),
        Found::Refused(reason) => Err(Stop::Refused(reason)),
        Found::More => Err(Stop::More),
    }
}

/// A token, by what it is where it stands.
fn take_token(
    options: &Options,
    alloc: Global,
    kept: &mut Kept,
    texts: &Texts,
    asked: &Option<Text>,
    noted: &mut Option<Noted>,
    token: Token,
    ended: bool,
) -> Result<Turn, Stop>
    requires kept { IsKept kept.old }
    requires going_on { is_over kept.old ≡ false }
    requires there { IsTokenThere kept.old texts.now ended token }
    requires noted { IfSome noted.old (IsNoted options.now) }
    ensures noted { IfSome noted.new (IsNoted options.now) }
    ensures step { IsStep options.now texts.now ended asked.now kept.old kept.new result }
{
    match sort_in(kept, token.kind) {
        Sort::Separators => take_separators(kept, texts, token),
        Sort::Skipped => take_skipped(kept, texts, token),
        Sort::Instruction => take_instruction(alloc, kept, texts, token),
        Sort::Comment => take_comment(kept, texts, token),
        Sort::Reference => take_reference(options, alloc, kept, texts, token),
        Sort::SectionStart => take_start(options, alloc, kept, texts, token, ended),
        Sort::SectionEnd => take_section_end(kept, texts, token),
        Sort::Declaration => take_declaration_step(
            options, alloc, kept, texts, noted, token, ended,
        ),
        Sort::SubsetEnd => take_end(options, alloc, kept, texts, token, ended),
        Sort::Head => take_before(options, alloc, kept, texts, asked, token, ended),
        Sort::Misfit => refuse_misfit(kept, texts, token),
    }
}

/// A declaration before the document type: its head, or another, which has no place there (7.1).
fn take_before(
    options: &Options,
    alloc: Global,
    kept: &mut Kept,
    texts: &Texts,
    asked: &Option<Text>,
    token: Token,
    ended: bool,
) -> Result<Turn, Stop>
    requires kept { IsKept kept.old }
    requires going_on { is_over kept.old ≡ false }
    requires there { IsTokenThere kept.old texts.now ended token }
    requires sort { sort_in kept.old token.kind ≡ sort.Head }
    ensures { IsStep options.now texts.now ended asked.now kept.old kept.new result }
{
    if is_head(kept, texts, token) {
        take_head_step(options, alloc, kept, texts, asked, token, ended)
    } else {
        refuse_other(options, alloc, kept, texts, ended, token)
    }
}

/// The start of a marked section. In an ignored one its status isn't read (10.4.2).
fn take_start(
    options: &Options,
    alloc: Global,
    kept: &mut Kept,
    texts: &Texts,
    token: Token,
    ended: bool,
) -> Result<Turn, Stop>
    requires kept { IsKept kept.old }
    requires going_on { is_over kept.old ≡ false }
    requires there { IsTokenThere kept.old texts.now ended token }
    requires sort { sort_in kept.old token.kind ≡ sort.SectionStart }
    ensures { (asked : Option Name) → IsStep options.now texts.now ended asked kept.old kept.new result }
{
    if is_in_ignored(kept) {
        take_ignored_start(kept, texts, ended, token)
    } else {
        take_section_start(options, alloc, kept, texts, token, ended)
    }
}

/// A `]`: the document type ends in the document's own text alone (11.1).
fn take_end(
    options: &Options,
    alloc: Global,
    kept: &mut Kept,
    texts: &Texts,
    token: Token,
    ended: bool,
) -> Result<Turn, Stop>
    requires kept { IsKept kept.old }
    requires going_on { is_over kept.old ≡ false }
    requires there { IsTokenThere kept.old texts.now ended token }
    requires sort { sort_in kept.old token.kind ≡ sort.SubsetEnd }
    ensures { (asked : Option Name) → IsStep options.now texts.now ended asked kept.old kept.new result }
{
    if is_in_document(kept) {
        take_subset_end_step(options, alloc, kept, texts, token, ended)
    } else {
        refuse_subset_end(kept, texts, token)
    }
}
