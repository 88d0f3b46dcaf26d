// The ends of texts and of marked sections.
ghost use Rattle.std.specs.Prelude.{◌≡◌, ◌<◌, ◌≤◌, ◌==◌, false, length, None, IfOk, IfErr, OnOk};
ghost use Rattle.sgml_declared.specs.sgml_dtd.Errors.{IsEnd};
ghost use Rattle.sgml_declared.specs.theory_spelling.Spelled.{type_end};
ghost use Rattle.sgml_decl_lexemes.specs.Readings.{entity_of};
ghost use Rattle.sgml_marked.specs.Opened.{is_open_at};
ghost use Rattle.sgml_declared.specs.theory_standing.Prologs.{is_over};
ghost use Rattle.sgml_prolog_steps.specs.Standing.{IsKept};
ghost use Rattle.sgml_prolog_steps.specs.Found.{rest_in};
ghost use Rattle.sgml_prolog_steps.specs.Sorts.{sort_in};
ghost use Rattle.sgml_prolog_steps.specs.Steps.{Takes, EndsText, section_ended, text_ended, document_reason};
ghost use Rattle.sgml_prolog_steps.specs.declared.sort.Sort.TheVariants as sort;

use crate::kept::Kept;
use crate::plain::begin_over;
use crate::stage::{Stage, begun};
use crate::stepping::{Stop, Turn};
use sgml_entity::Texts;
use sgml_scan::Token;
use sgml_text::{Memory, Reason, RefusalError};

/// How many texts are being read. More than can be counted are too many.
pub fn texts_on(kept: &Kept) -> Result<u32, Memory>
    ensures { IfOk result (λ n. n ≡ length kept.now.stack.places) }
{
    let height = kept.stack.height();
    if height > u32::MAX as usize {
        return Err(Memory);
    }
    Ok(height as u32)
}

/// Whether a section is open that began where so many texts were being read (10.4).
pub fn is_section_open(kept: &Kept, texts: u32) -> bool
    ensures { result ≡ is_open_at texts kept.now.sections }
{
    kept.sections.check_end(texts).is_err()
}

/// The entity of the text at the top.
pub(crate) fn entity_at_top(kept: &Kept) -> u32
    ensures { result ≡ entity_of kept.now.stack.places }
{
    match kept.stack.top() {
        Some(place) => place.entity,
        None => 0,
    }
}

/// The end of a marked section.
pub fn take_section_end(kept: &mut Kept, texts: &Texts, token: Token) -> Result<Turn, Stop>
    requires kept { IsKept kept.old }
    requires going_on { is_over kept.old ≡ false }
    requires within { token.length ≤ length (rest_in kept.old texts.now) }
    requires sort { sort_in kept.old token.kind ≡ sort.SectionEnd }
    ensures { Takes texts.now token kept.old kept.new result }
{
    let on = match texts_on(kept) {
        Ok(on) => on,
        Err(_) => return Err(Stop::Memory),
    };
    if !is_section_open(kept, on) {
        return Err(Stop::Refused(Reason::SectionNone));
    }
    end_section(kept, on);
    begin_over(kept, texts, token.length);
    Ok(Turn::Silent)
}

fn end_section(kept: &mut Kept, on: u32)
    ensures { kept.new ≡ section_ended on kept.old }
{
    let _ = kept.sections.pop(on);
}

/// The end of the text at the top (9.4). The document's own end stops reading here.
pub fn take_text_end(kept: &mut Kept) -> Result<Turn, Stop>
    requires kept { IsKept kept.old }
    requires going_on { is_over kept.old ≡ false }
    ensures { EndsText kept.old kept.new result }
{
    let number = entity_at_top(kept);
    if number == 0 {
        return Err(Stop::Refused(document_reason(kept)));
    }
    let on = match texts_on(kept) {
        Ok(on) => on,
        Err(_) => return Err(Stop::Memory),
    };
    if is_section_open(kept, on) {
        return Err(Stop::Refused(Reason::SectionOpen));
    }
    match judge_end(kept, number) {
        Ok(()) => {}
        Err(RefusalError::Refused(reason)) => return Err(Stop::Refused(reason)),
        Err(RefusalError::Memory) => return Err(Stop::Memory),
    }
    end_text(kept);
    Ok(Turn::Silent)
}

// The end of the external subset is that of the document type.
fn judge_end(kept: &Kept, number: u32) -> Result<(), RefusalError>
    ensures ok { OnOk result (type_end number kept.now.doctype ≡ None) }
    ensures refused { IfErr result (IsEnd (type_end number kept.now.doctype)) }
{
    if number == 1 {
        kept.dtd.finish()
    } else {
        Ok(())
    }
}

fn end_text(kept: &mut Kept)
    requires { 0 < length kept.old.stack.places }
    ensures { kept.new ≡ text_ended kept.old }
{
    kept.stack.pop();
    kept.stage = begun(kept.stage);
}

// Why the document can't end before its document type has been read.
fn document_reason(kept: &Kept) -> Reason
    ensures { result ≡ document_reason kept.now.stage }
{
    match kept.stage {
        Stage::AtBeginning => Reason::NoDoctype,
        Stage::BeforeDoctype => Reason::NoDoctype,
        Stage::InSubset => Reason::Unclosed,
        Stage::AfterSubset => Reason::Unclosed,
    }
}
