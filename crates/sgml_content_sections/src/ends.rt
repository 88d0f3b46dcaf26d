// The ends of entities' texts and of marked sections.
ghost use Rattle.std.specs.Prelude.{◌≡◌, ◌<◌, ◌≤◌, ◌==◌, ℕ, List, [], length, false};
ghost use Rattle.sgml_decl_lexemes.specs.Readings.{entity_of};
ghost use Rattle.sgml_scan.specs.markup.declared.kinds.TokenKind.TheVariants as kind;
ghost use Rattle.sgml_theory_reading.specs.Names.{Text};
ghost use Rattle.sgml_prolog_steps.specs.Found.{rest_in};
ghost use Rattle.sgml_prolog_steps.specs.Steps.{section_ended};
ghost use Rattle.sgml_content_steps.specs.Content.{IsContent};
ghost use Rattle.sgml_content_steps.specs.Steps.{Takes, TakesEnd};
ghost use Rattle.sgml_content_sections.specs.Changes.{text_ended, section_over};

use sgml_content_steps::Content;
use sgml_entity::Texts;
use sgml_inside::Item;
use sgml_prolog_steps::{Kept, Stop, is_section_open, read_over, texts_on};
use sgml_scan::Token;
use sgml_text::Reason;

/// The end of the text of an entity (9.4), of which nothing is left: reading goes on in the text that lies
/// under it.
pub fn take_text_end(content: &mut Content) -> Result<(), Stop>
    requires content { IsContent content.old }
    requires entity { (entity_of content.old.kept.stack.places == 0) ≡ false }
    ensures { (texts : List (ℕ × Text)) → TakesEnd texts content.old content.new [] result }
{
    let on = match texts_on(&content.kept) {
        Ok(on) => on,
        Err(_) => return Err(Stop::Memory),
    };
    if is_section_open(&content.kept, on) {
        return Err(Stop::Refused(Reason::SectionOpen));
    }
    end_text(content);
    Ok(())
}

fn end_text(content: &mut Content)
    requires { 0 < length content.old.kept.stack.places }
    ensures { content.new ≡ text_ended content.old }
{
    content.kept.stack.pop();
}

/// The end of a marked section (10.4.1), which is that of the last one that began in the text at the top.
pub fn take_section_end(content: &mut Content, texts: &Texts, token: Token) -> Result<(), Stop>
    requires content { IsContent content.old }
    requires within { token.length ≤ length (rest_in content.old.kept texts.now) }
    requires kind { token.kind ≡ kind.SectionEnd }
    ensures { Takes texts.now token content.old content.new [] result }
{
    let on = match texts_on(&content.kept) {
        Ok(on) => on,
        Err(_) => return Err(Stop::Memory),
    };
    if !is_section_open(&content.kept, on) {
        return Err(Stop::Refused(Reason::SectionNone));
    }
    end_section(content, texts, on, token.length);
    Ok(())
}

// Ends the last section of this level, with its end of so many bytes.
fn end_section(content: &mut Content, texts: &Texts, level: u32, n: u64)
    requires stacked { 0 < length content.old.kept.stack.places }
    requires within { n ≤ length (rest_in content.old.kept texts.now) }
    ensures { content.new ≡ section_over level n content.old }
{
    close_section(&mut content.kept, level);
    read_over(&mut content.kept, texts, n);
    content.inside.note(Item::Markup);
}

fn close_section(kept: &mut Kept, level: u32)
    ensures { kept.new ≡ section_ended level kept.old }
{
    let _ = kept.sections.pop(level);
}
