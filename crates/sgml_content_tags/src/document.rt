// The end of the document.
ghost use Rattle.std.specs.Prelude.{◌≡◌, false};
ghost use Rattle.sgml_prolog_steps.specs.decl_lexemes.Readings.{entity_of};
ghost use Rattle.sgml_prolog_steps.specs.marked.Opened.{is_open_at};
ghost use Rattle.std.specs.Prelude.{length};
ghost use Rattle.sgml_content_steps.specs.Content.{IsContent};
ghost use Rattle.sgml_content_tags.specs.Finish.{TellsDocumentEnd};

use sgml_content_steps::{Content, judge, make_room, place_of, take_run};
use sgml_entity::Texts;
use sgml_events::Event;
use sgml_infer::Visible;
use sgml_prolog_steps::{Stop, is_section_open, texts_on};
use sgml_text::Reason;
use std::alloc::Global;

/// The end of the document (7.1), where the end of its text stands next: the elements that are open end, if
/// their end-tags may be left out. A marked section that is open may not end so (10.4).
pub fn finish(
    alloc: Global,
    content: &mut Content,
    texts: &Texts,
    told: &mut Vec<Event>,
) -> Result<(), Stop>
    requires content { IsContent content.old }
    requires document { entity_of content.old.kept.stack.places ≡ 0 }
    ensures { TellsDocumentEnd texts.now content.old content.new told.old.items told.new.items result }
{
    let on = match texts_on(&content.kept) {
        Ok(on) => on,
        Err(_) => return Err(Stop::Memory),
    };
    if is_section_open(&content.kept, on) {
        return Err(Stop::Refused(Reason::SectionOpen));
    }
    end_document(alloc, content, texts, told)
}

// No section is open.
fn end_document(
    alloc: Global,
    content: &mut Content,
    texts: &Texts,
    told: &mut Vec<Event>,
) -> Result<(), Stop>
    requires content { IsContent content.old }
    requires document { entity_of content.old.kept.stack.places ≡ 0 }
    requires no_section { is_open_at (length content.old.kept.stack.places) content.old.kept.sections ≡ false }
    ensures { TellsDocumentEnd texts.now content.old content.new told.old.items told.new.items result }
{
    let place = place_of(content);
    let run = match judge(alloc, content, texts, Visible::EndDocument) {
        Ok(run) => run,
        Err(stop) => return Err(stop),
    };
    if let Err(_) = make_room(told, run.room()) {
        return Err(Stop::Memory);
    }
    take_run(content, place, Visible::EndDocument, run, told);
    Ok(())
}
