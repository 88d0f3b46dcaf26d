// An instruction of an entity.
ghost use Rattle.std.specs.Prelude.{◌≡◌, ◌<◌, ◌≤◌, ◌++◌, ◌∷◌, [], Some, length, OnOk, OnErr};
ghost use Rattle.sgml_events.specs.declared.event.Event.TheVariants as event;
ghost use Rattle.sgml_prolog_steps.specs.Found.{rest_in};
ghost use Rattle.sgml_content_references.specs.Strings.{instructed_by, instruction_told};

use sgml_content_steps::{Content, make_room, place_of, tell};
use sgml_entity::Texts;
use sgml_events::Event;
use sgml_inside::Item;
use sgml_prolog_steps::read_over;
use sgml_text::{Memory, Text};

/// Reads over a reference of so many bytes, and tells the instruction with the place of the reference. `starts` tells
/// whether a record starts with it.
pub(crate) fn instruct(
    content: &mut Content,
    texts: &Texts,
    n: u64,
    number: u32,
    starts: bool,
    text: Text,
    told: &mut Vec<Event>,
) -> Result<(), Memory>
    requires stacked { 0 < length content.old.kept.stack.places }
    requires within { n ≤ length (rest_in content.old.kept texts.now) }
    ensures ok { OnOk result (content.new ≡ instructed_by starts n content.old) }
    ensures told { OnOk result (told.new.items ≡ told.old.items ++ instruction_told content.old text number ∷ []) }
    ensures left { OnErr result (content.new ≡ content.old) }
    ensures silent { OnErr result (told.new.items ≡ told.old.items) }
{
    let place = place_of(content);
    make_room(told, 1)?;
    read_over(&mut content.kept, texts, n);
    if starts {
        content.inside.note(Item::RecordStart);
    }
    content.inside.note(Item::Markup);
    tell(
        told,
        Event::Pi {
            text,
            entity: Some(number),
            place,
        },
    );
    Ok(())
}
