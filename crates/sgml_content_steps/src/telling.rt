// Telling events, and where reading stands.
ghost use Rattle.std.specs.Prelude.{◌≡◌, ◌++◌, ◌∷◌, ◌+◌, [], OnOk, length, vec_capacity};
ghost use Rattle.sgml_theory_starts.specs.theory_reading.Reads.{top_place};
ghost use Rattle.sgml_content_steps.specs.Steps.{HasRoomFor};

use crate::content::Content;
use sgml_events::Event;
use sgml_text::{Memory, Place};

/// Makes room for so many events more.
pub fn make_room(told: &mut Vec<Event>, count: usize) -> Result<(), Memory>
    ensures items { told.new.items ≡ told.old.items }
    ensures room { OnOk result (HasRoomFor count told.new) }
{
    told.reserve(count)?;
    Ok(())
}

/// One event more is told, for which there is room.
pub fn tell(told: &mut Vec<Event>, event: Event)
    requires room { HasRoomFor 1 told.old }
    ensures items { told.new.items ≡ told.old.items ++ event ∷ [] }
    ensures capacity { vec_capacity told.new ≡ vec_capacity told.old }
{
    told.push_reserved(event);
}

/// Where reading stands.
pub fn place_of(content: &Content) -> Place
    ensures { result ≡ top_place content.now.kept.stack.places }
{
    match content.kept.stack.top() {
        Some(place) => place,
        None => Place { entity: 0, at: 0 },
    }
}
