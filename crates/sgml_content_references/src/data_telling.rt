// Telling what an entity is.
ghost use Rattle.std.specs.Prelude.{◌≡◌, ◌+◌, ◌≤◌, ◌++◌, length, vec_capacity};
ghost use Rattle.sgml_content_steps.specs.Steps.{HasRoomFor};
ghost use Rattle.sgml_content_data.specs.Taking.{put_out};
ghost use Rattle.sgml_content_references.specs.Entities.{events_in};

use sgml_content_steps::tell;
use sgml_events::{Event, Stretch};

/// Tells a record end that is put out, and then the event, where there is one.
pub(crate) fn tell_behind(told: &mut Vec<Event>, released: bool, event: Option<Event>)
    requires room { HasRoomFor 2 told.old }
    ensures { told.new.items ≡ told.old.items ++ (put_out released ++ events_in event) }
{
    put_out(told, released);
    tell_any(told, event);
}

fn put_out(told: &mut Vec<Event>, released: bool)
    requires room { HasRoomFor 1 told.old }
    ensures items { told.new.items ≡ told.old.items ++ put_out released }
    ensures few { length told.new.items ≤ length told.old.items + 1 }
    ensures capacity { vec_capacity told.new ≡ vec_capacity told.old }
{
    if released {
        tell(told, Event::Chars(Stretch::record_end()));
    }
}

/// Tells the event, where there is one.
pub(crate) fn tell_any(told: &mut Vec<Event>, event: Option<Event>)
    requires room { HasRoomFor 1 told.old }
    ensures { told.new.items ≡ told.old.items ++ events_in event }
{
    if let Some(event) = event {
        tell(told, event);
    }
}
