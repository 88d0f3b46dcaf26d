// Telling data.
ghost use Rattle.std.specs.Prelude.{◌≡◌, ◌+◌, ◌≤◌, ◌++◌, length, vec_capacity};
ghost use Rattle.sgml_content_steps.specs.Steps.{HasRoomFor};
ghost use Rattle.sgml_content_data.specs.Taking.{put_out, data_told};

use sgml_content_steps::tell;
use sgml_events::{Event, Stretch};

/// Tells a record end that was put out.
pub(crate) fn put_out(told: &mut Vec<Event>, released: bool)
    requires room { HasRoomFor 1 told.old }
    ensures items { told.new.items ≡ told.old.items ++ put_out released }
    ensures few { length told.new.items ≤ length told.old.items + 1 }
    ensures capacity { vec_capacity told.new ≡ vec_capacity told.old }
{
    if released {
        tell(told, Event::Chars(Stretch::record_end()));
    }
}

/// Tells data, and a record end that it puts out before it.
#[inline(always)]
pub(crate) fn tell_data(told: &mut Vec<Event>, released: bool, stretch: Stretch)
    requires room { HasRoomFor 2 told.old }
    ensures items { told.new.items ≡ told.old.items ++ data_told released stretch }
{
    put_out(told, released);
    tell(told, Event::Chars(stretch));
}
