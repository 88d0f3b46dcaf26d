// Items, and what they do to the record ends of an element.
ghost use Rattle.std.specs.Prelude.{◌≡◌};
ghost use Rattle.sgml_records.specs.Facts.{noted};
ghost use Rattle.sgml_theory_reading.specs.Events.{releases_by};
ghost use Rattle.sgml_inside.specs.Inside.{item_of, is_kept};

use sgml_records::{Put, RecordState};

/// What a piece is to the record ends of its element (7.6.1).
#[derive(Clone, Copy, Debug, PartialEq, Eq)]
pub enum Item {
    RecordEnd,
    RecordStart,
    Data,
    /// A proper subelement.
    Subelement,
    /// Markup or an included subelement.
    Markup,
}

/// An item comes: whether a record end that waits is data directly before it.
pub(crate) fn note(record_ends: &mut RecordState, item: Item) -> bool
    ensures noted { record_ends.new ≡ noted record_ends.old (item_of item) }
    ensures released { result ≡ releases_by record_ends.old (item_of item) }
{
    match item {
        Item::RecordEnd => is_kept(record_ends.re()),
        Item::RecordStart => {
            record_ends.rs();
            false
        }
        Item::Data => is_kept(record_ends.chars()),
        Item::Subelement => is_kept(record_ends.proper()),
        Item::Markup => {
            record_ends.markup();
            false
        }
    }
}

fn is_kept(put: Put) -> bool
    ensures { result ≡ is_kept put }
{
    match put {
        Put::Kept => true,
        Put::Nothing | Put::Held => false,
    }
}
