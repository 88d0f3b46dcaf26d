// What is told of a data entity.
ghost use Rattle.std.specs.Prelude.{◌≡◌, IfOk, Some};
ghost use Rattle.sgml_text.specs.Units.{characters};
ghost use Rattle.sgml_theory_reading.specs.Types.{body_of};
ghost use Rattle.sgml_content_references.specs.Entities.{events_in, events_by, chars_told, told_for, units_of_sdata};

use sgml_dtd::Dtd;
use sgml_entity::Body;
use sgml_events::{Event, Stretch};
use sgml_text::{Memory, Unit, Units};
use std::alloc::Global;

/// A data entity, by its number (10.5).
#[derive(Clone, Copy, Debug, PartialEq, Eq)]
pub(crate) enum Entity {
    /// The data is told.
    Internal(u32),
    /// The reference is told.
    External(u32),
}

/// What is told where it is referenced: nothing of an internal one whose text is empty.
pub(crate) fn event_for(alloc: Global, dtd: &Dtd, entity: Entity) -> Result<Option<Event>, Memory>
    ensures { IfOk result (λ event. events_in event ≡ told_for dtd.now entity) }
{
    match entity {
        Entity::Internal(number) => event_of(alloc, dtd, number),
        Entity::External(number) => Ok(Some(Event::DataRef { entity: number })),
    }
}

fn event_of(alloc: Global, dtd: &Dtd, number: u32) -> Result<Option<Event>, Memory>
    ensures { IfOk result (λ event. events_in event ≡ events_by number (body_of dtd.now number)) }
{
    match dtd.entities().get(number) {
        Some(entity) => event_by(alloc, number, &entity.body),
        None => Ok(None),
    }
}

fn event_by(alloc: Global, number: u32, body: &Body) -> Result<Option<Event>, Memory>
    ensures { IfOk result (λ event. events_in event ≡ events_by number (Some body.now)) }
{
    match body {
        Body::Cdata(text) => characters_of(alloc, text.items()),
        Body::Sdata(_) => Ok(Some(Event::Chars(one_unit(alloc, number)?))),
        Body::Sgml(_) => Ok(None),
        Body::Pi(_) => Ok(None),
        Body::External(_) => Ok(None),
        Body::ExternalData { .. } => Ok(None),
    }
}

fn characters_of(alloc: Global, bytes: &[u8]) -> Result<Option<Event>, Memory>
    ensures { IfOk result (λ event. events_in event ≡ chars_told (characters bytes.now)) }
{
    match bytes {
        [] => Ok(None),
        [_, ..] => Ok(Some(Event::Chars(Stretch::of_bytes(alloc, bytes)?))),
    }
}

/// The text of an SDATA entity, as one unit.
fn one_unit(alloc: Global, number: u32) -> Result<Stretch, Memory>
    ensures { IfOk result (λ stretch. stretch ≡ units_of_sdata number) }
{
    Ok(Stretch::of_units(Units::of(Vec::from_array(alloc, [Unit::Sdata(number)])?)))
}
