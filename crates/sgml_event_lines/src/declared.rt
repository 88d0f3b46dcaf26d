// Whether what events name is declared.
ghost use Rattle.std.specs.Prelude.{◌≡◌};
ghost use Rattle.std.specs.List.{list_all};
ghost use Rattle.sgml_event_lines.specs.Marks.{is_notation, body_has, is_entity_of, is_number_of, is_value_of, is_event_of};

use sgml_attr::AttrValue;
use sgml_dtd::Dtd;
use sgml_entity::{Body, Space};
use sgml_events::Event;
use sgml_said::entity_name;
use sgml_text::Name;

#[inline(never)]
fn is_notation(dtd: &Dtd, name: &Name) -> bool
    ensures { result ≡ is_notation dtd.now name.now }
{
    dtd.entities().notation_number(name).is_some()
}

fn body_has(dtd: &Dtd, body: &Body) -> bool
    ensures { result ≡ body_has dtd.now body.now }
{
    match body {
        Body::ExternalData { notation, .. } => is_notation(dtd, notation),
        _ => true,
    }
}

#[tactic(auto, unfolding(sgml_theory_reading::specs::Types::entity, sgml_theory_reading::specs::Types::entity_number))]
fn is_entity_of(dtd: &Dtd, name: &[u8]) -> bool
    ensures { result ≡ is_entity_of dtd.now name.now }
{
    let Some(number) = dtd.entities().find(Space::General, name) else {
        return true;
    };
    match dtd.entities().get(number) {
        Some(entity) => body_has(dtd, &entity.body),
        None => true,
    }
}

fn is_number_of(dtd: &Dtd, number: u32) -> bool
    ensures { result ≡ is_number_of dtd.now number }
{
    is_entity_of(dtd, entity_name(dtd, number))
}

#[inline(never)]
fn are_numbers_of(dtd: &Dtd, numbers: &[u32]) -> bool
    ensures { result ≡ list_all (is_number_of dtd.now) numbers.now }
{
    for number in numbers {
        if !is_number_of(dtd, *number) {
            return false;
        }
    }
    true
}

#[inline(always)]
fn is_value_of(dtd: &Dtd, value: &AttrValue) -> bool
    ensures { result ≡ is_value_of dtd.now value.now }
{
    match value {
        AttrValue::Notation(notation) => is_notation(dtd, notation),
        AttrValue::Entities(numbers) => are_numbers_of(dtd, numbers.items()),
        _ => true,
    }
}

#[inline(always)]
fn are_values_of(dtd: &Dtd, values: &[AttrValue]) -> bool
    ensures { result ≡ list_all (is_value_of dtd.now) values.now }
{
    for value in values {
        if !is_value_of(dtd, value) {
            return false;
        }
    }
    true
}

/// Whether each notation that an event names, itself or by an entity, is declared (11.4).
#[inline(always)]
pub fn is_event_of(dtd: &Dtd, event: &Event) -> bool
    ensures { result ≡ is_event_of dtd.now event.now }
{
    match event {
        Event::Start { values, .. } => are_values_of(dtd, values.items()),
        Event::DataRef { entity } => is_number_of(dtd, *entity),
        Event::End { .. } => true,
        Event::Chars(_) => true,
        Event::Pi { .. } => true,
    }
}

/// The same of each of these events.
pub fn are_events_of(dtd: &Dtd, events: &[Event]) -> bool
    ensures { result ≡ list_all (is_event_of dtd.now) events.now }
{
    for event in events {
        if !is_event_of(dtd, event) {
            return false;
        }
    }
    true
}
