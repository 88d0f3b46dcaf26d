// Whether the identifiers of starts agree.
use crate::lines::events_of;
use sgml_attr::{AttrValue, Values};
use sgml_dtd::Dtd;
use sgml_entity::Texts;
use sgml_events::Event;
use sgml_idents::{IdError, check_ids};
use sgml_text::{Memory, Name, Names, Place};
use sgml_trials::{number_of, put, put_counted, split_at};
use std::alloc::Global;

// Each start stands at its number among the events.
fn number(events: &mut [Event]) {
    let mut at = 0u64;
    for event in events {
        if let Event::Start { place, .. } = event {
            place.at = at;
        }
        at = at.saturating_add(1);
    }
}

fn tell(alloc: Global, answer: Result<(), IdError>, out: &mut Vec<u8>) -> Result<(), Memory> {
    match answer {
        Ok(()) => put(out, "agree"),
        Err(IdError::Repeated(place)) => put_counted(alloc, out, "repeated ", place.at),
        Err(IdError::Dangling(place)) => put_counted(alloc, out, "dangling ", place.at),
        Err(IdError::Memory) => put(out, "no memory"),
    }
}

/// Whether the identifiers of these events agree, or the number of the first event with a fault.
pub fn answer_identifiers(
    alloc: Global,
    dtd: &Dtd,
    texts: &mut Texts,
    spelled: &[u8],
    out: &mut Vec<u8>,
) -> Result<(), Memory> {
    let mut events = events_of(alloc, dtd, texts, spelled)?;
    number(&mut events);
    tell(alloc, check_ids(alloc, dtd, &events), out)
}

// A start of the first element type, whose only attribute is an ID of this number.
fn identified(alloc: Global, id: u32, at: u64) -> Result<Event, Memory> {
    let name = Name::of(format!(in alloc; "I{id}")?.into_bytes());
    let mut names = Vec::new(alloc);
    names.push(name)?;
    let mut values = Vec::new(alloc);
    values.push(AttrValue::Tokens(Names::of(names)))?;
    Ok(Event::Start {
        element: 0,
        place: Place { entity: 0, at },
        values: Values::of(values),
    })
}

/// Whether so many starts agree, each of which has its own ID, and then one that has the ID of this number.
pub fn answer_many(
    alloc: Global,
    dtd: &Dtd,
    spelled: &[u8],
    out: &mut Vec<u8>,
) -> Result<(), Memory> {
    let (count, last) = split_at(spelled, b'\t');
    let count = number_of(count);
    let mut events = Vec::new(alloc);
    for id in 0..count {
        events.push(identified(alloc, id, id as u64)?)?;
    }
    events.push(identified(alloc, number_of(last), count as u64)?)?;
    tell(alloc, check_ids(alloc, dtd, &events), out)
}
