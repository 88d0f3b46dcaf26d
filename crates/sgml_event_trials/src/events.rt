// Events as cases spell them:
//
// - `<..>` is a start-tag, and a name is a start whose tag was omitted; `</NAME` is an end.
// - `-TEXT` is data of characters. `~TEXT&NAME&TEXT..` is one stretch of characters and SDATA
//   entities; `*TEXT` has characters that came by numeric references.
// - `?TEXT` is a processing instruction, and `&NAME` a reference to an external data entity.
ghost use Rattle.std.specs.Prelude.{◌≡◌, length};

use crate::starts::{Started, element_of, start};
use crate::writing::bytes_of;
use sgml_attr::Currents;
use sgml_dtd::Dtd;
use sgml_entity::{Space, Texts};
use sgml_events::{Event, Stretch};
use sgml_text::{Memory, Place, Text, Unit, Units};
use std::alloc::Global;

const NOWHERE: Place = Place { entity: 0, at: 0 };

fn entity_of(dtd: &Dtd, name: &[u8]) -> u32 {
    match dtd.entities().find(Space::General, name) {
        Some(number) => number,
        None => 0,
    }
}

fn push_bytes(alloc: Global, units: &mut Vec<Unit>, spelled: &[u8]) -> Result<(), Memory> {
    let bytes = bytes_of(alloc, spelled)?;
    for b in &bytes {
        units.push(Unit::Byte(*b))?;
    }
    Ok(())
}

// The text before the first `&`, the entity after it, and so on.
fn mixed_units(alloc: Global, dtd: &Dtd, spelled: &[u8]) -> Result<Units, Memory> {
    let mut units = Vec::new(alloc);
    let mut named = false;
    for part in spelled.split(|b| *b == b'&') {
        if named {
            units.push(Unit::Sdata(entity_of(dtd, part)))?;
        } else {
            push_bytes(alloc, &mut units, part)?;
        }
        named = !named;
    }
    Ok(Units::of(units))
}

fn coded_units(alloc: Global, spelled: &[u8]) -> Result<Units, Memory> {
    let mut units = Vec::new(alloc);
    let bytes = bytes_of(alloc, spelled)?;
    for b in &bytes {
        units.push(Unit::Coded(*b))?;
    }
    Ok(Units::of(units))
}

fn characters(alloc: Global, spelled: &[u8]) -> Result<Event, Memory> {
    let bytes = bytes_of(alloc, spelled)?;
    let stretch = Stretch::of_bytes(alloc, &bytes)?;
    Ok(Event::Chars(stretch))
}

fn instruction(alloc: Global, spelled: &[u8]) -> Result<Event, Memory> {
    let text = Text::of(bytes_of(alloc, spelled)?);
    Ok(Event::Pi {
        text,
        entity: None,
        place: NOWHERE,
    })
}

fn end(alloc: Global, dtd: &Dtd, name: &[u8]) -> Result<Option<Event>, Memory> {
    match element_of(alloc, dtd, name)? {
        Some(element) => Ok(Some(Event::End { element })),
        None => Ok(None),
    }
}

fn of_start(started: Started) -> Option<Event> {
    match started {
        Started::Valued { element, values } => Some(Event::Start {
            element,
            place: NOWHERE,
            values: values.values,
        }),
        _ => None,
    }
}

// An event that isn't a start.
fn other_event(alloc: Global, dtd: &Dtd, spelled: &[u8]) -> Result<Option<Event>, Memory> {
    let (kind, rest) = match spelled {
        [kind, rest @ ..] => (*kind, rest),
        [] => return Ok(None),
    };
    match kind {
        b'-' => Ok(Some(characters(alloc, rest)?)),
        b'~' => {
            let units = mixed_units(alloc, dtd, rest)?;
            Ok(Some(Event::Chars(Stretch::of_units(units))))
        }
        b'*' => {
            let units = coded_units(alloc, rest)?;
            Ok(Some(Event::Chars(Stretch::of_units(units))))
        }
        b'?' => Ok(Some(instruction(alloc, rest)?)),
        b'&' => Ok(Some(Event::DataRef {
            entity: entity_of(dtd, rest),
        })),
        _ => Ok(None),
    }
}

fn is_start(spelled: &[u8]) -> bool {
    match spelled {
        [b'<', b'/', ..] => false,
        [b'<', ..] => true,
        [b, ..] => b.is_ascii_alphabetic(),
        [] => false,
    }
}

/// The event, if it is one.
pub fn event(
    alloc: Global,
    dtd: &Dtd,
    texts: &mut Texts,
    currents: &mut Currents,
    spelled: &[u8],
) -> Result<Option<Event>, Memory>
    requires lists { length currents.old ≡ length dtd.now.lists }
    ensures lists { length currents.new ≡ length dtd.now.lists }
{
    if is_start(spelled) {
        let told = start(alloc, dtd, texts, currents, spelled)?;
        return Ok(of_start(told));
    }
    match spelled {
        [b'<', b'/', name @ ..] => end(alloc, dtd, name),
        _ => other_event(alloc, dtd, spelled),
    }
}
