// Entities and notations: `&E=TEXT` and `%E=TEXT` declare a general and a parameter entity, `!N=S` a
// notation; with `?` before the sign their number is asked for. `#` and `#!` tell how many were
// declared, `=2` the text of the entity of that number, `$N` a notation's system identifier.
//
// Texts: `2=TEXT` adds to the text of entity 2, `?2` asks for it.
ghost use Rattle.std.specs.Prelude.{◌≡◌, ◌<◌, length, IsTrue};

use crate::spelling::{cut, name_of, put, put_number, put_text, small_of};
use sgml_entity::{Body, Entities, Entity, External, Space, Texts};
use sgml_text::{Memory, Name, Text};
use std::alloc::Global;

/// An external identifier with this system identifier.
pub fn external(alloc: Global, system: &[u8]) -> Result<External, Memory> {
    let system = Text::copied(alloc, system)?;
    Ok(External {
        public: None,
        system: Some(system),
    })
}

/// Whether fewer than a thousand entities are declared: nothing is declared past that.
pub fn has_room(entities: &Entities) -> bool
    ensures { IsTrue result → length entities.now.entities < 1000 }
{
    entities.count() < 1000
}

/// Whether the entity's name is new in its space.
pub fn declare(
    alloc: Global,
    entities: &mut Entities,
    space: Space,
    name: Name,
    body: Body,
) -> Result<bool, Memory>
    requires { length entities.old.entities < 1000 }
{
    let base = Text::of(Vec::new(alloc));
    entities.declare(Entity {
        name,
        space,
        body,
        base,
    })
}

/// What an entity with a text is.
#[derive(Clone, Copy)]
pub enum Kind {
    Sgml,
    Cdata,
    Sdata,
    Pi,
}

fn body_of(kind: Kind, text: Text) -> Body {
    match kind {
        Kind::Sgml => Body::Sgml(text),
        Kind::Cdata => Body::Cdata(text),
        Kind::Sdata => Body::Sdata(text),
        Kind::Pi => Body::Pi(text),
    }
}

/// An entity with a text.
pub fn declare_text(
    alloc: Global,
    entities: &mut Entities,
    space: Space,
    kind: Kind,
    name: &[u8],
    text: &[u8],
) -> Result<bool, Memory> {
    if !has_room(entities) {
        return Ok(false);
    }
    let name = name_of(alloc, name)?;
    let text = Text::copied(alloc, text)?;
    declare(alloc, entities, space, name, body_of(kind, text))
}

/// Whether the notation's name is new.
pub fn declare_notation(
    alloc: Global,
    entities: &mut Entities,
    name: &[u8],
    system: &[u8],
) -> Result<bool, Memory> {
    if entities.notations() >= 1000 {
        return Ok(false);
    }
    let name = name_of(alloc, name)?;
    let external = external(alloc, system)?;
    entities.declare_notation(name, external)
}

fn put_found(alloc: Global, out: &mut Vec<u8>, number: Option<u32>) -> Result<(), Memory> {
    match number {
        Some(number) => put_number(alloc, out, u64::from(number)),
        None => put(out, b"none"),
    }
}

fn put_body(body: &Body, out: &mut Vec<u8>) -> Result<(), Memory> {
    match body {
        Body::Sgml(text) => put_text(out, text.items()),
        _ => put(out, b"no text"),
    }
}

fn put_entity(entities: &Entities, number: u32, out: &mut Vec<u8>) -> Result<(), Memory> {
    match entities.get(number) {
        Some(entity) => put_body(&entity.body, out),
        None => put(out, b"none"),
    }
}

fn put_system(external: &External, out: &mut Vec<u8>) -> Result<(), Memory> {
    match &external.system {
        Some(system) => put_text(out, system.items()),
        None => put(out, b"no system identifier"),
    }
}

fn put_notation(
    alloc: Global,
    entities: &Entities,
    name: &[u8],
    out: &mut Vec<u8>,
) -> Result<(), Memory> {
    let name = name_of(alloc, name)?;
    match entities.notation(&name) {
        Some(external) => put_system(external, out),
        None => put(out, b"none"),
    }
}

fn parameter(alloc: Global, entities: &Entities, name: &[u8]) -> Result<Option<u32>, Memory> {
    let name = name_of(alloc, name)?;
    Ok(entities.lookup(Space::Parameter, &name))
}

fn notation(alloc: Global, entities: &Entities, name: &[u8]) -> Result<Option<u32>, Memory> {
    let name = name_of(alloc, name)?;
    Ok(entities.notation_number(&name))
}

fn number_of(alloc: Global, entities: &Entities, word: &[u8]) -> Result<Option<u32>, Memory> {
    match word {
        [b'&', name @ ..] => Ok(entities.find(Space::General, name)),
        [b'%', name @ ..] => parameter(alloc, entities, name),
        [b'!', name @ ..] => notation(alloc, entities, name),
        _ => Ok(None),
    }
}

fn ask(alloc: Global, entities: &Entities, word: &[u8], out: &mut Vec<u8>) -> Result<(), Memory> {
    let number = number_of(alloc, entities, word)?;
    put_found(alloc, out, number)
}

fn put_new(out: &mut Vec<u8>, new: bool) -> Result<(), Memory> {
    put(out, if new { b"new" } else { b"old" })
}

fn take(
    alloc: Global,
    entities: &mut Entities,
    word: &[u8],
    out: &mut Vec<u8>,
) -> Result<(), Memory> {
    match word {
        [b'?', rest @ ..] => ask(alloc, entities, rest, out),
        [b'=', digits @ ..] => put_entity(entities, small_of(digits), out),
        [b'$', name @ ..] => put_notation(alloc, entities, name, out),
        b"#" => put_number(alloc, out, u64::from(entities.count())),
        b"#!" => put_number(alloc, out, u64::from(entities.notations())),
        _ => put_declared(alloc, entities, word, out),
    }
}

fn put_declared(
    alloc: Global,
    entities: &mut Entities,
    word: &[u8],
    out: &mut Vec<u8>,
) -> Result<(), Memory> {
    let (name, text) = cut(word, b'=');
    let new = declare_word(alloc, entities, name, text)?;
    put_new(out, new)
}

fn declare_word(
    alloc: Global,
    entities: &mut Entities,
    name: &[u8],
    text: &[u8],
) -> Result<bool, Memory> {
    match name {
        [b'&', name @ ..] => declare_text(alloc, entities, Space::General, Kind::Sgml, name, text),
        [b'%', name @ ..] => declare_text(
            alloc,
            entities,
            Space::Parameter,
            Kind::Sgml,
            name,
            text,
        ),
        [b'!', name @ ..] => declare_notation(alloc, entities, name, text),
        _ => Ok(false),
    }
}

fn take_all(
    alloc: Global,
    entities: &mut Entities,
    case: &[u8],
    out: &mut Vec<u8>,
) -> Result<(), Memory> {
    for word in case.split(|b| *b == b' ') {
        take(alloc, entities, word, out)?;
        put(out, b" ")?;
    }
    Ok(())
}

pub fn answer(alloc: Global, case: &[u8], out: &mut Vec<u8>) -> Result<(), Memory> {
    let mut entities = Box::new(alloc, Entities::new(alloc))?;
    take_all(alloc, &mut entities, case, out)
}

fn put_given(texts: &Texts, entity: u32, out: &mut Vec<u8>) -> Result<(), Memory> {
    match texts.get(entity) {
        Some(text) => {
            put(out, b"'")?;
            put_text(out, text)?;
            put(out, b"' ")
        }
        None => put(out, b"none "),
    }
}

fn append(texts: &mut Texts, word: &[u8]) -> Result<(), Memory> {
    let (entity, text) = cut(word, b'=');
    texts.append(small_of(entity), text)
}

fn take_text(texts: &mut Texts, word: &[u8], out: &mut Vec<u8>) -> Result<(), Memory> {
    match word {
        [b'?', entity @ ..] => put_given(texts, small_of(entity), out),
        _ => append(texts, word),
    }
}

fn take_texts(texts: &mut Texts, case: &[u8], out: &mut Vec<u8>) -> Result<(), Memory> {
    for word in case.split(|b| *b == b' ') {
        take_text(texts, word, out)?;
    }
    Ok(())
}

pub fn answer_texts(alloc: Global, case: &[u8], out: &mut Vec<u8>) -> Result<(), Memory> {
    let mut texts = Box::new(alloc, Texts::new(alloc))?;
    take_texts(&mut texts, case, out)
}
