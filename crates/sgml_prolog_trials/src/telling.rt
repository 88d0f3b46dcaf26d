// What a reader of the prolog answered, as text.
use sgml_dtd::Dtd;
use sgml_entity::{Body, Entity, Space, Texts};
use sgml_text::{Memory, Place, Text, line_column};
use sgml_trials::{put, put_counted, put_number};
use std::alloc::Global;

/// A file that was asked for as the text of an entity.
#[derive(Drop)]
pub struct Asked {
    pub entity: u32,
    pub file: Text,
}

// RE, RS and TAB as `^M`, `^J` and `^I`.
fn put_text(out: &mut Vec<u8>, bytes: &[u8]) -> Result<(), Memory> {
    for b in bytes {
        if *b < 32 {
            out.push(b'^')?;
            out.push(*b + 64)?;
        } else {
            out.push(*b)?;
        }
    }
    Ok(())
}

fn put_name(out: &mut Vec<u8>, entity: &Entity) -> Result<(), Memory> {
    out.push(match entity.space {
        Space::General => b'&',
        Space::Parameter => b'%',
    })?;
    put_text(out, entity.name.items())
}

// The name of an entity's file, or its own.
fn put_source(out: &mut Vec<u8>, dtd: &Dtd, asked: &[Asked], number: u32) -> Result<(), Memory> {
    for it in asked {
        if it.entity == number {
            return put_text(out, it.file.items());
        }
    }
    match dtd.entities().get(number) {
        Some(entity) => put_name(out, entity),
        None => put(out, "f"),
    }
}

fn text_of<'a>(dtd: &'a Dtd, texts: &'a Texts, number: u32) -> &'a [u8] {
    if let Some(entity) = dtd.entities().get(number) {
        if let Body::Sgml(text) = &entity.body {
            return text.items();
        }
    }
    match texts.get(number) {
        Some(text) => text,
        None => &[],
    }
}

/// `NAME:LINE:COLUMN`, as the log has it.
pub fn tell_place(
    alloc: Global,
    out: &mut Vec<u8>,
    dtd: &Dtd,
    texts: &Texts,
    asked: &[Asked],
    place: Place,
) -> Result<(), Memory> {
    put_source(out, dtd, asked, place.entity)?;
    let text = text_of(dtd, texts, place.entity);
    if place.at > text.len() as u64 {
        return put(out, ":past its end");
    }
    let (line, column) = line_column(text, place.at);
    put_counted(alloc, out, ":", line)?;
    put_counted(alloc, out, ":", column)
}

/// A processing instruction.
pub fn tell_instruction(
    alloc: Global,
    out: &mut Vec<u8>,
    text: &Text,
    entity: Option<u32>,
) -> Result<(), Memory> {
    put(out, "?")?;
    put_text(out, text.items())?;
    if let Some(number) = entity {
        put_counted(alloc, out, " of ", number as u64)?;
    }
    put(out, " ")
}

/// A file that is asked for.
pub fn tell_want(alloc: Global, out: &mut Vec<u8>, entity: u32, file: &Text) -> Result<(), Memory> {
    put(out, "want ")?;
    put_number(alloc, out, entity as u64)?;
    put(out, " ")?;
    put_text(out, file.items())?;
    put(out, "; ")
}

fn put_body(out: &mut Vec<u8>, body: &Body) -> Result<(), Memory> {
    match body {
        Body::Sgml(text) => put_text(out, text.items()),
        Body::Cdata(text) => put_text(out, text.items()),
        Body::Sdata(text) => put_text(out, text.items()),
        Body::Pi(text) => put_text(out, text.items()),
        Body::External(_) => put(out, "external"),
        Body::ExternalData { .. } => put(out, "data"),
    }
}

/// The type's name, how many element types there are, and the entities in the order of their declarations.
pub fn tell_types(alloc: Global, out: &mut Vec<u8>, dtd: &Dtd) -> Result<(), Memory> {
    put_counted(alloc, out, ", elements ", dtd.elements() as u64)?;
    let entities = dtd.entities();
    for index in 0..entities.count() {
        if let Some(entity) = entities.get(index + 2) {
            put(out, " ")?;
            put_name(out, entity)?;
            put(out, "=")?;
            put_body(out, &entity.body)?;
        }
    }
    Ok(())
}
