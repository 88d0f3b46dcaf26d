// What the tables have.
ghost use Rattle.std.specs.Prelude.{◌<◌, IfOk, IfSome, length};
ghost use Rattle.sgml_dtd_elements.specs.Types.{types};

use crate::writing::{put_found, put_group, put_value};
use sgml_attr::{Declared, Default, Definition};
use sgml_dtd::Dtd;
use sgml_dtd_elements::Content;
use sgml_dtd_maps::MapOf;
use sgml_entity::Space;
use sgml_text::{Memory, Name};
use sgml_trials::{put, put_number};
use std::alloc::Global;

// The number of an element type.
fn number_of(alloc: Global, dtd: &Dtd, name: &[u8]) -> Result<Option<u32>, Memory>
    ensures { IfOk result (λ found. IfSome found (λ n. n < length (types dtd.now.elements))) }
{
    if name.is_empty() {
        return Ok(None);
    }
    let name = Name::copied(alloc, name)?;
    match dtd.element(&name) {
        Some(number) if number < dtd.elements() => Ok(Some(number)),
        _ => Ok(None),
    }
}

fn content_word(content: &Content) -> &'static str {
    match content {
        Content::Empty => " EMPTY",
        Content::Cdata => " CDATA",
        Content::Rcdata => " RCDATA",
        Content::Any => " ANY",
        Content::Model(_) => " model",
    }
}

fn tag_word(omitted: bool) -> &'static str {
    if omitted { " O" } else { " -" }
}

fn put_map(alloc: Global, out: &mut Vec<u8>, map: MapOf) -> Result<(), Memory> {
    match map {
        MapOf::Parent => Ok(()),
        MapOf::Empty => put(out, " map #EMPTY"),
        MapOf::Map(number) => put_found(alloc, out, " map ", Some(number)),
    }
}

// Its number, content, tags, exceptions, attribute list and map.
fn tell_element(alloc: Global, dtd: &Dtd, number: u32, out: &mut Vec<u8>) -> Result<(), Memory>
    requires { number < length (types dtd.now.elements) }
{
    put_number(alloc, out, number as u64)?;
    put(out, content_word(dtd.content(number)))?;
    let omits = dtd.omits(number);
    put(out, tag_word(omits.start))?;
    put(out, tag_word(omits.end))?;
    let exceptions = dtd.exceptions(number);
    put_group(out, " -", exceptions.excluded.items())?;
    put_group(out, " +", exceptions.included.items())?;
    put_found(alloc, out, " list ", dtd.list(number))?;
    put_map(alloc, out, dtd.map_of(number))
}

// Whether its model takes this element type first.
fn tell_taken(
    alloc: Global,
    dtd: &Dtd,
    number: u32,
    token: &[u8],
    out: &mut Vec<u8>,
) -> Result<(), Memory>
    requires { number < length (types dtd.now.elements) }
{
    let Content::Model(automaton) = dtd.content(number) else {
        return put(out, "no model");
    };
    if token.is_empty() {
        return put(out, "no name");
    }
    let token = Name::copied(alloc, token)?;
    let state = automaton.state(alloc)?;
    put(
        out,
        if automaton.takes(&state, Some(&token)) {
            "yes"
        } else {
            "no"
        },
    )
}

fn put_definition(out: &mut Vec<u8>, definition: &Definition) -> Result<(), Memory> {
    out.extend_from_slice(definition.name.items())?;
    match &definition.declared {
        Declared::Group(tokens) => put_group(out, " ", tokens.items())?,
        Declared::Notation(names) => put_group(out, " NOTATION ", names.items())?,
        _ => {}
    }
    match &definition.default {
        Default::Value(units) => put_value(out, units.items()),
        Default::Fixed(units) => put_value(out, units.items()),
        _ => Ok(()),
    }
}

// Its attributes, in their order.
fn tell_attributes(dtd: &Dtd, number: u32, out: &mut Vec<u8>) -> Result<(), Memory>
    requires { number < length (types dtd.now.elements) }
{
    for definition in dtd.definitions(number) {
        put_definition(out, definition)?;
        out.push(b',')?;
    }
    Ok(())
}

// What a map gives to each string.
fn tell_map(alloc: Global, dtd: &Dtd, number: u32, out: &mut Vec<u8>) -> Result<(), Memory> {
    if number >= dtd.maps().count() {
        return put(out, "none");
    }
    for string in 0..32u8 {
        if let Some(entity) = dtd.maps().mapped(number, string) {
            put_number(alloc, out, string as u64)?;
            out.push(b':')?;
            out.extend_from_slice(entity.items())?;
            out.push(b' ')?;
        }
    }
    Ok(())
}

fn tell_entity(
    alloc: Global,
    dtd: &Dtd,
    space: Space,
    name: &[u8],
    out: &mut Vec<u8>,
) -> Result<(), Memory> {
    match dtd.entities().find(space, name) {
        Some(number) => put_number(alloc, out, number as u64),
        None => put(out, "none"),
    }
}

/// How many element types, attribute lists, entities and maps there are.
pub fn tell_counts(alloc: Global, dtd: &Dtd, out: &mut Vec<u8>) -> Result<(), Memory> {
    put_found(alloc, out, "types ", Some(dtd.elements()))?;
    put_found(alloc, out, " lists ", Some(dtd.lists()))?;
    put_found(alloc, out, " entities ", Some(dtd.entities().count()))?;
    put_found(alloc, out, " maps ", Some(dtd.maps().count()))
}

/// The name of the document type.
pub fn tell_doctype(dtd: &Dtd, out: &mut Vec<u8>) -> Result<(), Memory> {
    if dtd.has_doctype() {
        out.extend_from_slice(dtd.doctype().items())?;
        return Ok(());
    }
    put(out, "none")
}

fn tell_of_element(
    alloc: Global,
    dtd: &Dtd,
    word: &[u8],
    name: &[u8],
    more: &[u8],
    out: &mut Vec<u8>,
) -> Result<(), Memory> {
    let Some(number) = number_of(alloc, dtd, name)? else {
        return put(out, "none");
    };
    match word {
        b"element" => tell_element(alloc, dtd, number, out),
        b"takes" => tell_taken(alloc, dtd, number, more, out),
        b"attributes" => tell_attributes(dtd, number, out),
        _ => put(out, "what?"),
    }
}

/// The answer to a question of a name: an element type's, an entity's, or the first map's.
pub fn tell(
    alloc: Global,
    dtd: &Dtd,
    word: &[u8],
    name: &[u8],
    more: &[u8],
    out: &mut Vec<u8>,
) -> Result<(), Memory> {
    match word {
        b"general" => tell_entity(alloc, dtd, Space::General, name, out),
        b"parameter" => tell_entity(alloc, dtd, Space::Parameter, name, out),
        b"map" => tell_map(alloc, dtd, 0, out),
        _ => tell_of_element(alloc, dtd, word, name, more, out),
    }
}
