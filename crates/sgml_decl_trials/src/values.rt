// Attribute values. `read` reads a literal as a value: its declared value, the limit, the units.
// `value` gives a value: the declared value, the default and the specification, each `=UNITS` or a
// word. `default` judges a default value.
//
// NOTATION is a group of N, M and NOTATION, and GROUP one of U, 1A and GROUPING. Declared are the
// notations N, K and NOTATION, the text t (2), the data e (3), entities (4, SDATA) and d (5, external).
// Attribute 0 of the attribute list 1 has the current value U, that of list 0 has none. NAMELEN is 8.
use crate::entities::{Kind, declare, declare_notation, declare_text, external, has_room};
use crate::shown::{name_of_error, put_value};
use crate::spelling::{cut, name_of, names_of, put, put_number, put_units, small_of, units_of};
use sgml_attr::{
    AttrError, AttrValue, Currents, Declared, Default, Definition, interpret_literal,
    judge_default, value_of,
};
use sgml_entity::{Body, Entities, Space};
use sgml_syntax::{Syntax, implied};
use sgml_text::{DataKind, Memory, Unit, Units};
use std::alloc::Global;

/// The implied syntax with the reference NAMELEN.
pub fn reference() -> Syntax {
    let mut syntax = implied();
    syntax.quantities.namelen = 8;
    syntax
}

fn notations(alloc: Global) -> Result<Declared, Memory> {
    let names = names_of(alloc, b"N,M,NOTATION")?;
    Ok(Declared::Notation(names))
}

fn group(alloc: Global) -> Result<Declared, Memory> {
    let names = names_of(alloc, b"U,1A,GROUPING")?;
    Ok(Declared::Group(names))
}

fn declared(alloc: Global, word: &[u8]) -> Result<Declared, Memory> {
    match word {
        b"NOTATION" => notations(alloc),
        b"GROUP" => group(alloc),
        _ => Ok(plain(word)),
    }
}

fn plain(word: &[u8]) -> Declared {
    match word {
        b"ENTITY" => Declared::Entity,
        b"ENTITIES" => Declared::Entities,
        b"ID" => Declared::Id,
        b"IDREF" => Declared::Idref,
        b"IDREFS" => Declared::Idrefs,
        b"NAME" => Declared::Name,
        b"NAMES" => Declared::Names,
        b"NMTOKEN" => Declared::Nmtoken,
        b"NMTOKENS" => Declared::Nmtokens,
        _ => of_numbers(word),
    }
}

fn of_numbers(word: &[u8]) -> Declared {
    match word {
        b"NUMBER" => Declared::Number,
        b"NUMBERS" => Declared::Numbers,
        b"NUTOKEN" => Declared::Nutoken,
        b"NUTOKENS" => Declared::Nutokens,
        _ => Declared::Cdata,
    }
}

fn ordinary(alloc: Global, text: &[u8]) -> Result<Default, Memory> {
    let units = units_of(alloc, text)?;
    Ok(Default::Value(units))
}

fn fixed(alloc: Global, text: &[u8]) -> Result<Default, Memory> {
    let units = units_of(alloc, text)?;
    Ok(Default::Fixed(units))
}

fn default_of(alloc: Global, text: &[u8]) -> Result<Default, Memory> {
    match text {
        [b'=', units @ ..] => ordinary(alloc, units),
        [b'#', b'F', b'I', b'X', b'E', b'D', b'=', units @ ..] => fixed(alloc, units),
        _ => Ok(default_word(text)),
    }
}

fn default_word(text: &[u8]) -> Default {
    match text {
        b"#REQUIRED" => Default::Required,
        b"#CURRENT" => Default::Current,
        b"#CURRENT of list 1" => Default::Current,
        b"#CONREF" => Default::Conref,
        _ => Default::Implied,
    }
}

fn add_external(alloc: Global, entities: &mut Entities) -> Result<bool, Memory> {
    if !has_room(entities) {
        return Ok(false);
    }
    let name = name_of(alloc, b"d")?;
    let notation = name_of(alloc, b"N")?;
    let external = external(alloc, b"s")?;
    let body = Body::ExternalData {
        kind: DataKind::Ndata,
        external,
        notation,
    };
    declare(alloc, entities, Space::General, name, body)
}

fn add_all(alloc: Global, entities: &mut Entities) -> Result<bool, Memory> {
    declare_text(alloc, entities, Space::General, Kind::Sgml, b"t", b"")?;
    declare_text(alloc, entities, Space::General, Kind::Cdata, b"e", b"")?;
    declare_text(
        alloc,
        entities,
        Space::General,
        Kind::Sdata,
        b"entities",
        b"",
    )?;
    add_external(alloc, entities)?;
    declare_notation(alloc, entities, b"N", b"s")?;
    declare_notation(alloc, entities, b"K", b"s")?;
    declare_notation(alloc, entities, b"NOTATION", b"s")
}

fn entities(alloc: Global) -> Result<Box<Entities>, Memory> {
    let mut entities = Box::new(alloc, Entities::new(alloc))?;
    add_all(alloc, &mut entities)?;
    Ok(entities)
}

fn currents(alloc: Global) -> Result<Currents, Memory> {
    let names = names_of(alloc, b"U")?;
    let mut currents = Currents::new(alloc, 2)?;
    currents.set(1, 0, AttrValue::Tokens(names))?;
    Ok(currents)
}

fn given_of(alloc: Global, text: &[u8]) -> Result<Option<Units>, Memory> {
    match text {
        [b'=', spelled @ ..] => {
            let units = units_of(alloc, spelled)?;
            Ok(Some(units))
        }
        _ => Ok(None),
    }
}

fn definition(alloc: Global, word: &[u8], default: &[u8]) -> Result<Definition, Memory> {
    let name = name_of(alloc, b"X")?;
    let default = default_of(alloc, default)?;
    let declared = declared(alloc, word)?;
    Ok(Definition {
        name,
        declared,
        default,
    })
}

fn put_given(
    alloc: Global,
    out: &mut Vec<u8>,
    definition: &Definition,
    given: Option<&Units>,
    list: u32,
) -> Result<(), Memory> {
    let currents = currents(alloc)?;
    let entities = entities(alloc)?;
    let syntax = reference();
    let value = value_of(
        alloc, &syntax, definition, given, &currents, list, 0, &entities,
    );
    put_answer(alloc, out, value)
}

fn put_answer(
    alloc: Global,
    out: &mut Vec<u8>,
    value: Result<AttrValue, AttrError>,
) -> Result<(), Memory> {
    match value {
        Ok(value) => put_value(alloc, out, &value),
        Err(error) => put(out, name_of_error(error)),
    }
}

fn list_of(default: &[u8]) -> u32 {
    match default {
        b"#CURRENT of list 1" => 1,
        _ => 0,
    }
}

pub fn answer_value(alloc: Global, case: &[u8], out: &mut Vec<u8>) -> Result<(), Memory> {
    let (word, rest) = cut(case, b'\t');
    let (default, given) = cut(rest, b'\t');
    let given = given_of(alloc, given)?;
    let definition = definition(alloc, word, default)?;
    put_given(alloc, out, &definition, given.as_ref(), list_of(default))
}

fn put_refusal(out: &mut Vec<u8>, answer: Result<(), AttrError>) -> Result<(), Memory> {
    match answer {
        Ok(()) => put(out, b"stands"),
        Err(error) => put(out, name_of_error(error)),
    }
}

pub fn answer_default(alloc: Global, case: &[u8], out: &mut Vec<u8>) -> Result<(), Memory> {
    let (word, text) = cut(case, b'\t');
    let units = units_of(alloc, text)?;
    let declared = declared(alloc, word)?;
    put_refusal(out, judge_default(alloc, &reference(), &declared, &units))
}

fn put_units_read(
    alloc: Global,
    out: &mut Vec<u8>,
    read: Result<Units, AttrError>,
) -> Result<(), Memory> {
    match read {
        Ok(units) => put_counted(alloc, out, units.items()),
        Err(error) => put(out, name_of_error(error)),
    }
}

fn put_counted(alloc: Global, out: &mut Vec<u8>, units: &[Unit]) -> Result<(), Memory> {
    put_number(alloc, out, units.len() as u64)?;
    put(out, b" ")?;
    put_units(alloc, out, units)
}

pub fn answer_read(alloc: Global, case: &[u8], out: &mut Vec<u8>) -> Result<(), Memory> {
    let (word, rest) = cut(case, b'\t');
    let (limit, text) = cut(rest, b'\t');
    let units = units_of(alloc, text)?;
    let declared = declared(alloc, word)?;
    let read = interpret_literal(alloc, units.items(), &declared, small_of(limit));
    put_units_read(alloc, out, read)
}
