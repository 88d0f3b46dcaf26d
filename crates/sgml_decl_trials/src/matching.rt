// Which specification each attribute has: the definitions, each a name, or a name with `:` and the
// names of its group, and the specifications, `NAME=VALUE`, or `=VALUE` without a name. For each
// definition the number of its specification is told, or `-`.
use crate::shown::name_of_error;
use crate::spelling::{cut, name_of, names_of, put, put_number, units_of};
use crate::values::reference;
use sgml_attr::{AttrError, Declared, Default, Definition, Spec, match_specs};
use sgml_text::{Memory, Name};
use std::alloc::Global;

fn group(alloc: Global, names: &[u8]) -> Result<Declared, Memory> {
    let names = names_of(alloc, names)?;
    Ok(Declared::Group(names))
}

fn declared(alloc: Global, names: &[u8]) -> Result<Declared, Memory> {
    match names {
        [] => Ok(Declared::Name),
        _ => group(alloc, names),
    }
}

fn definition(alloc: Global, word: &[u8]) -> Result<Definition, Memory> {
    let (name, names) = cut(word, b':');
    let name = name_of(alloc, name)?;
    let declared = declared(alloc, names)?;
    Ok(Definition {
        name,
        declared,
        default: Default::Implied,
    })
}

fn given_name(alloc: Global, name: &[u8]) -> Result<Option<Name>, Memory> {
    if name.is_empty() {
        return Ok(None);
    }
    let name = name_of(alloc, name)?;
    Ok(Some(name))
}

fn specification(alloc: Global, word: &[u8]) -> Result<Spec, Memory> {
    let (name, value) = cut(word, b'=');
    let value = units_of(alloc, value)?;
    let name = given_name(alloc, name)?;
    Ok(Spec { name, value })
}

fn definitions(alloc: Global, words: &[u8]) -> Result<Vec<Definition>, Memory> {
    let mut definitions = Vec::new(alloc);
    for word in words.split(|b| *b == b' ') {
        let definition = definition(alloc, word)?;
        definitions.push(definition)?;
    }
    Ok(definitions)
}

fn specifications(alloc: Global, words: &[u8]) -> Result<Vec<Spec>, Memory> {
    let mut specs = Vec::new(alloc);
    for word in words.split(|b| *b == b' ') {
        let spec = specification(alloc, word)?;
        specs.push(spec)?;
    }
    Ok(specs)
}

fn put_number_or_none(alloc: Global, out: &mut Vec<u8>, spec: Option<usize>) -> Result<(), Memory> {
    match spec {
        Some(number) => put_number(alloc, out, number as u64),
        None => put(out, b"-"),
    }
}

fn put_matched(alloc: Global, out: &mut Vec<u8>, matched: &[Option<usize>]) -> Result<(), Memory> {
    for spec in matched {
        put_number_or_none(alloc, out, *spec)?;
        put(out, b" ")?;
    }
    Ok(())
}

fn put_error(alloc: Global, out: &mut Vec<u8>, error: AttrError) -> Result<(), Memory> {
    put(out, name_of_error(error))?;
    match error {
        AttrError::UnknownAttribute { spec } => put_place(alloc, out, spec),
        AttrError::Twice { spec } => put_place(alloc, out, spec),
        _ => Ok(()),
    }
}

fn put_place(alloc: Global, out: &mut Vec<u8>, spec: usize) -> Result<(), Memory> {
    put(out, b" ")?;
    put_number(alloc, out, spec as u64)
}

fn put_answer(
    alloc: Global,
    out: &mut Vec<u8>,
    definitions: &[Definition],
    specs: &[Spec],
) -> Result<(), Memory> {
    match match_specs(alloc, &reference(), definitions, specs) {
        Ok(matched) => put_matched(alloc, out, &matched),
        Err(error) => put_error(alloc, out, error),
    }
}

pub fn answer(alloc: Global, case: &[u8], out: &mut Vec<u8>) -> Result<(), Memory> {
    let (names, specs) = cut(case, b'\t');
    let specs = specifications(alloc, specs)?;
    let definitions = definitions(alloc, names)?;
    put_answer(alloc, out, &definitions, &specs)
}
