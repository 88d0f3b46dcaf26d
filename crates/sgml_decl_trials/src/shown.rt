// Answers as words.
use crate::spelling::{put, put_names, put_number, put_text, put_units};
use sgml_attr::{AttrError, AttrValue, Declared, Default};
use sgml_text::{Memory, Name, Units};
use std::alloc::Global;

pub fn name_of_error(error: AttrError) -> &'static [u8] {
    match error {
        AttrError::Memory => b"Memory",
        AttrError::NameLength => b"NameLength",
        AttrError::LiteralLimit => b"LiteralLimit",
        AttrError::NotationUnknown => b"NotationUnknown",
        AttrError::UnknownAttribute { .. } => b"UnknownAttribute",
        AttrError::Twice { .. } => b"Twice",
        AttrError::NotAToken => b"NotAToken",
        AttrError::NotInGroup => b"NotInGroup",
        AttrError::FixedDiffers => b"FixedDiffers",
        AttrError::EntityUnknown => b"EntityUnknown",
        AttrError::Required => b"Required",
        AttrError::NoCurrent => b"NoCurrent",
    }
}

pub fn put_value(alloc: Global, out: &mut Vec<u8>, value: &AttrValue) -> Result<(), Memory> {
    match value {
        AttrValue::Implied => put(out, b"no value"),
        AttrValue::Cdata(units) => {
            put(out, b"'")?;
            put_units(alloc, out, units.items())?;
            put(out, b"'")
        }
        AttrValue::Notation(name) => {
            put(out, b"notation ")?;
            put_text(out, name.items())
        }
        AttrValue::Entities(numbers) => {
            put(out, b"entities")?;
            put_numbers(alloc, out, numbers.items())
        }
        AttrValue::Tokens(names) => {
            put(out, b"tokens")?;
            put_names(out, names.items())
        }
    }
}

fn put_numbers(alloc: Global, out: &mut Vec<u8>, numbers: &[u32]) -> Result<(), Memory> {
    for number in numbers {
        put(out, b" ")?;
        put_number(alloc, out, u64::from(*number))?;
    }
    Ok(())
}

fn put_group(out: &mut Vec<u8>, word: &[u8], names: &[Name]) -> Result<(), Memory> {
    put(out, word)?;
    put(out, b" (")?;
    put_names(out, names)?;
    put(out, b" )")
}

pub fn put_declared(out: &mut Vec<u8>, declared: &Declared) -> Result<(), Memory> {
    match declared {
        Declared::Notation(names) => put_group(out, b" NOTATION", names.items()),
        Declared::Group(names) => put_group(out, b"", names.items()),
        _ => put(out, keyword_of(declared)),
    }
}

fn keyword_of(declared: &Declared) -> &'static [u8] {
    match declared {
        Declared::Cdata => b" CDATA",
        Declared::Entity => b" ENTITY",
        Declared::Entities => b" ENTITIES",
        Declared::Id => b" ID",
        Declared::Idref => b" IDREF",
        Declared::Idrefs => b" IDREFS",
        Declared::Name => b" NAME",
        Declared::Names => b" NAMES",
        Declared::Nmtoken => b" NMTOKEN",
        Declared::Nmtokens => b" NMTOKENS",
        Declared::Number => b" NUMBER",
        Declared::Numbers => b" NUMBERS",
        Declared::Nutoken => b" NUTOKEN",
        Declared::Nutokens => b" NUTOKENS",
        _ => b"",
    }
}

pub fn put_default(alloc: Global, out: &mut Vec<u8>, default: &Default) -> Result<(), Memory> {
    match default {
        Default::Value(units) => put_marked(alloc, out, b" =", units),
        Default::Fixed(units) => put_marked(alloc, out, b" #FIXED =", units),
        Default::Required => put(out, b" #REQUIRED"),
        Default::Current => put(out, b" #CURRENT"),
        Default::Conref => put(out, b" #CONREF"),
        Default::Implied => put(out, b" #IMPLIED"),
    }
}

fn put_marked(alloc: Global, out: &mut Vec<u8>, word: &[u8], units: &Units) -> Result<(), Memory> {
    put(out, word)?;
    put_units(alloc, out, units.items())
}
