// What a declaration says. Its lexemes are words: `'x'` is a literal, `"x"` an attribute value
// literal, `#X` a reserved name, `0x` a token, one character that is no letter a sign.
use crate::parts::sign_of;
use crate::shown::{put_declared, put_default};
use crate::spelling::{name_of, put, put_names, put_number, put_text};
use sgml_decl_forms::{
    AttlistDeclaration, ContentForm, Declaration, DoctypeHead, ElementDeclaration,
    EntityDeclaration, NotationDeclaration, ShortrefDeclaration, UsedMap, UsemapDeclaration,
    read_declaration,
};
use sgml_decl_lexemes::Lexeme;
use sgml_entity::{Body, External, Space};
use sgml_text::{DataKind, Memory, Name, Text, Units};
use std::alloc::Global;

fn literal(alloc: Global, text: &[u8]) -> Result<Lexeme, Memory> {
    let text = Text::copied(alloc, text)?;
    Ok(Lexeme::Literal(text))
}

fn value(alloc: Global, text: &[u8]) -> Result<Lexeme, Memory> {
    let units = Units::of_bytes(alloc, text)?;
    Ok(Lexeme::Value(units))
}

fn reserved(alloc: Global, name: &[u8]) -> Result<Lexeme, Memory> {
    let name = name_of(alloc, name)?;
    Ok(Lexeme::Reserved(name))
}

fn token(alloc: Global, word: &[u8]) -> Result<Lexeme, Memory> {
    let text = Text::copied(alloc, word)?;
    Ok(Lexeme::Token(text))
}

fn name(alloc: Global, word: &[u8]) -> Result<Lexeme, Memory> {
    let name = name_of(alloc, word)?;
    Ok(Lexeme::Name(name))
}

fn lexeme(alloc: Global, word: &[u8]) -> Result<Lexeme, Memory> {
    match word {
        [b'\'', text @ .., b'\''] => literal(alloc, text),
        [b'"', text @ .., b'"'] => value(alloc, text),
        [b'#', name @ ..] => reserved(alloc, name),
        [b'0', ..] => token(alloc, word),
        [b] if !b.is_ascii_alphabetic() => Ok(Lexeme::Sign(sign_of(*b))),
        _ => name(alloc, word),
    }
}

fn lexemes(alloc: Global, words: &[u8]) -> Result<Vec<Lexeme>, Memory> {
    let mut lexemes = Vec::new(alloc);
    for word in words.split(|b| *b == b' ') {
        if !word.is_empty() {
            let lexeme = lexeme(alloc, word)?;
            lexemes.push(lexeme)?;
        }
    }
    Ok(lexemes)
}

fn put_content(alloc: Global, out: &mut Vec<u8>, content: &ContentForm) -> Result<(), Memory> {
    match content {
        ContentForm::Empty => put(out, b"EMPTY"),
        ContentForm::Cdata => put(out, b"CDATA"),
        ContentForm::Rcdata => put(out, b"RCDATA"),
        ContentForm::Any => put(out, b"ANY"),
        ContentForm::Model(tokens) => {
            put(out, b"model of ")?;
            put_number(alloc, out, tokens.items().len() as u64)
        }
    }
}

fn put_listed(out: &mut Vec<u8>, word: &[u8], names: &[Name]) -> Result<(), Memory> {
    if names.is_empty() {
        return Ok(());
    }
    put(out, word)?;
    put_names(out, names)
}

fn put_element(
    alloc: Global,
    out: &mut Vec<u8>,
    element: &ElementDeclaration,
) -> Result<(), Memory> {
    put_listed(out, b"element", element.names.items())?;
    put(
        out,
        if element.omits.start {
            b", start O"
        } else {
            b""
        },
    )?;
    put(out, if element.omits.end { b", end O" } else { b"" })?;
    put(out, b", ")?;
    put_content(alloc, out, &element.body.content)?;
    put_listed(out, b", not", element.body.excluded.items())?;
    put_listed(out, b", also", element.body.included.items())
}

fn put_attlist(alloc: Global, out: &mut Vec<u8>, list: &AttlistDeclaration) -> Result<(), Memory> {
    put_listed(out, b"attributes of", list.names.items())?;
    for attribute in list.attributes.items() {
        put(out, b"; ")?;
        put_text(out, attribute.name.items())?;
        put_declared(out, &attribute.declared)?;
        put_default(alloc, out, &attribute.default)?;
    }
    Ok(())
}

fn put_identifier(out: &mut Vec<u8>, word: &[u8], text: &Option<Text>) -> Result<(), Memory> {
    match text {
        Some(text) => {
            put(out, word)?;
            put_text(out, text.items())
        }
        None => Ok(()),
    }
}

fn put_external(out: &mut Vec<u8>, external: &External) -> Result<(), Memory> {
    put(out, b", external")?;
    put_identifier(out, b" public ", &external.public)?;
    put_identifier(out, b" system ", &external.system)
}

fn put_worded(out: &mut Vec<u8>, word: &[u8], text: &Text) -> Result<(), Memory> {
    put(out, word)?;
    put_text(out, text.items())
}

fn kind_of(kind: DataKind) -> &'static [u8] {
    match kind {
        DataKind::Cdata => b" CDATA ",
        DataKind::Ndata => b" NDATA ",
        DataKind::Sdata => b" SDATA ",
    }
}

fn put_body(out: &mut Vec<u8>, body: &Body) -> Result<(), Memory> {
    match body {
        Body::Sgml(text) => put_worded(out, b", text ", text),
        Body::Cdata(text) => put_worded(out, b", CDATA ", text),
        Body::Sdata(text) => put_worded(out, b", SDATA ", text),
        Body::Pi(text) => put_worded(out, b", PI ", text),
        Body::External(external) => put_external(out, external),
        Body::ExternalData {
            kind,
            external,
            notation,
        } => {
            put_external(out, external)?;
            put(out, kind_of(*kind))?;
            put_text(out, notation.items())
        }
    }
}

fn put_entity(out: &mut Vec<u8>, entity: &EntityDeclaration) -> Result<(), Memory> {
    put(
        out,
        match entity.space {
            Space::General => b"general entity ",
            Space::Parameter => b"parameter entity ",
        },
    )?;
    put_text(out, entity.name.items())?;
    put_body(out, &entity.body)
}

fn put_notation(out: &mut Vec<u8>, notation: &NotationDeclaration) -> Result<(), Memory> {
    put(out, b"notation ")?;
    put_text(out, notation.name.items())?;
    put_external(out, &notation.external)
}

fn put_map(out: &mut Vec<u8>, map: &ShortrefDeclaration) -> Result<(), Memory> {
    put(out, b"map ")?;
    put_text(out, map.name.items())?;
    for (text, name) in map.pairs.items() {
        put_worded(out, b"; ", text)?;
        put(out, b" is ")?;
        put_text(out, name.items())?;
    }
    Ok(())
}

fn put_use(out: &mut Vec<u8>, usemap: &UsemapDeclaration) -> Result<(), Memory> {
    put(out, b"use of ")?;
    match &usemap.map {
        UsedMap::Empty => put(out, b"#EMPTY")?,
        UsedMap::Named(name) => put_text(out, name.items())?,
    }
    match &usemap.targets {
        Some(names) => put_listed(out, b" in", names.items()),
        None => Ok(()),
    }
}

fn put_doctype(out: &mut Vec<u8>, head: &DoctypeHead) -> Result<(), Memory> {
    put(out, b"document type ")?;
    put_text(out, head.name.items())?;
    if let Some(external) = &head.external {
        put_external(out, external)?;
    }
    put(out, if head.subset { b", subset" } else { b"" })
}

fn put_declaration(
    alloc: Global,
    out: &mut Vec<u8>,
    declaration: &Declaration,
) -> Result<(), Memory> {
    match declaration {
        Declaration::Element(element) => put_element(alloc, out, element),
        Declaration::Attlist(list) => put_attlist(alloc, out, list),
        Declaration::Entity(entity) => put_entity(out, entity),
        Declaration::Notation(notation) => put_notation(out, notation),
        Declaration::Shortref(map) => put_map(out, map),
        Declaration::Usemap(usemap) => put_use(out, usemap),
        Declaration::Doctype(head) => put_doctype(out, head),
    }
}

fn declaration(alloc: Global, lexemes: &[Lexeme]) -> Result<Option<Box<Declaration>>, Memory> {
    match read_declaration(alloc, lexemes)? {
        Some(declaration) => Ok(Some(Box::new(alloc, declaration)?)),
        None => Ok(None),
    }
}

pub fn answer(alloc: Global, case: &[u8], out: &mut Vec<u8>) -> Result<(), Memory> {
    let lexemes = lexemes(alloc, case)?;
    match declaration(alloc, &lexemes)? {
        Some(declaration) => put_declaration(alloc, out, &declaration),
        None => put(out, b"of no form"),
    }
}
