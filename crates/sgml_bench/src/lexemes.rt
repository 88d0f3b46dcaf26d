// Starts of marked sections, and literals of tags, one after another in one text.
use sgml_decl_lexemes::{begins, literal, section_start};
use sgml_decl_parts::Construct;
use sgml_entity::{Body, Entities, Entity, InputStack, Space, Texts};
use sgml_syntax::{Syntax, implied};
use sgml_text::{Memory, Name, Text};
use std::alloc::Global;
use std::time::Instant;

// Starts of marked sections, and what is written about them.
const SECTIONS: [(&[u8], &str); 4] = [
    (b"<![ INCLUDE [", "section starts with a keyword"),
    (b"<![ TEMP INCLUDE [", "section starts with two keywords"),
    (b"<![ -- c -- INCLUDE [", "section starts with a comment"),
    (b"<![ %draft; [", "section starts with a reference"),
];

const LITERAL: &[u8] = b"a value of some length\"";

const QUOTE: u8 = b'"';

fn copies(alloc: Global, part: &[u8], count: u32) -> Result<Box<Texts>, Memory> {
    let mut text = Vec::new(alloc);
    for _ in 0..count {
        text.extend_from_slice(part)?;
    }
    let mut texts = Box::new(alloc, Texts::new(alloc))?;
    texts.append(0, &text)?;
    Ok(texts)
}

// How many of so many were read.
fn sections(
    alloc: Global,
    syntax: &Syntax,
    entities: &Entities,
    stack: &mut InputStack,
    texts: &Texts,
    count: u32,
) -> u32 {
    for found in 0..count {
        if !begins(entities, stack, texts, Construct::SectionStart) {
            return found;
        }
        if section_start(alloc, syntax, entities, stack, texts, true).is_err() {
            return found;
        }
    }
    count
}

fn literals(
    alloc: Global,
    syntax: &Syntax,
    entities: &Entities,
    stack: &mut InputStack,
    texts: &Texts,
    count: u32,
) -> u32 {
    for found in 0..count {
        if !begins(entities, stack, texts, Construct::Literal(QUOTE)) {
            return found;
        }
        if literal(alloc, syntax, entities, stack, texts, QUOTE).is_err() {
            return found;
        }
    }
    count
}

// How many of so many literals or section starts were read.
fn found(
    alloc: Global,
    entities: &Entities,
    stack: &mut InputStack,
    texts: &Texts,
    is_literal: bool,
    count: u32,
) -> u32 {
    let syntax = implied();
    if is_literal {
        literals(alloc, &syntax, entities, stack, texts, count)
    } else {
        sections(alloc, &syntax, entities, stack, texts, count)
    }
}

fn measure_read(
    rt: &HostRuntime,
    entities: &Entities,
    stack: &mut InputStack,
    texts: &Texts,
    word: &str,
    is_literal: bool,
    count: u32,
) {
    let Ok(start) = Instant::now(rt) else {
        return;
    };
    let found = found(rt.alloc(), entities, stack, texts, is_literal, count);
    let Ok(time) = start.elapsed(rt) else {
        return;
    };
    let _ = println!(rt; "{found} {word} of {count}: {time:?}");
}

// The parameter entity `draft` is the keyword INCLUDE.
fn entities_of(alloc: Global) -> Result<Entities, Memory> {
    let mut entities = Entities::new(alloc);
    let draft = Entity {
        name: Name::copied(alloc, b"draft")?,
        space: Space::Parameter,
        body: Body::Sgml(Text::copied(alloc, b"INCLUDE")?),
        base: Text::of(Vec::new(alloc)),
    };
    entities.declare(draft)?;
    Ok(entities)
}

fn measure_part(
    rt: &HostRuntime,
    part: &[u8],
    word: &str,
    is_literal: bool,
    count: u32,
) -> Result<(), Memory> {
    let alloc = rt.alloc();
    let texts = copies(alloc, part, count)?;
    let mut stack = InputStack::new(alloc, 16, 10_000_000)?;
    let entities = entities_of(alloc)?;
    measure_read(rt, &entities, &mut stack, &texts, word, is_literal, count);
    Ok(())
}

pub fn measure(rt: &HostRuntime, size: &str) {
    let Ok(count) = size.parse::<u32>() else {
        return;
    };
    for (part, word) in &SECTIONS {
        let _ = measure_part(rt, part, word, false, count);
    }
    let _ = measure_part(rt, LITERAL, "literals", true, count);
}
