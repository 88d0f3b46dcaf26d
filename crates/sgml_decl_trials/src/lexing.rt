// Lexemes. `lexemes`: a construct, ENTLVL and the greatest sum of texts, and a document. Each lexeme
// is told behind a mark of its kind: ` ` a name, `.` a token, `#` a reserved name, `"` a literal, `=` a
// value, `_` a sign; then where the stack stands, and the sum of the texts that were opened. `fronts`:
// how many fronts of a document want more, of how many; the whole doesn't. `short`: as `lexemes`, where
// NAMELEN is 5 and LITLEN is 3.
//
// Parameter entities are group `a|b`, open `(a`, own `%own;`, quote `'x`, mdc `>`, attribute
// `id ID #IMPLIED`, text `a"b%group;`, bad (no SGML character), empty, mixed `(#PCDATA)`, word ` TEMP `,
// file (external), cdata `x` (CDATA). General ones are sgml `s&cdata;`, quot `"&#34;`, loop `&loop;`,
// badc `&#999;`, deep `&sgml;`, cdata `c&` (CDATA), sdata (SDATA), pi (PI), file (external).
use crate::entities::{Kind, declare, declare_text, external, has_room};
use crate::spelling::{
    cut, name_of, number_of, put, put_number, put_text, put_units, small_of, spelled,
};
use sgml_decl_lexemes::{
    LexError, Lexeme, Lexemes, begins, lexemes, literal, section_start, subset_end,
};
use sgml_decl_parts::{Construct, before};
use sgml_entity::{Body, Entities, InputStack, Space, Texts};
use sgml_syntax::{Syntax, implied};
use sgml_text::{Memory, Units};
use std::alloc::Global;

pub fn construct_of(word: &[u8]) -> Construct {
    match word {
        b"section" => Construct::SectionStart,
        b"subset" => Construct::SubsetEnd,
        b"literal" => Construct::Literal(b'"'),
        b"literal in apostrophes" => Construct::Literal(b'\''),
        _ => Construct::Declaration,
    }
}

const TEXTS: [(Space, Kind, &[u8], &[u8]); 20] = [
    (Space::Parameter, Kind::Cdata, b"cdata", b"x"),
    (Space::General, Kind::Cdata, b"cdata", b"c&"),
    (Space::General, Kind::Sdata, b"sdata", b"d"),
    (Space::General, Kind::Pi, b"pi", b"p"),
    (Space::Parameter, Kind::Sgml, b"group", b"a|b"),
    (Space::Parameter, Kind::Sgml, b"open", b"(a"),
    (Space::Parameter, Kind::Sgml, b"own", b"%own;"),
    (Space::Parameter, Kind::Sgml, b"quote", b"'x"),
    (Space::Parameter, Kind::Sgml, b"mdc", b">"),
    (
        Space::Parameter,
        Kind::Sgml,
        b"attribute",
        b"id ID #IMPLIED",
    ),
    (Space::Parameter, Kind::Sgml, b"text", b"a\"b%group;"),
    (Space::Parameter, Kind::Sgml, b"bad", b"\x01"),
    (Space::Parameter, Kind::Sgml, b"empty", b""),
    (Space::Parameter, Kind::Sgml, b"mixed", b"(#PCDATA)"),
    (Space::Parameter, Kind::Sgml, b"word", b" TEMP "),
    (Space::General, Kind::Sgml, b"sgml", b"s&cdata;"),
    (Space::General, Kind::Sgml, b"quot", b"\"&#34;"),
    (Space::General, Kind::Sgml, b"loop", b"&loop;"),
    (Space::General, Kind::Sgml, b"badc", b"&#999;"),
    (Space::General, Kind::Sgml, b"deep", b"&sgml;"),
];

fn add_texts(alloc: Global, entities: &mut Entities) -> Result<(), Memory> {
    for (space, kind, name, text) in &TEXTS {
        declare_text(alloc, entities, *space, *kind, name, text)?;
    }
    Ok(())
}

// The file of a space.
fn add_file(alloc: Global, entities: &mut Entities, space: Space) -> Result<bool, Memory> {
    if !has_room(entities) {
        return Ok(false);
    }
    let name = name_of(alloc, b"file")?;
    let external = external(alloc, b"s")?;
    declare(alloc, entities, space, name, Body::External(external))
}

fn add_all(alloc: Global, entities: &mut Entities) -> Result<bool, Memory> {
    add_texts(alloc, entities)?;
    add_file(alloc, entities, Space::Parameter)?;
    add_file(alloc, entities, Space::General)
}

fn entities(alloc: Global) -> Result<Box<Entities>, Memory> {
    let mut entities = Box::new(alloc, Entities::new(alloc))?;
    add_all(alloc, &mut entities)?;
    Ok(entities)
}

fn put_lexeme(alloc: Global, out: &mut Vec<u8>, lexeme: &Lexeme) -> Result<(), Memory> {
    match lexeme {
        Lexeme::Name(name) => put_marked(out, b' ', name.items()),
        Lexeme::Token(token) => put_marked(out, b'.', token.items()),
        Lexeme::Reserved(name) => put_marked(out, b'#', name.items()),
        Lexeme::Literal(literal) => put_marked(out, b'"', literal.items()),
        Lexeme::Sign(sign) => put_marked(out, b'_', sgml_delim::string_of(*sign)),
        Lexeme::Value(units) => put_value(alloc, out, units),
    }
}

fn put_value(alloc: Global, out: &mut Vec<u8>, units: &Units) -> Result<(), Memory> {
    put(out, b"=")?;
    put_units(alloc, out, units.items())
}

fn put_marked(out: &mut Vec<u8>, mark: u8, bytes: &[u8]) -> Result<(), Memory> {
    out.push(mark)?;
    put_text(out, bytes)
}

fn put_lexemes(alloc: Global, out: &mut Vec<u8>, lexemes: &Lexemes) -> Result<(), Memory> {
    for lexeme in lexemes.items() {
        put_lexeme(alloc, out, lexeme)?;
    }
    Ok(())
}

fn put_error(out: &mut Vec<u8>, error: LexError) -> Result<(), Memory> {
    match error {
        LexError::Refused(reason) => put(out, reason.code().as_bytes()),
        LexError::Wanted(_) => put(out, b"Wanted"),
        LexError::NeedMore => put(out, b"NeedMore"),
        LexError::Memory => Err(Memory),
    }
}

fn put_read(
    alloc: Global,
    out: &mut Vec<u8>,
    read: Result<Lexemes, LexError>,
) -> Result<(), Memory> {
    match read {
        Ok(lexemes) => put_lexemes(alloc, out, &lexemes),
        Err(error) => put_error(out, error),
    }
}

fn put_literal(
    alloc: Global,
    syntax: &Syntax,
    out: &mut Vec<u8>,
    entities: &Entities,
    stack: &mut InputStack,
    texts: &Texts,
    quote: u8,
) -> Result<(), Memory> {
    if begins(entities, stack, texts, Construct::Literal(quote)) {
        let read = literal(alloc, syntax, entities, stack, texts, quote);
        put_read_literal(alloc, out, read)
    } else {
        put(out, b"nothing begins")
    }
}

fn put_read_literal(
    alloc: Global,
    out: &mut Vec<u8>,
    read: Result<Units, LexError>,
) -> Result<(), Memory> {
    match read {
        Ok(units) => put_value(alloc, out, &units),
        Err(error) => put_error(out, error),
    }
}

fn nothing(alloc: Global) -> Result<Lexemes, LexError> {
    Ok(Lexemes::of(Vec::new(alloc)))
}

fn read_section(
    alloc: Global,
    syntax: &Syntax,
    entities: &Entities,
    stack: &mut InputStack,
    texts: &Texts,
    ended: bool,
) -> Result<Lexemes, LexError> {
    if begins(entities, stack, texts, Construct::SectionStart) {
        section_start(alloc, syntax, entities, stack, texts, ended)
    } else {
        nothing(alloc)
    }
}

fn read_subset_end(
    alloc: Global,
    syntax: &Syntax,
    entities: &Entities,
    stack: &mut InputStack,
    texts: &Texts,
    ended: bool,
) -> Result<Lexemes, LexError> {
    if begins(entities, stack, texts, Construct::SubsetEnd) {
        subset_end(alloc, syntax, entities, stack, texts, ended)
    } else {
        nothing(alloc)
    }
}

fn read_declaration(
    alloc: Global,
    syntax: &Syntax,
    entities: &Entities,
    stack: &mut InputStack,
    texts: &Texts,
    ended: bool,
) -> Result<Lexemes, LexError> {
    if begins(entities, stack, texts, Construct::Declaration) {
        lexemes(alloc, syntax, entities, stack, texts, ended)
    } else {
        nothing(alloc)
    }
}

fn read(
    alloc: Global,
    syntax: &Syntax,
    construct: Construct,
    entities: &Entities,
    stack: &mut InputStack,
    texts: &Texts,
    ended: bool,
) -> Result<Lexemes, LexError> {
    match construct {
        Construct::SectionStart => read_section(alloc, syntax, entities, stack, texts, ended),
        Construct::SubsetEnd => read_subset_end(alloc, syntax, entities, stack, texts, ended),
        Construct::Declaration => read_declaration(alloc, syntax, entities, stack, texts, ended),
        Construct::Literal(_) => nothing(alloc),
    }
}

fn put_stack(alloc: Global, out: &mut Vec<u8>, stack: &InputStack) -> Result<(), Memory> {
    if let Some(top) = stack.top() {
        put(out, b" at ")?;
        put_number(alloc, out, top.at)?;
    }
    if stack.spent() > 0 {
        put(out, b", opened ")?;
        put_number(alloc, out, stack.spent())?;
    }
    Ok(())
}

fn put_construct(
    alloc: Global,
    syntax: &Syntax,
    out: &mut Vec<u8>,
    construct: Construct,
    entities: &Entities,
    stack: &mut InputStack,
    texts: &Texts,
) -> Result<(), Memory> {
    if begins(entities, stack, texts, construct) {
        let read = read(alloc, syntax, construct, entities, stack, texts, true);
        put_read(alloc, out, read)
    } else {
        put(out, b"nothing begins")
    }
}

fn put_begun(
    alloc: Global,
    syntax: &Syntax,
    out: &mut Vec<u8>,
    construct: Construct,
    entities: &Entities,
    stack: &mut InputStack,
    texts: &Texts,
) -> Result<(), Memory> {
    match construct {
        Construct::Literal(quote) => put_literal(alloc, syntax, out, entities, stack, texts, quote),
        _ => put_construct(alloc, syntax, out, construct, entities, stack, texts),
    }
}

fn put_answer(
    alloc: Global,
    syntax: &Syntax,
    out: &mut Vec<u8>,
    construct: Construct,
    stack: &mut InputStack,
    document: &[u8],
) -> Result<(), Memory> {
    let texts = texts_of(alloc, document)?;
    let entities = entities(alloc)?;
    put_begun(alloc, syntax, out, construct, &entities, stack, &texts)
}

fn texts_of(alloc: Global, document: &[u8]) -> Result<Box<Texts>, Memory> {
    let mut texts = Box::new(alloc, Texts::new(alloc))?;
    texts.append(0, document)?;
    Ok(texts)
}

fn stack_of(alloc: Global, limits: &[u8]) -> Result<InputStack, Memory> {
    let (levels, expand) = cut(limits, b' ');
    InputStack::new(alloc, small_of(levels), number_of(expand))
}

fn put_document(
    alloc: Global,
    syntax: &Syntax,
    out: &mut Vec<u8>,
    construct: Construct,
    limits: &[u8],
    document: &[u8],
) -> Result<(), Memory> {
    let mut stack = stack_of(alloc, limits)?;
    put_answer(alloc, syntax, out, construct, &mut stack, document)?;
    put_stack(alloc, out, &stack)
}

fn answer_in(alloc: Global, syntax: &Syntax, case: &[u8], out: &mut Vec<u8>) -> Result<(), Memory> {
    let (word, rest) = cut(case, b'\t');
    let (limits, text) = cut(rest, b'\t');
    let document = spelled(alloc, text)?;
    put_document(alloc, syntax, out, construct_of(word), limits, &document)
}

pub fn answer(alloc: Global, case: &[u8], out: &mut Vec<u8>) -> Result<(), Memory> {
    answer_in(alloc, &implied(), case, out)
}

// The implied syntax with short names and literals.
fn short() -> Syntax {
    let mut syntax = implied();
    syntax.quantities.namelen = 5;
    syntax.quantities.litlen = 3;
    syntax
}

pub fn answer_short(alloc: Global, case: &[u8], out: &mut Vec<u8>) -> Result<(), Memory> {
    answer_in(alloc, &short(), case, out)
}

fn is_need(read: Result<Lexemes, LexError>) -> bool {
    match read {
        Err(LexError::NeedMore) => true,
        _ => false,
    }
}

// Whether this front of a document wants more.
fn wants_more(
    alloc: Global,
    syntax: &Syntax,
    construct: Construct,
    entities: &Entities,
    front: &[u8],
) -> Result<bool, Memory> {
    let mut stack = InputStack::new(alloc, 2, 100)?;
    let texts = texts_of(alloc, front)?;
    let read = read(
        alloc, syntax, construct, entities, &mut stack, &texts, false,
    );
    Ok(is_need(read))
}

// How many fronts want more.
fn wanting(
    alloc: Global,
    syntax: &Syntax,
    construct: Construct,
    entities: &Entities,
    document: &[u8],
) -> Result<u64, Memory> {
    let mut wanting = 0u64;
    for n in before(construct)..document.len() {
        if wants_more(alloc, syntax, construct, entities, &document[..n])? {
            wanting = wanting.saturating_add(1);
        }
    }
    Ok(wanting)
}

fn put_fronts(
    alloc: Global,
    syntax: &Syntax,
    out: &mut Vec<u8>,
    construct: Construct,
    entities: &Entities,
    document: &[u8],
) -> Result<(), Memory> {
    let wanting = wanting(alloc, syntax, construct, entities, document)?;
    let fronts = document.len().saturating_sub(before(construct));
    let whole = wants_more(alloc, syntax, construct, entities, document)?;
    put_number(alloc, out, wanting)?;
    put(out, b" of ")?;
    put_number(alloc, out, fronts as u64)?;
    put(out, if whole { b", and the whole" } else { b"" })
}

pub fn answer_fronts(alloc: Global, case: &[u8], out: &mut Vec<u8>) -> Result<(), Memory> {
    let (word, text) = cut(case, b'\t');
    let document = spelled(alloc, text)?;
    let entities = entities(alloc)?;
    put_fronts(
        alloc,
        &implied(),
        out,
        construct_of(word),
        &entities,
        &document,
    )
}
