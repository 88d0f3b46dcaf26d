// What stands at a place of a declaration. `end`: how many bytes belong to a construct. `part`: the
// part that stands in a declaration, a group or a literal of some kind, and how many bytes it has.
// `due`: whether a declaration is whole after these lexemes: `'` is a literal, `.` a token, `#X` a
// reserved name.
ghost use Rattle.std.specs.Prelude.{◌<◌, ◌+◌, ◌^◌, length};

use crate::lexing::construct_of;
use crate::spelling::{cut, put, put_number, spelled};
use sgml_decl_parts::{
    Form, Here, LiteralKind, Opened, Part, PartFault, after_literal, after_name, after_reserved,
    after_sign, after_token, before, construct_end, is_complete, read_part,
};
use sgml_delim::Delim;
use sgml_text::{Memory, NameSet, Unit};
use std::alloc::Global;

pub fn answer_end(alloc: Global, case: &[u8], out: &mut Vec<u8>) -> Result<(), Memory> {
    let (word, text) = cut(case, b'\t');
    let text = spelled(alloc, text)?;
    let construct = construct_of(word);
    if before(construct) > text.len() {
        return put(out, b"too short");
    }
    match construct_end(&NameSet::reference(), construct, &text) {
        Some(n) => put_number(alloc, out, n as u64),
        None => put(out, b"none"),
    }
}

fn here(literal: Option<Opened>, in_group: bool) -> Here {
    Here {
        literal,
        in_its_text: true,
        at_base: true,
        in_group,
        after_group: false,
    }
}

fn in_literal(kind: LiteralKind) -> Here {
    let opened = Opened {
        quote: b'"',
        kind,
        height: 1,
    };
    here(Some(opened), false)
}

fn place_of(word: &[u8]) -> Here {
    match word {
        b"group" => here(None, true),
        b"parameter literal" => in_literal(LiteralKind::Parameter),
        b"value literal" => in_literal(LiteralKind::Value),
        b"plain literal" => in_literal(LiteralKind::Plain),
        _ => here(None, false),
    }
}

// What it is, with the number of its bytes where it has any number of them.
fn told(part: Part) -> (&'static [u8], usize) {
    match part {
        Part::Gap(n) => (b"gap", n),
        Part::Name(n) => (b"name", n),
        Part::Token(n) => (b"token", n),
        Part::Reserved(n) => (b"reserved name", n),
        Part::Sign(_) => (b"sign", 1),
        Part::Quote(_) => (b"quote", 1),
        Part::EndQuote => (b"end of the literal", 1),
        Part::Data(n) => (b"data", n),
        Part::Char(n, unit) => (character_of(unit), n),
        Part::NoChar(n) => (b"no character", n),
        Part::Refer(_, size) => (b"reference", size),
        Part::TextEnd => (b"end of the text", 0),
        Part::Closing => (b"end", 1),
    }
}

fn character_of(unit: Unit) -> &'static [u8] {
    match unit {
        Unit::Coded(_) => b"coded character",
        _ => b"function character",
    }
}

fn put_part(alloc: Global, out: &mut Vec<u8>, part: Part) -> Result<(), Memory> {
    let (word, size) = told(part);
    put(out, word)?;
    put(out, b" ")?;
    put_number(alloc, out, size as u64)?;
    if let Part::Refer(n, _) = part {
        put(out, b", name ")?;
        put_number(alloc, out, n as u64)?;
    }
    Ok(())
}

pub fn answer_part(alloc: Global, case: &[u8], out: &mut Vec<u8>) -> Result<(), Memory> {
    let (place, text) = cut(case, b'\t');
    let text = spelled(alloc, text)?;
    match read_part(&NameSet::reference(), true, place_of(place), &text) {
        Ok(part) => put_part(alloc, out, part),
        Err(PartFault::Unclosed) => put(out, b"not closed"),
        Err(PartFault::Syntax) => put(out, b"nothing that may stand"),
    }
}

/// The sign of this character.
pub fn sign_of(b: u8) -> Delim {
    match b {
        b'(' => Delim::Grpo,
        b')' => Delim::Grpc,
        b',' => Delim::Seq,
        b'|' => Delim::Or,
        b'&' => Delim::And,
        b'?' => Delim::Opt,
        b'+' => Delim::Plus,
        b'*' => Delim::Rep,
        b'%' => Delim::Pero,
        b'[' => Delim::Dso,
        _ => Delim::Minus,
    }
}

fn due_after(form: Form, word: &[u8]) -> Form {
    match word {
        b"'" => after_literal(form),
        b"." => after_token(form),
        [b'#', name @ ..] => after_reserved(form, name),
        [b] if !b.is_ascii_alphabetic() => after_sign(form, sign_of(*b)),
        _ => after_name(form, word),
    }
}

pub fn answer_due(case: &[u8], out: &mut Vec<u8>) -> Result<(), Memory> {
    let mut form = Form::Keyword;
    for word in case.split(|b| *b == b' ') {
        form = due_after(form, word);
    }
    put(
        out,
        if is_complete(form) {
            b"whole"
        } else {
            b"not whole"
        },
    )
}
