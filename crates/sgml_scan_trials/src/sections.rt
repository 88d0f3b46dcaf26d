// Status keywords, and sections that start and end.
use crate::reading::{is, words_of};
use crate::writing::put_yes;
use sgml_marked::{SectionError, Sections, Status, status_of};
use sgml_text::Memory;
use sgml_trials::{number_of, put, put_number, split_at};
use std::alloc::Global;

fn status_word(status: Status) -> &'static str {
    match status {
        Status::Ignore => "IGNORE",
        Status::Cdata => "CDATA",
        Status::Rcdata => "RCDATA",
        Status::Include => "INCLUDE",
    }
}

// The status of these keywords, or the index of the first that is none.
fn tell_status(alloc: Global, words: &[u8], out: &mut Vec<u8>) -> Result<(), Memory> {
    let keywords = words_of(alloc, words, b' ')?;
    match status_of(&keywords) {
        Ok(status) => put(out, status_word(status)),
        Err(index) => {
            put(out, "unknown ")?;
            put_number(alloc, out, index as u64)
        }
    }
}

fn section_status(word: &[u8]) -> Status {
    if is(word, "IGNORE") {
        Status::Ignore
    } else if is(word, "CDATA") {
        Status::Cdata
    } else if is(word, "RCDATA") {
        Status::Rcdata
    } else {
        Status::Include
    }
}

fn error_word(answer: Result<(), SectionError>) -> &'static str {
    match answer {
        Ok(()) => "ok",
        Err(SectionError::SectionNone) => "none",
        Err(SectionError::SectionOpen) => "open",
    }
}

fn tell_innermost(sections: &Sections, out: &mut Vec<u8>) -> Result<(), Memory> {
    match sections.innermost() {
        Some(status) => put(out, status_word(status)),
        None => put(out, "none"),
    }
}

// A question to sections.
fn tell_of(
    alloc: Global,
    sections: &Sections,
    word: &[u8],
    level: u32,
    out: &mut Vec<u8>,
) -> Result<(), Memory> {
    if is(word, "end") {
        put(out, error_word(sections.check_end(level)))
    } else if is(word, "innermost") {
        tell_innermost(sections, out)
    } else {
        put_number(alloc, out, sections.count())
    }
}

// One step: `push`, `pop` and `end` at a level, or a question.
fn tell_step(
    alloc: Global,
    sections: &mut Sections,
    step: &[u8],
    out: &mut Vec<u8>,
) -> Result<(), Memory> {
    let (word, rest) = split_at(step, b' ');
    if is(word, "push") {
        let (status, level) = split_at(rest, b' ');
        sections.push(section_status(status), number_of(level))?;
        return put(out, "ok");
    }
    if is(word, "pop") {
        return put(out, error_word(sections.pop(number_of(rest))));
    }
    tell_of(alloc, sections, word, number_of(rest), out)
}

// The steps of sections, with `;` between them. At `copy` they are copied, a step behind `copy:` is one
// of the copy, and `same` compares the two.
fn tell_sections(alloc: Global, steps: &[u8], out: &mut Vec<u8>) -> Result<(), Memory> {
    let mut sections = Sections::new(alloc);
    let mut copy = Sections::new(alloc);
    for step in words_of(alloc, steps, b';')?.iter() {
        let (word, rest) = split_at(step.items(), b':');
        if is(word, "same") {
            put_yes(out, copy == sections)?;
        } else if !is(word, "copy") {
            tell_step(alloc, &mut sections, word, out)?;
        } else if rest.is_empty() {
            copy = sections.copy(alloc)?;
        } else {
            tell_step(alloc, &mut copy, rest, out)?;
        }
        out.push(b';')?;
    }
    Ok(())
}

pub fn tell(alloc: Global, word: &[u8], bytes: &[u8], out: &mut Vec<u8>) -> Result<(), Memory> {
    if is(word, "status") {
        tell_status(alloc, bytes, out)
    } else {
        tell_sections(alloc, bytes, out)
    }
}
