// Names and texts as they are kept, characters of names, and places.
use crate::reading::{is, words_of};
use crate::writing::put_yes;
use sgml_syntax::{Quantities, Syntax, implied};
use sgml_text::{Memory, Name, NameSet, Names, Numbers, Reason, Text, fold, is_name, line_column};
use sgml_trials::{number_of, put, put_number, split_at};
use std::alloc::Global;

// A name in three ways: of its own bytes, of a copy, and folded; each is copied once more.
fn tell_name(alloc: Global, word: &[u8], bytes: &[u8], out: &mut Vec<u8>) -> Result<(), Memory> {
    if bytes.is_empty() {
        return put(out, "no name");
    }
    let name = if is(word, "name") {
        Name::of(bytes.to_vec(alloc)?)
    } else if is(word, "name copied") {
        Name::copied(alloc, bytes)?
    } else {
        fold(alloc, bytes)?
    };
    out.extend_from_slice(name.copy(alloc)?.items())?;
    Ok(())
}

fn tell_text(alloc: Global, word: &[u8], bytes: &[u8], out: &mut Vec<u8>) -> Result<(), Memory> {
    let text = if is(word, "text") {
        Text::of(bytes.to_vec(alloc)?)
    } else {
        Text::copied(alloc, bytes)?
    };
    out.extend_from_slice(text.copy(alloc)?.items())?;
    Ok(())
}

// Names of a list, folded, with a blank after each.
fn tell_names(alloc: Global, bytes: &[u8], out: &mut Vec<u8>) -> Result<(), Memory> {
    let mut names = Vec::new(alloc);
    for word in words_of(alloc, bytes, b' ')?.iter() {
        names.push(fold(alloc, word.items())?)?;
    }
    for name in Names::of(names).items() {
        out.extend_from_slice(name.items())?;
        out.push(b' ')?;
    }
    Ok(())
}

fn tell_numbers(alloc: Global, bytes: &[u8], out: &mut Vec<u8>) -> Result<(), Memory> {
    let mut numbers = Vec::new(alloc);
    for word in words_of(alloc, bytes, b' ')?.iter() {
        numbers.push(number_of(word.items()))?;
    }
    for number in Numbers::of(numbers).items() {
        put_number(alloc, out, *number as u64)?;
        out.push(b' ')?;
    }
    Ok(())
}

fn marks_of(marks: &[u8]) -> [bool; 4] {
    [
        marks.contains(&b'-'),
        marks.contains(&b'.'),
        marks.contains(&b'_'),
        marks.contains(&b':'),
    ]
}

// Under these marks, which begin names and which go on names, or under those of a syntax.
fn names_of(marks: &[u8]) -> NameSet {
    if is(marks, "reference") {
        return NameSet::reference();
    }
    if is(marks, "implied") {
        return implied().names;
    }
    let (start, more) = split_at(marks, b' ');
    NameSet {
        start: marks_of(start),
        more: marks_of(more),
    }
}

fn tell_place(alloc: Global, at: u64, text: &[u8], out: &mut Vec<u8>) -> Result<(), Memory> {
    if at > text.len() as u64 {
        return put(out, "past the text");
    }
    let (line, column) = line_column(text, at);
    put_number(alloc, out, line)?;
    out.push(b':')?;
    put_number(alloc, out, column)
}

fn tell_reason(alloc: Global, name: &[u8], out: &mut Vec<u8>) -> Result<(), Memory> {
    if is(name, "NotBuilt") {
        return put(out, Reason::NotBuilt.code());
    }
    let printed = format!(in alloc; "{}", Reason::OmitUndeclared)?;
    put(out, &printed)
}

fn features_of(syntax: &Syntax) -> [(&'static str, bool); 7] {
    [
        ("OMITTAG", syntax.omittag),
        ("SHORTTAG", syntax.shorttag),
        ("SHORTREF", syntax.shortrefs),
        ("GENERAL", syntax.general_fold),
        ("ENTITY", syntax.entity_fold),
        ("APPINFO", syntax.appinfo.is_some()),
        ("NAMING", syntax.names == NameSet::reference()),
    ]
}

fn quantities_of(quantities: Quantities) -> [(&'static str, u32); 9] {
    [
        ("ATTCNT", quantities.attcnt),
        ("ENTLVL", quantities.entlvl),
        ("GRPCNT", quantities.grpcnt),
        ("GRPGTCNT", quantities.grpgtcnt),
        ("GRPLVL", quantities.grplvl),
        ("LITLEN", quantities.litlen),
        ("NAMELEN", quantities.namelen),
        ("PILEN", quantities.pilen),
        ("TAGLVL", quantities.taglvl),
    ]
}

// A feature or a quantity of the implied syntax; NAMING is yes where names are those of the
// reference syntax.
fn tell_implied(alloc: Global, name: &[u8], out: &mut Vec<u8>) -> Result<(), Memory> {
    for (word, holds) in features_of(&implied()) {
        if is(name, word) {
            return put_yes(out, holds);
        }
    }
    for (word, number) in quantities_of(implied().quantities) {
        if is(name, word) {
            return put_number(alloc, out, number as u64);
        }
    }
    put(out, "what?")
}

fn tell_kept(alloc: Global, word: &[u8], bytes: &[u8], out: &mut Vec<u8>) -> Result<(), Memory> {
    if is(word, "list of names") {
        tell_names(alloc, bytes, out)
    } else if is(word, "list of numbers") {
        tell_numbers(alloc, bytes, out)
    } else if is(word, "text") || is(word, "text copied") {
        tell_text(alloc, word, bytes, out)
    } else {
        tell_name(alloc, word, bytes, out)
    }
}

pub fn tell(
    alloc: Global,
    word: &[u8],
    field: &[u8],
    bytes: &[u8],
    out: &mut Vec<u8>,
) -> Result<(), Memory> {
    if is(word, "is a name") {
        put_yes(out, is_name(bytes, names_of(field)))
    } else if is(word, "place") {
        tell_place(alloc, number_of(field) as u64, bytes, out)
    } else if is(word, "implied") {
        tell_implied(alloc, field, out)
    } else if is(word, "reason") {
        tell_reason(alloc, bytes, out)
    } else {
        tell_kept(alloc, word, bytes, out)
    }
}
