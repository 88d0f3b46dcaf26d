// What is told of an SGML declaration.
use sgml_sgmldecl::{DeclError, Feature, read_sgml_declaration};
use sgml_syntax::{Quantities, Syntax};
use sgml_text::{Memory, NameSet};
use sgml_trials::{put, put_counted, put_number};
use std::alloc::Global;

fn feature_word(which: Feature) -> &'static str {
    match which {
        Feature::Datatag => "DATATAG ",
        Feature::Rank => "RANK ",
        Feature::Link => "LINK ",
        Feature::Concur => "CONCUR ",
        Feature::Subdoc => "SUBDOC ",
        Feature::Other => "other ",
    }
}

fn tell_error(alloc: Global, error: DeclError, out: &mut Vec<u8>) -> Result<(), Memory> {
    match error {
        DeclError::BadDeclaration { at } => put_counted(alloc, out, "bad ", at),
        DeclError::FeatureOut { which, at } => put_counted(alloc, out, feature_word(which), at),
        DeclError::QuantityOut { number, at, .. } => {
            put_counted(alloc, out, "quantity ", number)?;
            put_counted(alloc, out, " at ", at)
        }
        DeclError::Memory => put(out, "no memory"),
    }
}

fn put_marks(out: &mut Vec<u8>, word: &str, marks: [bool; 4]) -> Result<(), Memory> {
    put(out, word)?;
    let [hyphen, period, low_line, colon] = marks;
    for (is_there, mark) in [
        (hyphen, b'-'),
        (period, b'.'),
        (low_line, b'_'),
        (colon, b':'),
    ] {
        if is_there {
            out.push(mark)?;
        }
    }
    Ok(())
}

fn put_names(out: &mut Vec<u8>, names: NameSet) -> Result<(), Memory> {
    put_marks(out, " start ", names.start)?;
    put_marks(out, " more ", names.more)
}

fn put_quantities(alloc: Global, out: &mut Vec<u8>, counted: Quantities) -> Result<(), Memory> {
    for number in [
        counted.attcnt,
        counted.entlvl,
        counted.grpcnt,
        counted.grpgtcnt,
        counted.grplvl,
        counted.litlen,
        counted.namelen,
        counted.pilen,
        counted.taglvl,
    ] {
        put_counted(alloc, out, " ", number as u64)?;
    }
    Ok(())
}

// The features and the cases that are on.
fn put_features(out: &mut Vec<u8>, syntax: &Syntax) -> Result<(), Memory> {
    for (is_on, word) in [
        (syntax.omittag, " OMITTAG"),
        (syntax.shorttag, " SHORTTAG"),
        (syntax.shortrefs, " SHORTREF"),
        (syntax.general_fold, " GENERAL"),
        (syntax.entity_fold, " ENTITY"),
    ] {
        if is_on {
            put(out, word)?;
        }
    }
    Ok(())
}

fn put_appinfo(out: &mut Vec<u8>, syntax: &Syntax) -> Result<(), Memory> {
    if let Some(text) = &syntax.appinfo {
        put(out, " appinfo ")?;
        out.extend_from_slice(text.items())?;
    }
    Ok(())
}

/// How many bytes a declaration has, or why it is refused.
pub fn tell_length(alloc: Global, text: &[u8], out: &mut Vec<u8>) -> Result<(), Memory> {
    match read_sgml_declaration(alloc, text) {
        Ok((_, used)) => put_counted(alloc, out, "read ", used as u64),
        Err(error) => tell_error(alloc, error, out),
    }
}

/// What the syntax of a declaration is: features and cases that are on, marks in names, quantities, application.
pub fn tell_syntax(alloc: Global, text: &[u8], out: &mut Vec<u8>) -> Result<(), Memory> {
    match read_sgml_declaration(alloc, text) {
        Ok((syntax, used)) => {
            put_number(alloc, out, used as u64)?;
            put_features(out, &syntax)?;
            put_names(out, syntax.names)?;
            put_quantities(alloc, out, syntax.quantities)?;
            put_appinfo(out, &syntax)
        }
        Err(error) => tell_error(alloc, error, out),
    }
}

/// The answers to all fronts of a text that are shorter than it, each place behind a blank.
pub fn tell_fronts(alloc: Global, text: &[u8], out: &mut Vec<u8>) -> Result<(), Memory> {
    for length in 0..text.len() {
        tell_length(alloc, &text[..length], out)?;
        out.push(b' ')?;
    }
    Ok(())
}

/// The answers to a text with each of its bytes replaced by `!` in turn.
pub fn tell_replaced(alloc: Global, text: &[u8], out: &mut Vec<u8>) -> Result<(), Memory> {
    for at in 0..text.len() {
        let mut replaced = text.to_vec(alloc)?;
        if at < replaced.len() {
            replaced[at] = b'!';
        }
        tell_length(alloc, &replaced, out)?;
        out.push(b' ')?;
    }
    Ok(())
}
