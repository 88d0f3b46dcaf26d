// The syntax of cases: the implied one with some settings.
use crate::writing::bytes_of;
use sgml_syntax::{Quantities, Syntax, implied};
use sgml_text::{Memory, Text};
use sgml_trials::{number_of, split_at};
use std::alloc::Global;

fn set_quantity(quantities: &mut Quantities, name: &[u8], number: u32) {
    match name {
        b"ATTCNT" => quantities.attcnt = number,
        b"ENTLVL" => quantities.entlvl = number,
        b"LITLEN" => quantities.litlen = number,
        b"NAMELEN" => quantities.namelen = number,
        _ => {}
    }
}

fn set_feature(syntax: &mut Syntax, name: &[u8], yes: bool) {
    match name {
        b"SHORTTAG" => syntax.shorttag = yes,
        b"GENERAL" => syntax.general_fold = yes,
        b"ENTITY" => syntax.entity_fold = yes,
        _ => {}
    }
}

fn set(alloc: Global, syntax: &mut Syntax, setting: &[u8]) -> Result<(), Memory> {
    let (name, value) = split_at(setting, b'=');
    match name {
        b"APPINFO" => syntax.appinfo = Some(Text::of(bytes_of(alloc, value)?)),
        _ => {
            set_quantity(&mut syntax.quantities, name, number_of(value));
            set_feature(syntax, name, value == b"YES".as_slice());
        }
    }
    Ok(())
}

/// The implied syntax with these settings, which stand between blanks.
pub fn syntax_of(alloc: Global, settings: &[u8]) -> Result<Syntax, Memory> {
    let mut syntax = implied();
    for setting in settings.split(|b| *b == b' ') {
        set(alloc, &mut syntax, setting)?;
    }
    Ok(syntax)
}
