// Markup that a delimiter begins: where it ends, what it is, and the parts of a tag.
ghost use Rattle.std.specs.Prelude.{◌≤◌, length};
ghost use Rattle.sgml_markup.specs.Forms.{before};

use crate::reading::is;
use crate::settings::{begins, syntax_of};
use sgml_markup::{Form, before, end_of, judge, markup_of, tag_part};
use sgml_scan::tag_parts;
use sgml_syntax::{Syntax, implied};
use sgml_text::Memory;
use sgml_trials::{number_of, put, split_at};
use std::alloc::Global;

fn form_of(word: &[u8]) -> Form {
    let table = [
        ("start-tag", Form::StartTag),
        ("end-tag", Form::EndTag),
        ("entity", Form::EntityReference),
        ("character", Form::CharacterReference),
        ("instruction", Form::Instruction),
        ("section", Form::SectionStart),
    ];
    for (name, form) in table {
        if is(word, name) {
            return form;
        }
    }
    Form::Declaration
}

// Where it ends; its delimiter is left out.
fn tell_end(
    alloc: Global,
    syntax: &Syntax,
    form: Form,
    ended: bool,
    text: &[u8],
    out: &mut Vec<u8>,
) -> Result<(), Memory> {
    let end = end_of(syntax, form, text, ended);
    let told = format!(in alloc; "{end:?}")?;
    put(out, &told)
}

// What it is, or why it isn't.
fn tell_kind(
    alloc: Global,
    syntax: &Syntax,
    form: Form,
    text: &[u8],
    out: &mut Vec<u8>,
) -> Result<(), Memory>
    requires { before form ≤ length text.now }
{
    let kind = judge(syntax, form, text);
    let told = format!(in alloc; "{kind:?}")?;
    put(out, &told)
}

// What the text begins with.
fn tell_first(
    alloc: Global,
    syntax: &Syntax,
    form: Form,
    text: &[u8],
    out: &mut Vec<u8>,
) -> Result<(), Memory>
    requires { before form ≤ length text.now }
{
    let first = markup_of(syntax, form, text, false);
    let told = format!(in alloc; "{first:?}")?;
    put(out, &told)
}

fn tell_part(alloc: Global, number: u32, tag: &[u8], out: &mut Vec<u8>) -> Result<(), Memory> {
    let part = tag_part(&implied(), tag, number as usize);
    let told = format!(in alloc; "{part:?}")?;
    put(out, &told)
}

// A part of the tag that stands from a place up to another.
fn tell_part_there(
    alloc: Global,
    numbers: &[u8],
    text: &[u8],
    out: &mut Vec<u8>,
) -> Result<(), Memory> {
    let (number, places) = split_at(numbers, b' ');
    let (from, to) = split_at(places, b' ');
    let from = number_of(from) as usize;
    let to = number_of(to) as usize;
    if from > to || to > text.len() {
        return put(out, "past the text");
    }
    let part = tag_parts(&implied(), text, from, to, number_of(number) as usize);
    let told = format!(in alloc; "{part:?}")?;
    put(out, &told)
}

pub fn tell(
    alloc: Global,
    word: &[u8],
    field: &[u8],
    text: &[u8],
    out: &mut Vec<u8>,
) -> Result<(), Memory> {
    let (name, settings) = split_at(field, b' ');
    let form = form_of(name);
    let syntax = syntax_of(settings);
    if is(word, "part") {
        return tell_part(alloc, number_of(field), text, out);
    }
    if is(word, "part there") {
        return tell_part_there(alloc, field, text, out);
    }
    if is(word, "end") {
        return tell_end(alloc, &syntax, form, begins(settings, "END"), text, out);
    }
    if before(form) > text.len() {
        return put(out, "no delimiter");
    }
    if is(word, "kind") {
        tell_kind(alloc, &syntax, form, text, out)
    } else {
        tell_first(alloc, &syntax, form, text, out)
    }
}
