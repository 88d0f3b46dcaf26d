// The cases of a file, a line each: a word, what it is asked about, and the text, with a TAB between
// them. In a text `\` and two digits of base 16 are a byte. A line that begins with a blank or is
// empty is a heading.
//
// The file's name says what its words are about.
use crate::reading::{bytes_of, is};
use crate::{delims, markup, names, records, sections, texts, tokens, units};
use sgml_text::Memory;
use sgml_trials::{Trial, split_at};
use std::alloc::Global;

fn answer(
    alloc: Global,
    file: &[u8],
    word: &[u8],
    field: &[u8],
    text: &[u8],
    out: &mut Vec<u8>,
) -> Result<(), Memory> {
    if is(file, "texts") {
        texts::tell(alloc, word, field, text, out)
    } else if is(file, "units") {
        units::tell(alloc, word, field, text, out)
    } else if is(file, "names") {
        names::tell(alloc, word, text, out)
    } else if is(file, "sections") {
        sections::tell(alloc, word, text, out)
    } else if is(file, "records") {
        records::tell(alloc, text, out)
    } else if is(file, "delimiters") {
        delims::tell(alloc, word, field, text, out)
    } else if is(file, "markup") {
        markup::tell(alloc, word, field, text, out)
    } else {
        tokens::tell(alloc, word, field, text, out)
    }
}

/// The trial of all files.
#[derive(Clone, Copy)]
pub struct Tokens;

impl Trial for Tokens {
    // A line, and the answer to it.
    fn answer(
        &mut self,
        rt: &HostRuntime,
        file: &str,
        line: &[u8],
        out: &mut Vec<u8>,
    ) -> Result<(), Memory> {
        let (word, rest) = split_at(line, b'\t');
        let (field, spelled) = split_at(rest, b'\t');
        out.extend_from_slice(line)?;
        if !word.is_empty() && !word.starts_with(b" ") {
            out.push(b'\t')?;
            let text = bytes_of(rt.alloc(), spelled)?;
            answer(rt.alloc(), file.as_bytes(), word, field, &text, out)?;
        }
        out.push(b'\n')?;
        Ok(())
    }
}
