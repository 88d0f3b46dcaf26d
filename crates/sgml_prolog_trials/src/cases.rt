// The cases of a file, a line each; its parts stand between TABs. A line that begins with a blank or is empty is a
// heading. `\n`, `\r`, `\t` and `\\` in a part stand for the characters that a line can't have.
//
// `file NAME TEXT` stores a file, `catalog TEXT` is the catalog in the file `cat`, `expand NUMBER` bounds the sum of
// opened lengths, `none` forgets all of these. `read TEXT` reads the prolog of a document, whose file is `f`: once whole
// and once byte by byte, and tells what was answered; `judge TEXT` tells the last answer alone. `whole TEXT`
// reads it once, to be measured.
use crate::reading::{Given, tell_prolog};
use sgml_catalog::{Catalog, read_catalog};
use sgml_text::{Memory, Text};
use sgml_trials::{Trial, number_of, put, put_meant, split_at};
use std::alloc::Global;

/// A file of the store.
#[derive(Drop)]
pub struct File {
    pub name: Text,
    pub text: Text,
}

/// What the cases stand on.
#[derive(Drop)]
pub struct Prologs {
    files: Vec<File>,
    catalog: Vec<u8>,
    expand: u64,
}

fn meant_by(alloc: Global, part: &[u8]) -> Result<Vec<u8>, Memory> {
    let mut text = Vec::new(alloc);
    put_meant(&mut text, part)?;
    Ok(text)
}

fn catalog_of(alloc: Global, text: &[u8]) -> Result<Box<Catalog>, Memory> {
    match read_catalog(alloc, text) {
        Ok(catalog) => Ok(Box::new(alloc, catalog)?),
        Err(_) => Err(Memory),
    }
}

impl Prologs {
    pub fn new(alloc: Global) -> Self {
        Prologs {
            files: Vec::new(alloc),
            catalog: Vec::new(alloc),
            expand: 10_000_000,
        }
    }

    fn forget(&mut self) {
        self.files.clear();
        self.catalog.clear();
        self.expand = 10_000_000;
    }

    fn store(&mut self, alloc: Global, rest: &[u8]) -> Result<(), Memory> {
        let (name, text) = split_at(rest, b'\t');
        let name = Text::of(name.to_vec(alloc)?);
        let text = Text::of(meant_by(alloc, text)?);
        self.files.push(File { name, text })?;
        Ok(())
    }

    fn tell(
        &self,
        alloc: Global,
        document: &[u8],
        piece: usize,
        brief: bool,
    ) -> Result<Vec<u8>, Memory> {
        let mut told = Vec::new(alloc);
        let given = Given {
            files: &self.files,
            document,
            piece,
            brief,
        };
        let catalog = catalog_of(alloc, &self.catalog)?;
        tell_prolog(alloc, given, catalog, self.expand, &mut told)?;
        Ok(told)
    }

    // Reads it whole and byte by byte.
    fn read(
        &self,
        alloc: Global,
        rest: &[u8],
        brief: bool,
        out: &mut Vec<u8>,
    ) -> Result<(), Memory> {
        let document = meant_by(alloc, rest)?;
        let whole = self.tell(alloc, &document, usize::MAX, brief)?;
        let cut = self.tell(alloc, &document, 1, brief)?;
        out.push(b'\t')?;
        out.extend_from_slice(&whole)?;
        put_cut(out, &whole, &cut)
    }

    fn read_whole(&self, alloc: Global, rest: &[u8], out: &mut Vec<u8>) -> Result<(), Memory> {
        let document = meant_by(alloc, rest)?;
        let whole = self.tell(alloc, &document, usize::MAX, true)?;
        out.push(b'\t')?;
        out.extend_from_slice(&whole)?;
        Ok(())
    }

    fn set_catalog(&mut self, alloc: Global, rest: &[u8]) -> Result<(), Memory> {
        self.catalog = meant_by(alloc, rest)?;
        Ok(())
    }

    // What a line asks.
    fn follow(
        &mut self,
        alloc: Global,
        asks: Asks,
        rest: &[u8],
        out: &mut Vec<u8>,
    ) -> Result<(), Memory> {
        match asks {
            Asks::Forget => {
                self.forget();
                Ok(())
            }
            Asks::Store => self.store(alloc, rest),
            Asks::Catalog => self.set_catalog(alloc, rest),
            Asks::Expand => {
                self.expand = number_of(rest) as u64;
                Ok(())
            }
            Asks::Whole => self.read_whole(alloc, rest, out),
            Asks::Read => self.read(alloc, rest, false, out),
            Asks::Judge => self.read(alloc, rest, true, out),
            Asks::Nothing => Ok(()),
        }
    }
}

// What was answered byte by byte, where that differs.
fn put_cut(out: &mut Vec<u8>, whole: &[u8], cut: &[u8]) -> Result<(), Memory> {
    if whole == cut {
        return Ok(());
    }
    put(out, " BYTE BY BYTE ")?;
    out.extend_from_slice(cut)?;
    Ok(())
}

// What a line asks.
#[derive(Clone, Copy)]
enum Asks {
    Forget,
    Store,
    Catalog,
    Expand,
    Whole,
    Read,
    Judge,
    Nothing,
}

fn asks_by(word: &[u8]) -> Asks {
    match word {
        b"none" => Asks::Forget,
        b"file" => Asks::Store,
        b"catalog" => Asks::Catalog,
        b"expand" => Asks::Expand,
        b"whole" => Asks::Whole,
        b"read" => Asks::Read,
        b"judge" => Asks::Judge,
        _ => Asks::Nothing,
    }
}

impl Trial for Prologs {
    // The line and its answer, or the line alone where it asks nothing.
    fn answer(
        &mut self,
        rt: &HostRuntime,
        file: &str,
        line: &[u8],
        out: &mut Vec<u8>,
    ) -> Result<(), Memory> {
        let (word, rest) = split_at(line, b'\t');
        if word.is_empty() {
            return Ok(());
        }
        let asks = asks_by(word);
        out.extend_from_slice(line)?;
        self.follow(rt.alloc(), asks, rest, out)?;
        out.push(b'\n')?;
        Ok(())
    }
}
