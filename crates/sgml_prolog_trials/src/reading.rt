// A prolog, read with the files of a store.
ghost use Rattle.std.specs.Prelude.{◌≡◌, ◌<◌};

use crate::cases::File;
use crate::telling::{Asked, tell_instruction, tell_place, tell_types, tell_want};
use sgml_catalog::Catalog;
use sgml_declared::Options;
use sgml_entity::Texts;
use sgml_io::to_records;
use sgml_prolog::{Prolog, PrologError, PrologStep};
use sgml_sgmldecl::read_sgml_declaration;
use sgml_steps::Steps;
use sgml_syntax::Syntax;
use sgml_text::{Memory, Place, Refusal, Text, is_separator};
use sgml_trials::put;
use std::alloc::Global;
use std::marker::Brand;
use std::sync::Arc;
use std::sync::ledger::{Blank, Ledger};

/// What a prolog is read with.
#[derive(Clone, Copy)]
pub struct Given<'a> {
    pub files: &'a [File],
    pub document: &'a [u8],
    /// How many bytes are given at a time.
    pub piece: usize,
    /// Only what it comes to is told.
    pub brief: bool,
}

// What is being read.
#[derive(Drop)]
struct Reading {
    prolog: Box<Prolog>,
    texts: Box<Texts>,
    asked: Vec<Asked>,
    ended: bool,
}

// More turns than any case takes.
const TURNS: u32 = 100_000;

// The text of the file of this name.
fn text_in(alloc: Global, files: &[File], name: &[u8]) -> Result<Option<Vec<u8>>, Memory> {
    for file in files {
        if file.name.items() == name {
            return Ok(Some(to_records(alloc, file.text.items())?));
        }
    }
    Ok(None)
}

fn without_separators(text: &[u8]) -> &[u8] {
    match text.iter().position(|b| !is_separator(*b)) {
        Some(first) => &text[first..],
        None => &[],
    }
}

// The syntax that this declares.
fn declared(alloc: Global, text: &[u8]) -> Option<Syntax> {
    match read_sgml_declaration(alloc, without_separators(text)) {
        Ok((syntax, _)) => Some(syntax),
        Err(_) => None,
    }
}

// The syntax of the SGML declaration that the catalog names.
fn syntax_in(alloc: Global, files: &[File], catalog: &Catalog) -> Result<Option<Syntax>, Memory> {
    match catalog.sgmldecl() {
        Some(name) => syntax_of(alloc, files, name.items()),
        None => Ok(None),
    }
}

// That of the file of this name.
fn syntax_of(alloc: Global, files: &[File], name: &[u8]) -> Result<Option<Syntax>, Memory> {
    match text_in(alloc, files, name)? {
        Some(text) => Ok(declared(alloc, &text)),
        None => Ok(None),
    }
}

impl Reading {
    fn tell_here(&self, alloc: Global, place: Place, out: &mut Vec<u8>) -> Result<(), Memory> {
        tell_place(
            alloc,
            out,
            self.prolog.dtd(),
            &self.texts,
            &self.asked,
            place,
        )
    }

    // Gives the text that is wanted, or tells that it isn't there.
    fn give(
        &mut self,
        alloc: Global,
        given: Given,
        entity: u32,
        file: Text,
        out: &mut Vec<u8>,
    ) -> Result<bool, Memory> {
        if !given.brief {
            tell_want(alloc, out, entity, &file)?;
        }
        match text_in(alloc, given.files, file.items())? {
            Some(text) => self.add(entity, file, &text),
            None => self.tell_absent(alloc, out),
        }
    }

    fn add(&mut self, entity: u32, file: Text, text: &[u8]) -> Result<bool, Memory> {
        self.texts.append(entity, text)?;
        self.asked.push(Asked { entity, file })?;
        Ok(true)
    }

    fn tell_absent(&self, alloc: Global, out: &mut Vec<u8>) -> Result<bool, Memory> {
        self.tell_here(alloc, self.prolog.place(), out)?;
        put(out, ":Absent")?;
        Ok(false)
    }

    fn tell_end(&self, alloc: Global, brief: bool, out: &mut Vec<u8>) -> Result<bool, Memory> {
        put(out, "done")?;
        if !brief {
            self.tell_tables(alloc, out)?;
        }
        Ok(false)
    }

    fn tell_tables(&self, alloc: Global, out: &mut Vec<u8>) -> Result<(), Memory> {
        put(out, " ")?;
        self.tell_here(alloc, self.prolog.place(), out)?;
        tell_types(alloc, out, self.prolog.dtd())
    }

    fn tell_error(
        &self,
        alloc: Global,
        error: PrologError,
        out: &mut Vec<u8>,
    ) -> Result<bool, Memory> {
        match error {
            PrologError::Refused(refusal) => self.tell_refusal(alloc, refusal, out)?,
            PrologError::Memory => put(out, "no memory")?,
        }
        Ok(false)
    }

    fn tell_refusal(
        &self,
        alloc: Global,
        refusal: Refusal,
        out: &mut Vec<u8>,
    ) -> Result<(), Memory> {
        self.tell_here(alloc, refusal.place, out)?;
        put(out, ":")?;
        put(out, refusal.reason.code())
    }

    fn next<L: Ledger>(&mut self, steps: &mut Steps<L>) -> Result<PrologStep, PrologError> {
        self.prolog.next(&self.texts, self.ended, steps)
    }

    // Gives the next piece of the document. Tells whether there may be more.
    fn feed(&mut self, left: &mut &[u8], piece: usize, out: &mut Vec<u8>) -> Result<bool, Memory> {
        if self.ended {
            put(out, "more of a whole document")?;
            return Ok(false);
        }
        let (next, rest) = left.split_at(piece.min(left.len()));
        self.texts.append(0, next)?;
        self.ended = rest.is_empty();
        *left = rest;
        Ok(true)
    }

    // What was answered. Tells whether there may be more.
    fn tell(
        &mut self,
        alloc: Global,
        given: Given,
        left: &mut &[u8],
        step: PrologStep,
        out: &mut Vec<u8>,
    ) -> Result<bool, Memory> {
        match step {
            PrologStep::Pi {
                text,
                entity,
                place,
            } => self.tell_instruction(alloc, given.brief, &text, entity, place, out),
            PrologStep::Want { entity, name } => self.give(alloc, given, entity, name, out),
            PrologStep::More => self.feed(left, given.piece, out),
            PrologStep::Done => self.tell_end(alloc, given.brief, out),
        }
    }

    fn tell_instruction(
        &self,
        alloc: Global,
        brief: bool,
        text: &Text,
        entity: Option<u32>,
        place: Place,
        out: &mut Vec<u8>,
    ) -> Result<bool, Memory> {
        if !brief {
            self.tell_here(alloc, place, out)?;
            tell_instruction(alloc, out, text, entity)?;
        }
        Ok(true)
    }

    // One step; tells whether there may be more.
    fn step<L: Ledger>(
        &mut self,
        alloc: Global,
        given: Given,
        left: &mut &[u8],
        steps: &mut Steps<L>,
        out: &mut Vec<u8>,
    ) -> Result<bool, Memory> {
        match self.next(steps) {
            Ok(step) => self.tell(alloc, given, left, step, out),
            Err(error) => self.tell_error(alloc, error, out),
        }
    }
}

fn tell_counted<L: Ledger>(
    alloc: Global,
    blank: Blank,
    given: Given,
    reading: &mut Reading,
    out: &mut Vec<u8>,
) -> Result<(), Memory>
    requires name { blank.name ≡ L.name }
    requires parts { blank.parts ≡ L.parts }
    requires some { 0 < blank.parts }
{
    let mut steps = Steps::<L>::new(blank);
    let text = to_records(alloc, given.document)?;
    let mut left = text.as_slice();
    for _ in 0..TURNS {
        if !reading.step(alloc, given, &mut left, &mut steps, out)? {
            return Ok(());
        }
    }
    put(out, "no end")
}

fn options_of(alloc: Global, catalog: Box<Catalog>, expand: u64) -> Result<Options, Memory> {
    let catalog_base = Text::of(b"cat".to_vec(alloc)?);
    let base = Text::of(b"f".to_vec(alloc)?);
    Ok(Options {
        expand,
        catalog: Box::into_inner(catalog),
        catalog_base,
        base,
    })
}

// Before anything is read.
fn reading_of(
    alloc: Global,
    options: Options,
    declaration: Option<Syntax>,
) -> Result<Reading, Memory> {
    let options = Arc::new(alloc, options)?;
    let prolog = Prolog::begin(alloc, options, declaration)?;
    let prolog = Box::new(alloc, prolog)?;
    let texts = Box::new(alloc, Texts::new(alloc))?;
    Ok(Reading {
        prolog,
        texts,
        asked: Vec::new(alloc),
        ended: false,
    })
}

/// Tells what the reader of a prolog answers.
pub fn tell_prolog(
    alloc: Global,
    given: Given,
    catalog: Box<Catalog>,
    expand: u64,
    out: &mut Vec<u8>,
) -> Result<(), Memory> {
    let declaration = syntax_in(alloc, given.files, &catalog)?;
    let options = options_of(alloc, catalog, expand)?;
    let mut reading = reading_of(alloc, options, declaration)?;
    tell_counted::<Brand>(alloc, Blank::new(1), given, &mut reading, out)
}
