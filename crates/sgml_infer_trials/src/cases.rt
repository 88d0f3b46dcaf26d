// The cases of a file: two lines each. The first has OMITTAG, TAGLVL and a document type, the second
// the tags and characters of a document.
use crate::answers::answer;
use crate::declarations::read_all;
use sgml_dtd::Dtd;
use sgml_syntax::{Syntax, implied};
use sgml_text::Memory;
use sgml_trials::{Trial, number_of, split_at};
use std::alloc::Global;

// The syntax of a case, with its OMITTAG and TAGLVL.
fn syntax_of(omittag: &[u8], taglvl: &[u8]) -> Syntax {
    let mut syntax = implied();
    syntax.omittag = omittag == b"YES".as_slice();
    syntax.quantities.taglvl = number_of(taglvl);
    syntax
}

// The document type that a prolog declares.
fn declared(alloc: Global, syntax: &Syntax, prolog: &[u8]) -> Result<Box<Dtd>, Memory> {
    let dtd = Dtd::new(alloc, syntax)?;
    let mut dtd = Box::new(alloc, dtd)?;
    read_all(alloc, syntax, &mut dtd, prolog)?;
    Ok(dtd)
}

fn answer_case(alloc: Global, head: &[u8], words: &[u8], out: &mut Vec<u8>) -> Result<(), Memory> {
    let (omittag, rest) = split_at(head, b' ');
    let (taglvl, prolog) = split_at(rest, b' ');
    let dtd = declared(alloc, &syntax_of(omittag, taglvl), prolog)?;
    answer(alloc, &dtd, words, out)
}

/// The first line of a case, where it was read.
#[derive(Drop)]
pub struct Documents {
    pub head: Option<Vec<u8>>,
}

impl Trial for Documents {
    // The answer to a case behind its second line.
    fn answer(
        &mut self,
        rt: &HostRuntime,
        file: &str,
        line: &[u8],
        out: &mut Vec<u8>,
    ) -> Result<(), Memory> {
        match self.head.take() {
            None => self.head = Some(line.to_vec(rt.alloc())?),
            Some(first) => answer_case(rt.alloc(), &first, line, out)?,
        }
        Ok(())
    }
}
