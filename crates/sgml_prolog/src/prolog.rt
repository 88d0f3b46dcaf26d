// The reader of a prolog.
ghost use Rattle.std.specs.Prelude.{◌≡◌, ◌∷◌, [], IfOk, IfSome, Err, true, unwrap_or};
ghost use Rattle.sgml_entity.specs.Stack.{place_at, offset_of};
ghost use Rattle.sgml_declared.specs.theory_reading.Reads.{top_place};
ghost use Rattle.sgml_declared.specs.theory_standing.Prologs.{is_over};
ghost use Rattle.sgml_syntax.specs.Implied.{implied_syntax};
ghost use Rattle.sgml_prolog_steps.specs.Standing.{IsKept};
ghost use Rattle.sgml_prolog.specs.Reading.{BeginsAtStart, start_of, IsSound, NextIsReading, IsOverIfDone, asked_in, error_in};

use crate::answer::{PrologError, PrologStep};
use crate::read_prolog::ReadProlog;
use crate::reading::{place_of, read_on};
use crate::sgml_declaration::empty_type;
use sgml_declared::{Noted, Options};
use sgml_dtd::Dtd;
use sgml_entity::{InputStack, Texts};
use sgml_marked::Sections;
use sgml_prolog_steps::{Kept, Stage};
use sgml_steps::Steps;
use sgml_syntax::{Syntax, implied};
use sgml_text::{Memory, Place, Text};
use std::alloc::Global;
use std::marker::Model;
use std::sync::Arc;
use std::sync::ledger::Ledger;

/// A reader of the prolog of one document. Each call of `next` is given the texts that there are so far:
/// since the last one they have gained only text of the document and texts that were wanted.
#[derive(Drop)]
pub struct Prolog {
    alloc: Global,
    options: Arc<Options>,
    kept: Box<Kept>,
    asked: Option<Text>,
    noted: Option<Noted>,
    failed: Option<PrologError>,
}

impl Model for Prolog {
    ghost use Rattle.sgml_prolog.specs.Reading.{Reader, IsFit};

    ghost Value = { Reader };

    ghost view = { λ a. record { options = a.options.value; kept = a.kept.value; asked = a.asked; failed = a.failed } };

    ghost invariant = { λ a. IsFit a.options.value a.kept.value a.noted };
}

impl Prolog {
    /// A reader before the first byte. `declaration` is the syntax of the SGML declaration that a catalog
    /// names, where it names one (TR9401); a document has another where it begins with one.
    pub fn begin(
        alloc: Global,
        options: Arc<Options>,
        declaration: Option<Syntax>,
    ) -> Result<Prolog, Memory>
        ensures begins { IfOk result (λ p. BeginsAtStart declaration options.value p) }
        ensures options { IfOk result (λ p. p.options ≡ options.value) }
    {
        let syntax = syntax_of(declaration);
        let kept = kept_at_start(alloc, &syntax, options.expand)?;
        Ok(Prolog {
            alloc,
            options,
            kept,
            asked: None,
            noted: None,
            failed: None,
        })
    }

    /// Reads on up to what is told next. `texts` has the document's text so far as entity 0, and the texts
    /// that were wanted; `ended` tells whether the document's is whole.
    pub fn next<L: Ledger>(
        &mut self,
        texts: &Texts,
        ended: bool,
        steps: &mut Steps<L>,
    ) -> Result<PrologStep, PrologError>
        ensures reads { NextIsReading self.old self.new texts.now ended result }
        ensures over { IsOverIfDone self.new.kept result }
        ensures asked { self.new.asked ≡ asked_in result self.old.asked }
        ensures options { self.new.options ≡ self.old.options }
        ensures failed { self.new.failed ≡ error_in result }
        ensures repeats { IfSome self.old.failed (λ e. (result ≡ Err e) × (self.new ≡ self.old)) }
    {
        if let Some(error) = self.failed {
            return Err(error);
        }
        let answer = read_on(
            &self.options,
            self.alloc,
            &mut self.kept,
            texts,
            &mut self.asked,
            &mut self.noted,
            ended,
            steps,
        );
        self.failed = error_in(&answer);
        answer
    }

    /// What was read, once `Done` was answered.
    pub fn done(self) -> ReadProlog
        requires { is_over self.kept ≡ true }
        ensures dtd { result.dtd ≡ self.kept.doctype }
        ensures stack { result.stack ≡ self.kept.stack }
        ensures alone { result.stack.places ≡ place_at 0 (offset_of self.kept.stack.places) ∷ [] }
    {
        let Prolog {
            alloc: _,
            options: _,
            kept,
            asked: _,
            noted: _,
            failed: _,
        } = self;
        let Kept {
            dtd,
            stack,
            sections: _,
            stage: _,
            subset: _,
        } = Box::into_inner(kept);
        ReadProlog { dtd, stack }
    }

    /// All that was kept, once `Done` was answered: the parser reads the instance with it.
    pub fn into_kept(self) -> Kept
        requires { is_over self.kept ≡ true }
        ensures kept { result ≡ self.kept }
        ensures sound { IsSound self.options result }
    {
        let Prolog {
            alloc: _,
            options: _,
            kept,
            asked: _,
            noted: _,
            failed: _,
        } = self;
        Box::into_inner(kept)
    }

    /// The place of the first piece that wasn't read.
    pub fn place(&self) -> Place
        ensures { result ≡ top_place self.now.kept.stack.places }
    {
        place_of(&self.kept.stack)
    }

    /// All that is kept so far.
    pub fn kept(&self) -> &Kept
        ensures kept { result.now ≡ self.now.kept }
        ensures sound { IsKept result.now }
    {
        &self.kept
    }

    /// The tables so far.
    pub fn dtd(&self) -> &Dtd
        ensures { result.now ≡ self.now.kept.doctype }
    {
        &self.kept.dtd
    }

    /// The syntax in force.
    pub fn syntax(&self) -> &Syntax
        ensures { result.now ≡ self.now.kept.doctype.syntax }
    {
        self.kept.dtd.syntax()
    }
}

/// The syntax of a document without an SGML declaration of its own.
fn syntax_of(declaration: Option<Syntax>) -> Syntax
    ensures { result ≡ unwrap_or declaration implied_syntax }
{
    match declaration {
        Some(syntax) => syntax,
        None => implied(),
    }
}

/// What is kept before the first byte.
fn kept_at_start(alloc: Global, syntax: &Syntax, expand: u64) -> Result<Box<Kept>, Memory>
    ensures { IfOk result (λ kept. kept.value ≡ start_of syntax.now expand) }
{
    let dtd = empty_type(alloc, syntax)?;
    let stack = InputStack::new(alloc, syntax.quantities.entlvl, expand)?;
    let kept = Kept {
        dtd: Box::into_inner(dtd),
        stack,
        sections: Sections::new(alloc),
        stage: Stage::AtBeginning,
        subset: None,
    };
    Ok(Box::new(alloc, kept)?)
}

/// Why nothing more is read after this answer.
fn error_in(answer: &Result<PrologStep, PrologError>) -> Option<PrologError>
    ensures { result ≡ error_in answer.now }
{
    match answer {
        Ok(_) => None,
        Err(error) => Some(*error),
    }
}
