// The reader of the instance of a document.
ghost use Rattle.std.specs.Prelude.{◌≡◌, IfOk, IfSome, Err, true};
ghost use Rattle.sgml_declared.specs.theory_reading.Reads.{top_place};
ghost use Rattle.sgml_declared.specs.theory_standing.Prologs.{is_over};
ghost use Rattle.sgml_prolog_steps.specs.Standing.{IsKept};
ghost use Rattle.sgml_content_tags.specs.sgml_content_steps.Standing.{IsInInstance};
ghost use Rattle.sgml_instance.specs.Reading.{BeginsAfterProlog, NextIsReading, error_in};
ghost use Rattle.sgml_instance.specs.Batches.{ReadsOn, error_of};

use crate::answer::{InstanceError, InstancePause, InstanceStep};
use crate::batches::read_many;
use crate::beginning::content_of;
use crate::reading::answer;
use sgml_content_tags::content_steps::{Content, place_of};
use sgml_declared::Options;
use sgml_dtd::Dtd;
use sgml_entity::Texts;
use sgml_events::Event;
use sgml_prolog_steps::Kept;
use sgml_steps::Steps;
use sgml_syntax::Syntax;
use sgml_text::{Memory, Place};
use std::alloc::Global;
use std::marker::Model;
use std::sync::Arc;
use std::sync::ledger::Ledger;

/// A reader of the instance of one document. Each call of `next` is given the texts that there are so far:
/// since the last one they have gained only text of the document and texts that were wanted.
#[derive(Drop)]
pub struct Instance {
    alloc: Global,
    options: Arc<Options>,
    content: Content,
    // Events that were read and aren't told yet: the next one is the last.
    waiting: Vec<Event>,
    // The document has ended.
    over: bool,
    failed: Option<InstanceError>,
}

impl Model for Instance {
    ghost use Rattle.std.specs.Prelude.{reverse};
    ghost use Rattle.sgml_instance.specs.Reading.{Reader, IsSound};

    ghost Value = { Reader };

    ghost view = { λ a. record { options = a.options.value; content = a.content; waiting = reverse a.waiting.items; over = a.over; failed = a.failed } };

    ghost invariant = { λ a. IsSound a.options.value a.content };
}

impl Instance {
    /// A reader where the prolog has been read, with all that was kept of it.
    pub fn begin(alloc: Global, options: Arc<Options>, kept: Kept) -> Result<Instance, Memory>
        requires kept { IsKept kept }
        requires over { is_over kept ≡ true }
        requires expand { kept.stack.expand ≡ options.value.expand }
        ensures begins { IfOk result (λ r. BeginsAfterProlog kept r) }
        ensures options { IfOk result (λ r. r.options ≡ options.value) }
        ensures kept { IfOk result (λ r. r.content.kept ≡ kept) }
    {
        let content = content_of(alloc, kept)?;
        Ok(Instance {
            alloc,
            options,
            content,
            waiting: Vec::new(alloc),
            over: false,
            failed: None,
        })
    }

    /// Reads on up to what is told next. `texts` has the document's text so far as entity 0, and the texts
    /// that were wanted; `ended` tells whether the document's is whole. After an error each call answers it
    /// again, and after the end each answers that.
    pub fn next<L: Ledger>(
        &mut self,
        texts: &Texts,
        ended: bool,
        steps: &mut Steps<L>,
    ) -> Result<InstanceStep, InstanceError>
        ensures reads { NextIsReading self.old self.new texts.now ended result }
        ensures options { self.new.options ≡ self.old.options }
        ensures doctype { self.new.content.kept.doctype ≡ self.old.content.kept.doctype }
        ensures failed { self.new.failed ≡ error_in result }
        ensures repeats { IfSome self.old.failed (λ e. (result ≡ Err e) × (self.new ≡ self.old)) }
    {
        if let Some(error) = self.failed {
            return Err(error);
        }
        let answer = answer(
            &self.options,
            self.alloc,
            &mut self.content,
            &mut self.waiting,
            &mut self.over,
            texts,
            ended,
            steps,
        );
        self.failed = error_in(&answer);
        answer
    }

    /// Reads on as `next` does, and appends the events that it tells, up to where so many stand there that they are to be
    /// taken, or something else is told. The events before an error stand there too.
    pub fn read<L: Ledger>(
        &mut self,
        texts: &Texts,
        ended: bool,
        steps: &mut Steps<L>,
        told: &mut Vec<Event>,
    ) -> Result<InstancePause, InstanceError>
        ensures reads { ReadsOn self.old self.new texts.now ended told.old.items told.new.items result }
        ensures options { self.new.options ≡ self.old.options }
        ensures doctype { self.new.content.kept.doctype ≡ self.old.content.kept.doctype }
        ensures failed { self.new.failed ≡ error_of result }
        ensures repeats { IfSome self.old.failed (λ e. (result ≡ Err e) × (self.new ≡ self.old) × (told.new.items ≡ told.old.items)) }
    {
        if let Some(error) = self.failed {
            return Err(error);
        }
        let answer = read_many(
            &self.options,
            self.alloc,
            &mut self.content,
            &mut self.waiting,
            &mut self.over,
            texts,
            ended,
            steps,
            told,
        );
        self.failed = error_of(&answer);
        answer
    }

    /// The place of the first piece that wasn't read.
    pub fn place(&self) -> Place
        ensures { result ≡ top_place self.now.content.kept.stack.places }
    {
        place_of(&self.content)
    }

    /// All that was kept of the prolog, as it is now.
    pub fn kept(&self) -> &Kept
        ensures kept { result.now ≡ self.now.content.kept }
        ensures sound { IsInInstance result.now }
    {
        &self.content.kept
    }

    /// The tables of the document type.
    pub fn dtd(&self) -> &Dtd
        ensures { result.now ≡ self.now.content.kept.doctype }
    {
        &self.content.kept.dtd
    }

    /// The syntax in force.
    pub fn syntax(&self) -> &Syntax
        ensures { result.now ≡ self.now.content.kept.doctype.syntax }
    {
        self.content.kept.dtd.syntax()
    }
}

/// Why nothing more is read after this answer.
fn error_in(answer: &Result<InstanceStep, InstanceError>) -> Option<InstanceError>
    ensures { result ≡ error_in answer.now }
{
    match answer {
        Ok(_) => None,
        Err(error) => Some(*error),
    }
}

/// Why nothing more is read after this answer of many events.
fn error_of(answer: &Result<InstancePause, InstanceError>) -> Option<InstanceError>
    ensures { result ≡ error_of answer.now }
{
    match answer {
        Ok(_) => None,
        Err(error) => Some(*error),
    }
}
