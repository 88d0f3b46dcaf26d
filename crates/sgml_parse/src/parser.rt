// The parser of one document.
ghost use Rattle.std.specs.Prelude.{◌≡◌, ◌∷◌, [], IfOk, OnOk, OnErr, IfSome, Some, None, Err, true, false, length};
ghost use Rattle.sgml_parse.specs.Parsing.{NextIsParsing, HasTheSame, GoesOver, TellsInstructions, KeepsDoctype, IsWantedBy, WantsUnsupplied, IsRefusedIfGone, error_in, is_in_instance, is_out_of_memory, place_in, doctype_in, IsPositionBy};
ghost use Rattle.sgml_parse.specs.Held.{held_in, IsHeld};
ghost use Rattle.sgml_parse.specs.Batches.{ReadsOn, GoesOverThen, IsWantedThen, WantsUnsuppliedThen, IsRefusedThenIfGone, error_of};
ghost use Rattle.sgml_parse.specs.Wanting.{IsFirstUnsupplied};
ghost use Rattle.sgml_io.specs.Pieces.{HasMade};
ghost use Rattle.sgml_parse.specs.Calls.{BeginsParsing, Feeds, Ends, Supplies, IsRepeated, failed_by, repeated, ended_after, supplied_after};

use crate::answer::{ParseError, ParsePause, ParseStep, Supply, Wanted};
use crate::going::{read_many, read_on, share};
use crate::held::held;
use crate::locating::locate;
use crate::missing::Missing;
use crate::noting::{error_in, error_of, tell, tell_pause};
use crate::position::Position;
use crate::reading::Reading;
use crate::supplying::{append_document, gone_after, supply_text};
use crate::wanting::first_unsupplied;
use sgml_declared::Options;
use sgml_dtd::Dtd;
use sgml_entity::Texts;
use sgml_events::Event;
use sgml_io::RecordReader;
use sgml_prolog::Prolog;
use sgml_steps::Steps;
use sgml_syntax::Syntax;
use sgml_text::{Memory, Place, Reason, Refusal};
use std::alloc::Global;
use std::marker::Model;
use std::sync::Arc;
use std::sync::ledger::Ledger;

/// A parser of one document. It is fed the storage bytes of the document in pieces of any lengths, is given the
/// texts that it wants, and tells what was read from step to step.
#[derive(Drop)]
pub struct Parser {
    alloc: Global,
    options: Arc<Options>,
    texts: Texts,
    records: RecordReader,
    ended: bool,
    reading: Reading,
    wanted: Option<Wanted>,
    gone: Option<Reason>,
    missing: Missing,
    failed: Option<ParseError>,
}

impl Model for Parser {
    ghost use Rattle.sgml_parse.specs.There.{reading_of};
    ghost use Rattle.sgml_parse.specs.Parsing.{Parser, IsSound};

    ghost Value = { Parser };

    ghost view = { λ a. record { options = a.options.value; texts = a.texts; records = a.records; ended = a.ended; reading = reading_of a.reading; wanted = a.wanted; gone = a.gone; missing = a.missing; failed = a.failed } };

    ghost invariant = { λ a. IsSound a.options.value (reading_of a.reading) a.failed };
}

impl Parser {
    /// A parser before the first byte. `declaration` is the syntax of the SGML declaration that a catalog names,
    /// where it names one (TR9401); a document has another where it begins with one.
    pub fn begin(
        alloc: Global,
        options: Arc<Options>,
        declaration: Option<Syntax>,
    ) -> Result<Parser, Memory>
        ensures begins { IfOk result (λ p. BeginsParsing declaration options.value p) }
        ensures options { IfOk result (λ p. p.options ≡ options.value) }
        ensures records { IfOk result (λ p. HasMade p.records [] []) }
        ensures going_on { IfOk result (λ p. p.ended ≡ false) }
        ensures wanted { IfOk result (λ p. p.wanted ≡ None) }
        ensures failed { IfOk result (λ p. p.failed ≡ None) }
    {
        let texts = texts_at_start(alloc)?;
        let shared = share(&options)?;
        let prolog = Box::new(alloc, Prolog::begin(alloc, shared, declaration)?)?;
        Ok(Parser {
            alloc,
            options,
            texts,
            records: RecordReader::new(),
            ended: false,
            reading: Reading::Prolog(prolog),
            wanted: None,
            gone: None,
            missing: Missing::new(alloc),
            failed: None,
        })
    }

    /// The document goes on with these storage bytes.
    pub fn feed(&mut self, bytes: &[u8]) -> Result<(), ParseError>
        requires going_on { self.old.ended ≡ false }
        ensures fed { OnOk result (Feeds self.old self.new bytes.now) }
        ensures well { OnOk result (self.old.failed ≡ None) }
        ensures err { OnErr result (self.new ≡ record self.old { failed = failed_by result }) }
        ensures repeats { IfSome self.old.failed (λ e. result ≡ Err e) }
        ensures refused { IsRepeated self.old.failed result }
    {
        if let Some(error) = self.failed {
            return Err(error);
        }
        match append_document(self.alloc, &mut self.records, &mut self.texts, bytes) {
            Ok(()) => Ok(()),
            Err(_) => Err(self.lack()),
        }
    }

    /// The document is whole.
    pub fn end(&mut self) -> Result<(), ParseError>
        requires going_on { self.old.ended ≡ false }
        ensures ends { OnOk result (Ends self.old self.new) }
        ensures after { OnOk result (self.new ≡ ended_after self.old) }
        ensures repeats { result ≡ repeated self.old.failed }
        ensures err { OnErr result (self.new ≡ self.old) }
    {
        if let Some(error) = self.failed {
            return Err(error);
        }
        self.ended = true;
        Ok(())
    }

    /// The store has this under the name of this entity's file, that was told as wanted last, or that `wanted` told. What was
    /// wanted last and isn't there is refused by the next call, and another where it is opened.
    pub fn supply(&mut self, entity: u32, given: Supply) -> Result<(), ParseError>
        ensures supplies { OnOk result (Supplies self.old self.new entity given) }
        ensures after { OnOk result (self.new ≡ supplied_after entity given self.old) }
        ensures well { OnOk result (self.old.failed ≡ None) }
        ensures err { OnErr result (self.new ≡ record self.old { failed = failed_by result }) }
        ensures repeats { IfSome self.old.failed (λ e. result ≡ Err e) }
        ensures refused { IsRepeated self.old.failed result }
    {
        if let Some(error) = self.failed {
            return Err(error);
        }
        let supplied = supply_text(
            self.alloc,
            &mut self.texts,
            &mut self.missing,
            entity,
            given,
        );
        match supplied {
            Ok(why) => {
                self.gone = gone_after(entity, why, &self.wanted, self.gone);
                self.wanted = None;
                Ok(())
            }
            Err(_) => Err(self.lack()),
        }
    }

    /// The first declared entity, by its number, whose text is in a file of its own and wasn't supplied, with the name of that file
    /// in the store.
    pub fn wanted(&self) -> Result<Option<Wanted>, Memory>
        requires prolog { is_in_instance self.now.reading ≡ true }
        ensures { IfOk result (IsFirstUnsupplied 0 self.now) }
    {
        self.wanted_from(0)
    }

    /// The first of those from this number on.
    pub fn wanted_from(&self, from: u32) -> Result<Option<Wanted>, Memory>
        requires prolog { is_in_instance self.now.reading ≡ true }
        ensures { IfOk result (IsFirstUnsupplied from self.now) }
    {
        first_unsupplied(
            self.alloc,
            &self.options,
            self.reading.kept(),
            &self.texts,
            &self.missing,
            from,
        )
    }

    /// Reads on up to what is told next. After `Finished` it is told again, and so is what is wanted as long as it
    /// isn't given.
    pub fn next<L: Ledger>(&mut self, steps: &mut Steps<L>) -> Result<ParseStep, ParseError>
        ensures reads { NextIsParsing self.old self.new result }
        ensures same { HasTheSame self.old self.new }
        ensures over { GoesOver self.old.reading self.new.reading result }
        ensures early { TellsInstructions self.old.reading result }
        ensures doctype { KeepsDoctype self.old.reading self.new.reading }
        ensures wanted { IsWantedBy result self.new.wanted }
        ensures unsupplied { WantsUnsupplied self.old.missing result }
        ensures gone { IsRefusedIfGone self.old result }
        ensures failed { self.new.failed ≡ error_in result }
        ensures repeats { IfSome self.old.failed (λ e. (result ≡ Err e) × (self.new ≡ self.old)) }
    {
        if let Some(error) = self.failed {
            return Err(error);
        }
        if let Some(reason) = self.gone {
            return Err(self.refuse(reason));
        }
        let answer = read_on(
            self.alloc,
            &self.options,
            &mut self.reading,
            &self.texts,
            self.ended,
            steps,
        );
        let told = tell(
            self.alloc,
            answer,
            &mut self.wanted,
            &self.missing,
            &self.reading,
        );
        self.failed = error_in(&told);
        told
    }

    /// Reads on as `next` does, and appends the events that it tells, up to where they are to be taken or something else is
    /// told. The events before an error stand there too.
    pub fn read<L: Ledger>(
        &mut self,
        steps: &mut Steps<L>,
        told: &mut Vec<Event>,
    ) -> Result<ParsePause, ParseError>
        ensures reads { ReadsOn self.old self.new told.old.items told.new.items result }
        ensures same { HasTheSame self.old self.new }
        ensures over { GoesOverThen self.old.reading self.new.reading result }
        ensures doctype { KeepsDoctype self.old.reading self.new.reading }
        ensures wanted { IsWantedThen result self.new.wanted }
        ensures unsupplied { WantsUnsuppliedThen self.old.missing result }
        ensures gone { IsRefusedThenIfGone self.old result }
        ensures failed { self.new.failed ≡ error_of result }
        ensures repeats { IfSome self.old.failed (λ e. (result ≡ Err e) × (self.new ≡ self.old) × (told.new.items ≡ told.old.items)) }
    {
        if let Some(error) = self.failed {
            return Err(error);
        }
        if let Some(reason) = self.gone {
            return Err(self.refuse(reason));
        }
        let ended = self.ended;
        let answer = read_many(
            self.alloc,
            &self.options,
            &mut self.reading,
            &self.texts,
            ended,
            steps,
            told,
        );
        let pause = tell_pause(
            self.alloc,
            answer,
            &mut self.wanted,
            &self.missing,
            &self.reading,
        );
        self.failed = error_of(&pause);
        pause
    }

    /// The place of the first piece that wasn't read.
    pub fn place(&self) -> Place
        requires { is_out_of_memory self.now.failed ≡ false }
        ensures { result ≡ place_in self.now.reading }
    {
        self.reading.place()
    }

    /// How many bytes of the document's text were given and aren't read.
    pub fn held(&self) -> u64
        requires { is_out_of_memory self.now.failed ≡ false }
        ensures held { result ≡ length (held_in self.now.reading self.now.texts) }
        ensures unread { IsHeld self.now result }
    {
        held(self.reading.kept(), &self.texts)
    }

    /// Where a place is in the texts that were given so far. `None`: its text wasn't given, or not up to there.
    pub fn locate(&self, alloc: Global, place: Place) -> Result<Option<Position>, Memory>
        requires { is_out_of_memory self.now.failed ≡ false }
        ensures located { IfOk result (λ found. IfSome found (IsPositionBy self.now place)) }
    {
        locate(
            alloc,
            &self.options,
            self.reading.kept(),
            &self.texts,
            place,
        )
    }

    /// The tables of the document type so far.
    pub fn dtd(&self) -> &Dtd
        requires { is_out_of_memory self.now.failed ≡ false }
        ensures { result.now ≡ doctype_in self.now.reading }
    {
        self.reading.dtd()
    }

    /// The syntax in force.
    pub fn syntax(&self) -> &Syntax
        requires { is_out_of_memory self.now.failed ≡ false }
        ensures { result.now ≡ (doctype_in self.now.reading).syntax }
    {
        self.reading.dtd().syntax()
    }

    /// No memory was there.
    fn lack(&mut self) -> ParseError
        ensures result { result ≡ ParseError.Memory }
        ensures after { self.new ≡ record self.old { failed = Some ParseError.Memory } }
    {
        self.failed = Some(ParseError::Memory);
        ParseError::Memory
    }

    /// The text that was wanted isn't there for this reason.
    fn refuse(&mut self, reason: Reason) -> ParseError
        requires { self.old.failed ≡ None }
        ensures result { result ≡ ParseError.Refused (record { place = place_in self.old.reading; reason = reason }) }
        ensures after { self.new ≡ record self.old { failed = Some result } }
    {
        let place = self.reading.place();
        let error = ParseError::Refused(Refusal { place, reason });
        self.failed = Some(error);
        error
    }
}

/// The text of the document before the first byte.
fn texts_at_start(alloc: Global) -> Result<Texts, Memory>
    ensures { IfOk result (λ texts. texts ≡ (0, []) ∷ []) }
{
    let mut texts = Texts::new(alloc);
    texts.append(0, &[])?;
    Ok(texts)
}
