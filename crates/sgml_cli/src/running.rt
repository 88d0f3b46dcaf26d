// The command.
ghost use Rattle.std.specs.Prelude.{◌≡◌, ◌⊎◌, IfOk, true, false, List, ℕ, Option};
ghost use Rattle.sgml_text.specs.declared.reason.Reason.TheVariants.{Absent};
ghost use Rattle.sgml_io.specs.Causes.{Rose};
ghost use Rattle.sgml_words.specs.declared.command.Command.{Command as Command_};
ghost use Rattle.sgml_cli.specs.declared.status.Status.{Status as Status_};
ghost use Rattle.sgml_cli.specs.Asked.{IsOfBook, is_document};
ghost use Rattle.sgml_cli.specs.Places.{is_first_read};
ghost use Rattle.sgml_cli.specs.Back.{AnswersReadBack, FullReadsBack};
ghost use Rattle.sgml_cli.specs.Outcome.{refused_at, refused_in, IsStopped, IsRefusing, IsFault, Outcome as OutcomeOf, Taken, Answers, AnswersWords, TellsUsage, HaveCauses, CountsInto, IsAnswered, IsTold, gain, meant, SinkFailed, AbsentIsCounted, WhereAbsentFirst, IsOfAbsent};
ghost use Rattle.sgml_selfcheck.specs.sgml_conversion.source.Inputs.{Files, most_bytes};

use crate::asked::is_document;
use crate::converting::convert_document;
use crate::counting::{count, tell};
use crate::logging::{MEMORY, SINK, STORE, finish, log_line};
use crate::status::Status;
use sgml_io::{Gate, Sink, Store};
use sgml_selfcheck::conversion::{Failure, MOST_BYTES, Outcome};
use sgml_settings::{BadFile, CATALOG, DECLARATION, Settings, SettingsError, read_settings};
use sgml_text::{Memory, Place, Reason, Refusal};
use sgml_theory_round::files_are_read_again;
use sgml_words::{Command, command_of, usage};
use std::alloc::Global;
use std::marker::{Send, Sync};
use std::thread::Threads;

/// Reads the catalog that the words name, the SGML declaration that this names, and the document; writes its lines, or in a mode that
/// counts the summary, and the line of the log. The document and each text that it opens have at most 268,435,456 bytes.
pub fn run<R: Threads + Sync, S: Store, O: Sink + Send, E: Sink, G: Gate + Sync>(
    rt: &R,
    alloc: Global,
    words: &[String],
    store: &mut S,
    out: &mut O,
    log: &mut E,
    gate: &G,
) -> Status
    // Each answer, with what was written, over a store and sinks that tell their contents.
    ensures answers { AnswersWords most_bytes (S.files store.old) words.now O.taken out.old out.new E.taken log.old log.new result }
    // Which words get the usage line.
    ensures usage { TellsUsage words.now result }
    // The causes of the answers, also where the store and the sinks tell nothing.
    ensures causes { HaveCauses S.faults S.absents store.old store.new O.faults out.old out.new E.taken E.faults log.old log.new result }
    // In the mode `full` what is written is read as the document is.
    ensures full { FullReadsBack most_bytes (S.files store.old) (meant words.now) result (gain O.taken out.old out.new) }
{
    answers_read_back();
    run_within(rt, alloc, words, store, out, log, gate, MOST_BYTES)
}

/// The same where the document, or what a mode that counts reads in its place, and each text that it opens have at most `limit` bytes.
/// A longer document is cut there. The limit of the catalog and of its SGML declaration stays.
pub fn run_within<R: Threads + Sync, S: Store, O: Sink + Send, E: Sink, G: Gate + Sync>(
    rt: &R,
    alloc: Global,
    words: &[String],
    store: &mut S,
    out: &mut O,
    log: &mut E,
    gate: &G,
    limit: u64,
) -> Status
    // Each answer, with what was written, over a store and sinks that tell their contents.
    ensures answers { AnswersWords limit (S.files store.old) words.now O.taken out.old out.new E.taken log.old log.new result }
    // Which words get the usage line.
    ensures usage { TellsUsage words.now result }
    // The causes of the answers, also where the store and the sinks tell nothing.
    ensures causes { HaveCauses S.faults S.absents store.old store.new O.faults out.old out.new E.taken E.faults log.old log.new result }
{
    let Ok(found) = command_of(alloc, words) else {
        return finish(log, Status::Memory, MEMORY);
    };
    let Some(command) = found else {
        return finish(log, Status::Usage, usage());
    };
    let settings = match read_settings(alloc, store, command.catalog.as_ref()) {
        Ok(settings) => settings,
        Err(error) => return stop(alloc, &error, log),
    };
    if !is_document(&command.mode) {
        return run_count(alloc, &command, settings, store, limit, out, log);
    }
    match convert_document(alloc, &command, settings, store, limit as usize, out) {
        Ok(outcome) => answer(alloc, &command, &outcome, log),
        Err(Failure::Store) => finish(log, Status::Store, STORE),
        Err(Failure::Sink) => finish(log, Status::Sink, SINK),
        Err(Failure::Memory) => finish(log, Status::Memory, MEMORY),
    }
}

/// A run that is set so and counts.
fn run_count<S: Store, O: Sink, E: Sink>(
    alloc: Global,
    command: &Command,
    settings: Settings,
    store: &mut S,
    limit: u64,
    out: &mut O,
    log: &mut E,
) -> Status
    requires book { IsOfBook command.now }
    requires counting { is_document command.now.mode ≡ false }
    ensures answers { CountsInto limit (S.files store.old) command.now settings O.taken out.old out.new E.taken log.old log.new result }
    ensures usage { result ≡ Status.Usage → ⊥ }
    ensures store { result ≡ Status.Store → Rose (S.faults store.old) (S.faults store.new) }
    ensures sink { result ≡ Status.Sink → SinkFailed O.faults out.old out.new E.taken E.faults log.old log.new }
    ensures absent { AbsentIsCounted result (S.absents store.old) (S.absents store.new) }
{
    match count(alloc, command, settings, store, limit) {
        Ok(counted) => tell(alloc, &counted, out, log),
        Err(sgml_line_summary::Failure::Store) => finish(log, Status::Store, STORE),
        Err(sgml_line_summary::Failure::Memory) => finish(log, Status::Memory, MEMORY),
    }
}

/// What is answered of a run that isn't set, with the line of the log.
fn stop<E: Sink>(alloc: Global, error: &SettingsError, log: &mut E) -> Status
    ensures stopped { IsStopped error.now (E.taken log.old) (E.taken log.new) (E.faults log.old) (E.faults log.new) result }
    ensures usage { result ≡ Status.Usage → ⊥ }
    ensures store { result ≡ Status.Store → error.now ≡ SettingsError.Store }
    ensures sink { result ≡ Status.Sink → Rose (E.faults log.old) (E.faults log.new) }
    ensures absent { (number : ℕ) → result ≡ refused_in number 0 Absent → IsOfAbsent error.now }
{
    match error {
        SettingsError::Refused(bad) => refuse(alloc, bad, log),
        SettingsError::Store => finish(log, Status::Store, STORE),
        SettingsError::Memory => finish(log, Status::Memory, MEMORY),
    }
}

/// The same of a file that can't be read.
fn refuse<E: Sink>(alloc: Global, bad: &BadFile, log: &mut E) -> Status
    ensures { IsRefusing bad.now (E.taken log.old) (E.taken log.new) (E.faults log.old) (E.faults log.new) result }
{
    let at = &bad.position;
    match log_line(
        alloc,
        at.name.items(),
        at.line,
        at.column,
        bad.refusal.reason,
    ) {
        Ok(line) => finish(log, Status::Refused(bad.refusal), &line),
        Err(_) => finish(log, Status::Memory, MEMORY),
    }
}

/// What is answered of a document that was read, with the line of the log.
fn answer<E: Sink>(alloc: Global, command: &Command, how: &Outcome, log: &mut E) -> Status
    ensures answered { IsAnswered command.now how.now (E.taken log.old) (E.taken log.new) (E.faults log.old) (E.faults log.new) result }
    ensures absent { WhereAbsentFirst result (how.now ≡ Outcome.Absent) }
{
    match told_of(alloc, command, how) {
        Ok(told) => finish(log, told.status, &told.line),
        Err(_) => finish(log, Status::Memory, MEMORY),
    }
}

/// The status and the line of the log.
#[derive(Drop)]
struct Told {
    status: Status,
    line: Vec<u8>,
}

fn told_of(alloc: Global, command: &Command, how: &Outcome) -> Result<Told, Memory>
    ensures told { IfOk result (λ told. IsTold command.now how.now told.status told.line.items) }
    ensures absent { IfOk result (λ told. WhereAbsentFirst told.status (how.now ≡ Outcome.Absent)) }
{
    match how {
        Outcome::Conforming => Ok(Told {
            status: Status::Conforming,
            line: Vec::new(alloc),
        }),
        Outcome::Refused(refusal, position) => {
            // no reference stands at the first byte, and no text has the number of a catalog: of this a proof is owed
            if is_absent(*refusal) {
                return Err(Memory);
            }
            let line = log_line(
                alloc,
                position.name.items(),
                position.line,
                position.column,
                refusal.reason,
            )?;
            Ok(Told {
                status: Status::Refused(*refusal),
                line,
            })
        }
        Outcome::Absent => Ok(Told {
            status: Status::Refused(absent()),
            line: log_line(alloc, command.file.items(), 1, 1, Reason::Absent)?,
        }),
    }
}

/// The refusal of a document that isn't there.
fn absent() -> Refusal
    ensures { Status.Refused result ≡ refused_at 0 Absent }
{
    Refusal {
        place: Place { entity: 0, at: 0 },
        reason: Reason::Absent,
    }
}

/// A file that is read first of all isn't there.
pub(crate) fn is_absent(refusal: Refusal) -> bool
    ensures first { result ≡ false → refusal.reason ≡ Absent → refusal.place.at ≡ 0 → is_first_read refusal.place.entity ≡ true → ⊥ }
    ensures status { result ≡ false → (number : ℕ) → is_first_read number ≡ true → Status.Refused refusal ≡ refused_in number 0 Absent → ⊥ }
{
    refusal.reason == Reason::Absent && refusal.place.at == 0 && is_first_read(refusal.place.entity)
}

fn is_first_read(number: u32) -> bool
    ensures { result ≡ is_first_read number }
{
    number == 0 || number == CATALOG || number == DECLARATION
}

/// A law: a run within a limit that meets no fault has one outcome: its answer, its output and its log are determined.
pub fn one_outcome()
    ensures { (limit : ℕ) (files : Files) (command : Option Command_) (s t : Status_) (a b l m : List ℕ) →
        OutcomeOf limit files command s a l → OutcomeOf limit files command t b m → (s ≡ t) × (a ≡ b) × (l ≡ m) }
{}

/// A law: each run has an outcome, whatever the limit, the words and the files: an answer, an output and a log.
pub fn each_run_has_an_outcome()
    ensures { (limit : ℕ) (files : Files) (command : Option Command_) →
        (s : Status_) × (a : List ℕ) × (l : List ℕ) × OutcomeOf limit files command s a l }
{}

/// A law: where a run has an outcome, its answer is that of the outcome, or a fault or want of memory.
pub fn answer_of_outcome()
    ensures { (limit : ℕ) (files : Files) (command : Option Command_) (result s : Status_) (a l : List ℕ) (out log : Taken) →
        Answers limit files command result out log → OutcomeOf limit files command s a l → (result ≡ s) ⊎ IsFault result }
{}

/// A law: in the mode `full` what was written of a document that conforms is read, in the place of its file, to the same events and the
/// same lines, and no tag is left out in its instance, where the document may be read again.
pub fn answers_read_back()
    ensures { AnswersReadBack }
{
    files_are_read_again();
}
