// Counting in the modes `lines` and `selfcheck`.
ghost use Rattle.std.specs.Prelude.{◌≡◌, ◌<◌, ◌≤◌, IfOk, IfSome, false};
ghost use Rattle.sgml_io.specs.Causes.{HasCause, Rose};
ghost use Rattle.sgml_selfcheck.specs.Checking.{Checks};
ghost use Rattle.sgml_words.specs.declared.mode.Mode.TheVariants.{Lines, Selfcheck};
ghost use Rattle.sgml_settings.specs.declared.setting.Settings.{Settings as Settings_};
ghost use Rattle.sgml_selfcheck.specs.sgml_conversion.source.Inputs.{Files};
ghost use Rattle.sgml_cli.specs.Asked.{IsOfBook, is_document};
ghost use Rattle.sgml_cli.specs.Counting.{Counts, count_of_lines, count_of_book, WhereAbsent, AnswersCount, WhereMissing};

use crate::asked::options_of;
use crate::counted::Counted;
use crate::logging::{MEMORY, SINK, finish, log_line};
use crate::running::is_absent;
use crate::status::Status;
use sgml_io::{Sink, Store, write_whole};
use sgml_line_summary::{Failure, Summarized, summarize};
use sgml_selfcheck::conversion::Options;
use sgml_selfcheck::{Checked, selfcheck};
use sgml_settings::Settings;
use sgml_steps::Steps;
use sgml_syntax::Syntax;
use sgml_text::Memory;
use sgml_words::{Command, Mode};
use std::alloc::Global;
use std::marker::Brand;
use std::sync::Arc;
use std::sync::ledger::{Blank, Ledger};

/// Counts what the command names, in a run that is set so, if it has at most `limit` bytes.
pub(crate) fn count<S: Store>(
    alloc: Global,
    command: &Command,
    settings: Settings,
    store: &mut S,
    limit: u64,
) -> Result<Counted, Failure>
    requires book { IsOfBook command.now }
    requires counting { is_document command.now.mode ≡ false }
    ensures counts { IfSome (S.files store.old) (λ files. IfOk result (Counts limit command.now.mode files command.now settings)) }
    ensures store { HasCause Failure.Store (S.faults store.old) (S.faults store.new) result }
    ensures absent { IfOk result (λ x. WhereAbsent x (Rose (S.absents store.old) (S.absents store.new))) }
{
    match command.mode {
        Mode::Lines => count_lines(alloc, command, store, limit),
        Mode::Selfcheck { number } => match count_book(alloc, command, settings, limit, number) {
            Ok(counted) => Ok(counted),
            Err(_) => Err(Failure::Memory),
        },
        Mode::Esis | Mode::Full | Mode::Check => unreachable!(),
    }
}

/// Counts the lines of the command's file.
fn count_lines<S: Store>(
    alloc: Global,
    command: &Command,
    store: &mut S,
    limit: u64,
) -> Result<Counted, Failure>
    ensures counts { (set : Settings_) → IfSome (S.files store.old) (λ files. IfOk result (Counts limit Lines files command.now set)) }
    ensures store { HasCause Failure.Store (S.faults store.old) (S.faults store.new) result }
    ensures absent { IfOk result (λ x. WhereMissing x (Rose (S.absents store.old) (S.absents store.new))) }
{
    let answer = match summarize(alloc, store, command.file.items(), limit) {
        Ok(answer) => answer,
        Err(failure) => return Err(failure),
    };
    match counted_lines(alloc, command, answer) {
        Ok(counted) => Ok(counted),
        Err(_) => Err(Failure::Memory),
    }
}

fn counted_lines(alloc: Global, command: &Command, answer: Summarized) -> Result<Counted, Memory>
    ensures { IfOk result (λ x. x ≡ count_of_lines command.now answer) }
{
    match answer {
        Summarized::Summary(text) => Ok(Counted::Summary(text)),
        Summarized::Refused {
            refusal,
            line,
            column,
        } => Ok(Counted::Refused {
            refusal,
            name: command.file.copy(alloc)?,
            line,
            column,
        }),
    }
}

/// Counts what is written for the book of so many chapters.
fn count_book(
    alloc: Global,
    command: &Command,
    settings: Settings,
    limit: u64,
    number: u32,
) -> Result<Counted, Memory>
    requires some { 1 ≤ number }
    requires few { number ≤ 100_000 }
    ensures counts { IfOk result (λ x. (files : Files) → Counts limit (Selfcheck number) files command.now settings x) }
    ensures absent { IfOk result (λ x. WhereAbsent x ⊥) }
{
    let Settings {
        catalog,
        catalog_base,
        declaration,
    } = settings;
    let options = options_of(alloc, command, catalog, catalog_base)?;
    let piece = (command.limits.piece as usize).max(1);
    let answer = check_counted::<Brand>(
        Blank::new(1),
        alloc,
        number,
        options,
        declaration,
        limit as usize,
        piece,
    )?;
    counted_book(answer)
}

fn check_counted<L: Ledger>(
    blank: Blank,
    alloc: Global,
    number: u32,
    options: Arc<Options>,
    declaration: Option<Syntax>,
    limit: usize,
    piece: usize,
) -> Result<Checked, Memory>
    requires name { blank.name ≡ L.name }
    requires parts { blank.parts ≡ L.parts }
    requires one { 0 < blank.parts }
    requires some { 1 ≤ number }
    requires few { number ≤ 100_000 }
    requires piece { 0 < piece }
    ensures { IfOk result (Checks limit number options.value declaration) }
{
    let mut steps = Steps::<L>::new(blank);
    selfcheck(
        alloc,
        number,
        options,
        declaration,
        limit,
        piece,
        &mut steps,
    )
}

fn counted_book(answer: Checked) -> Result<Counted, Memory>
    ensures counted { IfOk result (λ x. x ≡ count_of_book answer) }
    ensures absent { IfOk result (λ x. WhereAbsent x ⊥) }
{
    match answer {
        Checked::Summary(text) => Ok(Counted::Summary(text)),
        Checked::Refused(refusal, position) => {
            if is_absent(refusal) {
                return Err(Memory);
            }
            Ok(Counted::Refused {
                refusal,
                name: position.name,
                line: position.line,
                column: position.column,
            })
        }
    }
}

/// Writes what was counted, and the line of the log.
pub(crate) fn tell<O: Sink, E: Sink>(
    alloc: Global,
    counted: &Counted,
    out: &mut O,
    log: &mut E,
) -> Status
    ensures { AnswersCount counted.now O.taken O.faults out.old out.new E.taken E.faults log.old log.new result }
{
    match counted {
        Counted::Summary(text) => match write_whole(out, text.items()) {
            Ok(()) => finish(log, Status::Conforming, &[]),
            Err(_) => finish(log, Status::Sink, SINK),
        },
        Counted::Refused {
            refusal,
            name,
            line,
            column,
        } => match log_line(alloc, name.items(), *line, *column, refusal.reason) {
            Ok(line) => finish(log, Status::Refused(*refusal), &line),
            Err(_) => finish(log, Status::Memory, MEMORY),
        },
    }
}
