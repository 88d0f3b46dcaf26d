// Converting the document of the command.
ghost use Rattle.std.specs.Prelude.{◌≡◌, ◌<◌, Ok};
ghost use Rattle.sgml_io.specs.Causes.{HasCause, Rose};
ghost use Rattle.sgml_selfcheck.specs.sgml_conversion.Converting.{ConvertsOver};
ghost use Rattle.sgml_selfcheck.specs.sgml_conversion.Full.{ConvertsFullOver};
ghost use Rattle.sgml_cli.specs.Converting.{ConvertsFor};

use crate::asked::options_of;
use crate::nowhere::Nowhere;
use sgml_io::{Sink, Store};
use sgml_selfcheck::conversion::{Failure, Options, Outcome, convert, convert_full};
use sgml_settings::Settings;
use sgml_steps::Steps;
use sgml_syntax::Syntax;
use sgml_words::{Command, Mode};
use std::alloc::Global;
use std::marker::Brand;
use std::sync::Arc;
use std::sync::ledger::{Blank, Ledger};

/// Writes the lines of the document that the command names, in a run that is set so, or in the mode `check` none; in the mode
/// `full` the document with all its tags. It and the texts that it opens have at most `limit` bytes each.
pub(crate) fn convert_document<S: Store, O: Sink>(
    alloc: Global,
    command: &Command,
    settings: Settings,
    store: &mut S,
    limit: usize,
    out: &mut O,
) -> Result<Outcome, Failure>
    ensures converts { ConvertsFor limit (S.files store.old) command.now settings (O.taken out.old) (O.taken out.new) result }
    ensures store { HasCause Failure.Store (S.faults store.old) (S.faults store.new) result }
    ensures sink { HasCause Failure.Sink (O.faults out.old) (O.faults out.new) result }
    ensures absent { result ≡ Ok Outcome.Absent → Rose (S.absents store.old) (S.absents store.new) }
{
    let Settings {
        catalog,
        catalog_base,
        declaration,
    } = settings;
    let Ok(options) = options_of(alloc, command, catalog, catalog_base) else {
        return Err(Failure::Memory);
    };
    let piece = (command.limits.piece as usize).max(1);
    match command.mode {
        Mode::Check => convert_counted::<S, Nowhere, Brand>(
            Blank::new(1),
            alloc,
            options,
            declaration,
            store,
            limit,
            piece,
            &mut Nowhere,
        ),
        Mode::Full => full_counted::<S, O, Brand>(
            Blank::new(1),
            alloc,
            options,
            declaration,
            store,
            limit,
            piece,
            out,
        ),
        _ => convert_counted::<S, O, Brand>(
            Blank::new(1),
            alloc,
            options,
            declaration,
            store,
            limit,
            piece,
            out,
        ),
    }
}

fn convert_counted<S: Store, O: Sink, L: Ledger>(
    blank: Blank,
    alloc: Global,
    options: Arc<Options>,
    declaration: Option<Syntax>,
    store: &mut S,
    limit: usize,
    piece: usize,
    out: &mut O,
) -> Result<Outcome, Failure>
    requires name { blank.name ≡ L.name }
    requires parts { blank.parts ≡ L.parts }
    requires some { 0 < blank.parts }
    requires piece { 0 < piece }
    ensures converts { ConvertsOver limit (S.files store.old) options.value declaration (O.taken out.old) (O.taken out.new) result }
    ensures store { HasCause Failure.Store (S.faults store.old) (S.faults store.new) result }
    ensures sink { HasCause Failure.Sink (O.faults out.old) (O.faults out.new) result }
    ensures absent { result ≡ Ok Outcome.Absent → Rose (S.absents store.old) (S.absents store.new) }
{
    let mut steps = Steps::<L>::new(blank);
    convert(
        alloc,
        options,
        declaration,
        store,
        limit,
        piece,
        out,
        &mut steps,
    )
}

fn full_counted<S: Store, O: Sink, L: Ledger>(
    blank: Blank,
    alloc: Global,
    options: Arc<Options>,
    declaration: Option<Syntax>,
    store: &mut S,
    limit: usize,
    piece: usize,
    out: &mut O,
) -> Result<Outcome, Failure>
    requires name { blank.name ≡ L.name }
    requires parts { blank.parts ≡ L.parts }
    requires some { 0 < blank.parts }
    requires piece { 0 < piece }
    ensures converts { ConvertsFullOver limit (S.files store.old) options.value declaration (O.taken out.old) (O.taken out.new) result }
    ensures store { HasCause Failure.Store (S.faults store.old) (S.faults store.new) result }
    ensures sink { HasCause Failure.Sink (O.faults out.old) (O.faults out.new) result }
    ensures absent { result ≡ Ok Outcome.Absent → Rose (S.absents store.old) (S.absents store.new) }
{
    let mut steps = Steps::<L>::new(blank);
    convert_full(
        alloc,
        options,
        declaration,
        store,
        limit,
        piece,
        out,
        &mut steps,
    )
}
