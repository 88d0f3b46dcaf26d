// The committing reader.
ghost use Rattle.std.specs.Prelude.{◌≡◌, ◌≢◌, ℕ, ◌<◌, ◌≤◌, ◌+◌, [], vec_len, flat_map, IfOk};
ghost use Rattle.sgml_runs.specs.Runs.{Runs};
ghost use Rattle.sgml_runs.specs.Counts.{times};
ghost use Rattle.sgml_runs.specs.Rule.{IsRunOf};
ghost use Rattle.sgml_runs.specs.Names.{runs_of, known, IsPassOf};
ghost use Rattle.sgml_workers.specs.Working.{IsFor, entries_of, LooksAlone, cost_at, cost_of_all};

use crate::working::scan_one;
use sgml_runs::{Board, Entry, Pass, Run, Scan};
use sgml_steps::Steps;
use sgml_text::Memory;
use std::alloc::Global;
use std::marker::Brand;
use std::sync::ledger::{Blank, Ledger};

// The run of one chunk: the posted one, or where none is posted the reader's own.
fn run_of<S: Scan, L: Ledger>(
    alloc: Global,
    syntax: &S,
    texts: &S::Texts,
    board: &Board<S>,
    pass: &mut Pass<S::Token>,
    chunk: u32,
    steps: &mut Steps<L>,
) -> Result<Run<S::Token>, Memory>
    requires board { IsFor S.lies board.now syntax.now texts.now × (chunk < vec_len board.now.chunks) }
    requires pass { IsPassOf S.scanned board.now pass.old × (0 < (known pass.old).leads) × (times chunk (known pass.old).taken ≡ 0) }
    ensures pass { IsPassOf S.scanned board.now pass.new × LooksAlone (known pass.old) (known pass.new) }
    ensures taken { (k : ℕ) → k ≢ chunk → times k (known pass.new).taken ≡ times k (known pass.old).taken }
    ensures counted { steps.new ≤ steps.old + cost_at (S.cost syntax.now texts.now) board.now.chunks.items chunk }
    ensures run { IfOk result (λ run. IsRunOf (runs_of S.scanned board.now) chunk run) }
{
    if board.look(pass, chunk) {
        Ok(board.take(pass, chunk))
    } else {
        scan_one(alloc, syntax, texts, board, chunk, steps)
    }
}

/// The entries of all chunks, in the order of the chunks. Steps are counted for the chunks that the reader scans itself.
pub fn read_all<S: Scan, L: Ledger>(
    alloc: Global,
    syntax: &S,
    texts: &S::Texts,
    board: &Board<S>,
    pass: &mut Pass<S::Token>,
    steps: &mut Steps<L>,
) -> Result<Vec<Entry<S::Token>>, Memory>
    requires board { IsFor S.lies board.now syntax.now texts.now }
    requires pass { IsPassOf S.scanned board.now pass.old × (0 < (known pass.old).leads) × ((known pass.old).taken ≡ []) }
    ensures pass { IsPassOf S.scanned board.now pass.new × LooksAlone (known pass.old) (known pass.new) }
    ensures counted { steps.new ≤ steps.old + cost_of_all (S.cost syntax.now texts.now) board.now.chunks.items }
    ensures entries { IfOk result (λ all. all.items ≡ flat_map entries_of (runs_of S.scanned board.now)) }
{
    let mut all = Vec::new(alloc);
    for chunk in 0..board.chunks().len() as u32 {
        let run = run_of(alloc, syntax, texts, board, pass, chunk, steps)?;
        all.append(&mut run.into_entries())?;
    }
    Ok(all)
}

/// What the committing thread makes of a board while workers scan ahead.
pub trait Reader<S: Scan> {
    type Answer;

    /// Which answers the reader may give where these are the runs of the chunks.
    ghost answers: { Self → Runs S.Token → Self.Answer → Type 0 };

    fn read(
        self,
        alloc: Global,
        syntax: &S,
        texts: &S::Texts,
        board: &Board<S>,
        pass: &mut Pass<S::Token>,
    ) -> Self::Answer
        requires board { IsFor S.lies board.now syntax.now texts.now }
        requires pass { IsPassOf S.scanned board.now pass.old × (0 < (known pass.old).leads) × ((known pass.old).taken ≡ []) }
        ensures pass { IsPassOf S.scanned board.now pass.new × LooksAlone (known pass.old) (known pass.new) }
        ensures answers { answers self (runs_of S.scanned board.now) result };
}

/// The reader that gives the entries of all chunks, in the order of the chunks.
#[derive(Clone, Copy)]
pub struct Entries;

impl<S: Scan> Reader<S> for Entries {
    type Answer = Result<Vec<Entry<S::Token>>, Memory>;

    ghost answers = { λ reader runs result. IfOk result (λ all. all.items ≡ flat_map entries_of runs) };

    fn read(
        self,
        alloc: Global,
        syntax: &S,
        texts: &S::Texts,
        board: &Board<S>,
        pass: &mut Pass<S::Token>,
    ) -> Result<Vec<Entry<S::Token>>, Memory> {
        read_by::<S, Brand>(alloc, syntax, texts, board, pass, Blank::new(1))
    }
}

// Reads all, with steps that nobody counts.
fn read_by<S: Scan, L: Ledger>(
    alloc: Global,
    syntax: &S,
    texts: &S::Texts,
    board: &Board<S>,
    pass: &mut Pass<S::Token>,
    blank: Blank,
) -> Result<Vec<Entry<S::Token>>, Memory>
    requires name { blank.name ≡ L.name }
    requires parts { blank.parts ≡ L.parts }
    requires some { 0 < blank.parts }
    requires board { IsFor S.lies board.now syntax.now texts.now }
    requires pass { IsPassOf S.scanned board.now pass.old × (0 < (known pass.old).leads) × ((known pass.old).taken ≡ []) }
    ensures pass { IsPassOf S.scanned board.now pass.new × LooksAlone (known pass.old) (known pass.new) }
    ensures entries { IfOk result (λ all. all.items ≡ flat_map entries_of (runs_of S.scanned board.now)) }
{
    let mut steps = Steps::<L>::new(blank);
    read_all(alloc, syntax, texts, board, pass, &mut steps)
}
