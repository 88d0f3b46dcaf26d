// A worker, and the scan of one chunk.
ghost use Rattle.std.specs.Prelude.{◌≡◌, ◌<◌, ◌≤◌, ◌+◌, vec_len, IfOk};
ghost use Rattle.sgml_runs.specs.Rule.{IsRunOf};
ghost use Rattle.sgml_runs.specs.Names.{runs_of, known, IsPassOf};
ghost use Rattle.sgml_workers.specs.Working.{IsFor, cost_at};

use sgml_io::Gate;
use sgml_runs::{Board, Pass, Run, Scan};
use sgml_steps::Steps;
use sgml_text::Memory;
use std::alloc::Global;
use std::marker::Brand;
use std::sync::ledger::{Blank, Ledger};

/// The run of the chunk with this number.
pub(crate) fn scan_one<S: Scan, L: Ledger>(
    alloc: Global,
    syntax: &S,
    texts: &S::Texts,
    board: &Board<S>,
    chunk: u32,
    steps: &mut Steps<L>,
) -> Result<Run<S::Token>, Memory>
    requires { IsFor S.lies board.now syntax.now texts.now × (chunk < vec_len board.now.chunks) }
    ensures counted { steps.new ≤ steps.old + cost_at (S.cost syntax.now texts.now) board.now.chunks.items chunk }
    ensures run { IfOk result (λ run. IsRunOf (runs_of S.scanned board.now) chunk run) }
{
    let place = board.chunks()[chunk as usize];
    syntax.scan_chunk(alloc, texts, place, steps)
}

/// Claims until no chunk is left, and posts each run that there is memory for. The gate may delay each scan.
pub fn work<S: Scan, G: Gate, L: Ledger>(
    alloc: Global,
    syntax: &S,
    texts: &S::Texts,
    board: &Board<S>,
    gate: &G,
    mut pass: Pass<S::Token>,
    steps: &mut Steps<L>,
) -> Pass<S::Token>
    requires board { IsFor S.lies board.now syntax.now texts.now }
    requires pass { IsPassOf S.scanned board.now pass × ((known pass).nones ≡ 0) × ((known pass).leads ≡ 0) }
    ensures pass { IsPassOf S.scanned board.now result × ((known result).leads ≡ 0) }
    ensures done { ((known result).parts ≡ (known pass).parts) × (0 < (known result).nones) }
{
    while let Some(chunk) = board.claim(&mut pass) {
        gate.enter(chunk);
        if let Ok(run) = scan_one(alloc, syntax, texts, board, chunk, steps) {
            board.post(&mut pass, chunk, run);
        }
    }
    pass
}

/// The same, with steps that nobody counts.
pub(crate) fn work_uncounted<S: Scan, G: Gate>(
    alloc: Global,
    syntax: &S,
    texts: &S::Texts,
    board: &Board<S>,
    gate: &G,
    pass: Pass<S::Token>,
) -> Pass<S::Token>
    requires board { IsFor S.lies board.now syntax.now texts.now }
    requires pass { IsPassOf S.scanned board.now pass × ((known pass).nones ≡ 0) × ((known pass).leads ≡ 0) }
    ensures pass { IsPassOf S.scanned board.now result × ((known result).leads ≡ 0) }
    ensures done { ((known result).parts ≡ (known pass).parts) × (0 < (known result).nones) }
{
    work_by::<S, G, Brand>(alloc, syntax, texts, board, gate, pass, Blank::new(1))
}

fn work_by<S: Scan, G: Gate, L: Ledger>(
    alloc: Global,
    syntax: &S,
    texts: &S::Texts,
    board: &Board<S>,
    gate: &G,
    pass: Pass<S::Token>,
    blank: Blank,
) -> Pass<S::Token>
    requires name { blank.name ≡ L.name }
    requires parts { blank.parts ≡ L.parts }
    requires some { 0 < blank.parts }
    requires board { IsFor S.lies board.now syntax.now texts.now }
    requires pass { IsPassOf S.scanned board.now pass × ((known pass).nones ≡ 0) × ((known pass).leads ≡ 0) }
    ensures pass { IsPassOf S.scanned board.now result × ((known result).leads ≡ 0) }
    ensures done { ((known result).parts ≡ (known pass).parts) × (0 < (known result).nones) }
{
    let mut steps = Steps::<L>::new(blank);
    work(alloc, syntax, texts, board, gate, pass, &mut steps)
}
