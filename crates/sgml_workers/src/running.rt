// The reader and the workers at once.
ghost use Rattle.std.specs.Prelude.{◌≡◌, ◌-◌, ◌^◌, ◌<◌, vec_len, flat_map, All, IfOk};
ghost use Rattle.sgml_runs.specs.Names.{runs_of, known, IsPassOf};
ghost use Rattle.sgml_workers.specs.Working.{IsFor, Leads, Begins, HasWorked, HasRead};

use crate::reading::{Entries, Reader};
use crate::working::work_uncounted;
use sgml_io::Gate;
use sgml_runs::{Board, Chunk, Entry, Pass, Scan};
use sgml_text::Memory;
use std::alloc::Global;
use std::thread::{Threads, join};

/// What the reader answered, with this many workers beside it, and its pass. All passes are joined again.
pub fn read_beside<R: Threads, S: Scan + Sync, G: Gate + Sync, D: Reader<S> + Send + Drop>(
    rt: &R,
    alloc: Global,
    reader: D,
    syntax: &S,
    texts: &S::Texts,
    board: &Board<S>,
    gate: &G,
    mut pass: Pass<S::Token>,
    workers: u32,
) -> (Pass<S::Token>, D::Answer)
where
    S::Texts: Sync,
    S::Token: Send,
    D::Answer: Send,
    requires board { IsFor S.lies board.now syntax.now texts.now }
    requires pass { IsPassOf S.scanned board.now pass × Leads workers (known pass) }
    ensures pass { IsPassOf S.scanned board.now result.0 × ((known result.0).parts ≡ (known pass).parts) }
    ensures done { 0 < workers → 0 < (known result.0).nones }
    ensures answers { D.answers reader (runs_of S.scanned board.now) result.1 }
{
    if workers == 0 {
        let answer = reader.read(alloc, syntax, texts, board, &mut pass);
        return (pass, answer);
    }
    let theirs = pass.split(board);
    let (theirs, (mut mine, answer)) = join(
        rt,
        move || -> Pass<S::Token>
            requires { IsFor S.lies board.now syntax.now texts.now × IsPassOf S.scanned board.now theirs × Begins (known theirs) }
            ensures { IsPassOf S.scanned board.entry.now result × HasWorked (known theirs) (known result) }
        { work_uncounted(alloc, syntax, texts, board, gate, theirs) },
        move || -> (Pass<S::Token>, D::Answer)
            requires some { 0 < workers }
            requires board { IsFor S.lies board.now syntax.now texts.now }
            requires pass { IsPassOf S.scanned board.now pass × Leads (workers - 1) (known pass) }
            ensures pass { IsPassOf S.scanned board.entry.now result.0 × HasRead (workers - 1) (known pass) (known result.0) }
            ensures answers { D.answers reader (runs_of S.scanned board.entry.now) result.1 }
        {
            read_beside(
                rt,
                alloc,
                reader,
                syntax,
                texts,
                board,
                gate,
                pass,
                workers - 1,
            )
        },
    );
    mine.join(board, theirs);
    (mine, answer)
}

/// The tokens of these chunks, whatever the number of workers.
pub fn scan_all<R: Threads, S: Scan + Sync, G: Gate + Sync>(
    rt: &R,
    alloc: Global,
    syntax: &S,
    texts: &S::Texts,
    chunks: Vec<Chunk>,
    gate: &G,
    workers: u32,
) -> Result<Vec<Entry<S::Token>>, Memory>
where
    S::Texts: Sync,
    S::Token: Send,
    requires { (vec_len chunks < 2 ^ 32) × All (S.lies texts.now) chunks.items × (workers < 64) }
    ensures { IfOk result (λ all. all.items ≡ flat_map (S.scanned syntax.now texts.now) chunks.items) }
{
    let (board, pass) = Board::new(alloc, syntax, texts, chunks)?;
    let (pass, entries) = read_beside(
        rt, alloc, Entries, syntax, texts, &board, gate, pass, workers,
    );
    board.close(pass);
    entries
}
