// The book, checked.
ghost use Rattle.std.specs.Prelude.{◌≡◌, ◌≤◌, ◌<◌, IfOk};
ghost use Rattle.sgml_io.specs.InMemory.{files_told};
ghost use Rattle.sgml_selfcheck.specs.Checking.{book_files, Checks};

use crate::answer::Checked;
use crate::tally::Tally;
use sgml_conversion::{Failure, Options, Outcome, convert};
use sgml_gen::document;
use sgml_io::{MemoryFile, MemoryStore};
use sgml_steps::Steps;
use sgml_syntax::Syntax;
use sgml_text::Memory;
use std::alloc::Global;
use std::sync::Arc;
use std::sync::ledger::Ledger;

/// Converts the book of so many chapters, whose file is `options.base`, in pieces of so many bytes at most, and counts what is
/// written. It is cut where it has more than `limit` bytes. `declaration` is the syntax of the SGML declaration that a catalog names,
/// where it names one (TR9401). An error is want of memory, or a count that 64 bits don't hold.
pub fn selfcheck<L: Ledger>(
    alloc: Global,
    number: u32,
    options: Arc<Options>,
    declaration: Option<Syntax>,
    limit: usize,
    piece: usize,
    steps: &mut Steps<L>,
) -> Result<Checked, Memory>
    requires some { 1 ≤ number }
    requires few { number ≤ 100_000 }
    requires piece { 0 < piece }
    ensures { IfOk result (Checks limit number options.value declaration) }
{
    let mut store = store_of_book(alloc, number, options.base.items())?;
    let mut tally = Tally::new();
    match convert(
        alloc,
        options,
        declaration,
        &mut store,
        limit,
        piece,
        &mut tally,
        steps,
    ) {
        Ok(Outcome::Conforming) => Ok(Checked::Summary(tally.summary(alloc)?)),
        Ok(Outcome::Refused(refusal, position)) => Ok(Checked::Refused(refusal, position)),
        // the book is there
        Ok(Outcome::Absent) => unreachable!(),
        // a store in memory has no faults
        Err(Failure::Store) => unreachable!(),
        // a count fits no more
        Err(Failure::Sink) => Err(Memory),
        Err(Failure::Memory) => Err(Memory),
    }
}

/// A store whose one file is the book.
fn store_of_book(alloc: Global, number: u32, name: &[u8]) -> Result<MemoryStore, Memory>
    requires some { 1 ≤ number }
    requires few { number ≤ 100_000 }
    ensures { IfOk result (λ store. files_told store ≡ Some (book_files name.now number)) }
{
    let bytes = document(alloc, number)?;
    let name = name.to_vec(alloc)?;
    let mut files = Vec::with_capacity(alloc, 1)?;
    files.push(MemoryFile { name, bytes })?;
    Ok(MemoryStore::new(alloc, files))
}
