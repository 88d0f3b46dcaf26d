// What a board's chunks are scanned by.
ghost use Rattle.std.specs.Prelude.{◌≡◌, ◌+◌, ◌≤◌, ℕ, List, IfOk};
ghost use Rattle.sgml_runs.specs.declared.run.Chunk.{Chunk};
ghost use Rattle.sgml_runs.specs.declared.run.Entry.{Entry};

use crate::run::{Chunk, Run};
use sgml_steps::Steps;
use sgml_text::Memory;
use std::alloc::Global;
use std::sync::ledger::Ledger;

/// A syntax by which chunks of texts are scanned. What scanning a chunk gives is a function of the syntax, the texts
/// and the chunk alone.
pub trait Scan {
    type Texts;

    type Token: Drop;

    /// Whether the chunk lies in its text.
    ghost lies: { Self.Texts → Chunk → Type 0 };

    /// The tokens that begin in the chunk.
    ghost scanned: { Self → Self.Texts → Chunk → List (Entry Self.Token) };

    /// How many steps scanning the chunk takes.
    ghost cost: { Self → Self.Texts → Chunk → ℕ };

    fn scan_chunk<L: Ledger>(
        &self,
        alloc: Global,
        texts: &Self::Texts,
        chunk: Chunk,
        steps: &mut Steps<L>,
    ) -> Result<Run<Self::Token>, Memory>
        requires { lies texts.now chunk }
        ensures counted { steps.new ≤ steps.old + cost self.now texts.now chunk }
        ensures chunk { IfOk result (λ run. run.chunk ≡ chunk) }
        ensures entries { IfOk result (λ run. run.entries.items ≡ scanned self.now texts.now chunk) };
}
