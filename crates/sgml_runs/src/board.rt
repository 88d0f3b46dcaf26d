// The board and its calls, each one or two steps on the table.
ghost use Rattle.std.specs.Prelude.{◌≡◌, ℕ, ◌+◌, ◌<◌, ◌≤◌, ◌^◌, true, false, [], length, vec_len, map, IfOk, IfSome, IfNone};
ghost use Rattle.sgml_runs.specs.Runs.{runs_by};
ghost use Rattle.sgml_runs.specs.Counts.{EachOnce, times, after_first};
ghost use Rattle.sgml_runs.specs.Rule.{IsRunOf, opening_view};
ghost use Rattle.sgml_runs.specs.Steps.{with_claim, with_none, with_mark, with_seen, with_miss, with_taken, kept_part, cut_part, both_views};

use crate::expected::Expected;
use crate::pass::Pass;
use crate::rule::{Claim, Kept, Lift, Look, Mark, Parts, Take, Tell};
use crate::run::{Chunk, Run};
use crate::scan::Scan;
use crate::view::View;
use atomic_table::Table;
use sgml_text::Memory;
use std::alloc::Global;

/// Where threads leave the runs of chunks. For its whole life it stands for the syntax, the texts and the chunks that it
/// was made for, and keeps no reference to them. Threads share it by `&`.
#[derive(Drop)]
pub struct Board<S: Scan> {
    pub(crate) table: Table<
        Option<Run<S::Token>>,
        View<S::Token>,
        Expected<S, S::Texts>,
        Kept<S>,
        Global,
    >,
    chunks: Vec<Chunk>,
    ghost words: { table.shared.table_id.words ≡ 1 + vec_len chunks },
    ghost slots: { table.shared.table_id.slots ≡ vec_len chunks },
    ghost few: { vec_len chunks < 2 ^ 32 },
    ghost of_chunks: { table.shared.key.chunks.value.items ≡ chunks.items },
}

impl<S: Scan> Board<S> {
    ghost use Rattle.sgml_runs.specs.Names.{syntax_of, texts_of, runs_of, known, IsPassOf};

    /// A board for the chunks of these texts, and the committing pass.
    pub fn new(
        alloc: Global,
        syntax: &S,
        texts: &S::Texts,
        chunks: Vec<Chunk>,
    ) -> Result<(Board<S>, Pass<S::Token>), Memory>
        requires { vec_len chunks < 2 ^ 32 }
        ensures chunks { IfOk result (λ b. b.0.chunks.items ≡ chunks.items) }
        ensures made_for { IfOk result (λ b. (syntax_of b.0 ≡ syntax.now) × (texts_of b.0 ≡ texts.now)) }
        ensures pass { IfOk result (λ b. IsPassOf S.scanned b.0 b.1 × (known b.1 ≡ opening_view (runs_of S.scanned b.0))) }
    {
        let words = vec![in alloc; 0u64; chunks.len() + 1]?;
        let expected = Expected::of(syntax, texts, &chunks);
        let (table, seat) = Table::vacant(alloc, words.as_slice(), chunks.len(), &expected)?;
        let pass = Pass {
            seat,
            finished: false,
            taken: 0,
        };
        Ok((Board { table, chunks }, pass))
    }

    /// The chunks that the board stands for. A chunk's number is its index.
    pub fn chunks(&self) -> &[Chunk]
        ensures { result.now ≡ self.now.chunks.items }
    {
        self.chunks.as_slice()
    }

    /// The number of the next chunk, which no pass has claimed before, if one is left.
    pub fn claim(&self, pass: &mut Pass<S::Token>) -> Option<u32>
        requires { IsPassOf S.scanned self.now pass.old × ((known pass.old).nones ≡ 0) }
        ensures pass { IsPassOf S.scanned self.now pass.new }
        ensures some { IfSome result (λ k. (k < vec_len self.now.chunks) × (known pass.new ≡ with_claim (known pass.old) k)) }
        ensures fresh { IfSome result (λ k. times k (known pass.old).marks ≡ 0) }
        ensures rising { IfSome result (λ k. after_first (known pass.old).claims ≤ k) }
        ensures none { IfNone result (known pass.new ≡ with_none (known pass.old)) }
    {
        let found = self.table.shared.fetch_add::<Claim>(&mut pass.seat, 0, 1);
        if found < self.chunks.len() as u64 {
            Some(found as u32)
        } else {
            pass.finished = true;
            None
        }
    }

    /// Leaves the run of a chunk that the pass claimed. A worker without memory for a run leaves its chunk unposted.
    pub fn post(&self, pass: &mut Pass<S::Token>, chunk: u32, run: Run<S::Token>)
        requires pass { IsPassOf S.scanned self.now pass.old × (chunk < vec_len self.now.chunks) }
        requires claimed { (0 < times chunk (known pass.old).claims) × (times chunk (known pass.old).marks ≡ 0) }
        requires run { IsRunOf (runs_of S.scanned self.now) chunk run }
        ensures pass { IsPassOf S.scanned self.now pass.new }
        ensures marked { known pass.new ≡ with_mark (known pass.old) chunk [] }
    {
        let slot = chunk as usize;
        self.table.shared.load::<Lift>(&mut pass.seat, slot + 1);
        let _old = self.table.shared.exchange(&mut pass.seat, slot, Some(run));
        self.table.shared.store::<Mark>(&mut pass.seat, slot + 1, 1);
    }

    /// Whether the chunk's run is there. A caller who doesn't find it may scan for itself, or look again.
    pub fn look(&self, pass: &mut Pass<S::Token>, chunk: u32) -> bool
        requires { IsPassOf S.scanned self.now pass.old × (chunk < vec_len self.now.chunks) }
        ensures pass { IsPassOf S.scanned self.now pass.new }
        ensures yes { result ≡ true → known pass.new ≡ with_seen (known pass.old) chunk }
        ensures no { result ≡ false → known pass.new ≡ with_miss (known pass.old) chunk }
    {
        let found = self
            .table
            .shared
            .load::<Look>(&mut pass.seat, chunk as usize + 1);
        found != 0
    }

    /// The run of a chunk that the committing pass found.
    pub fn take(&self, pass: &mut Pass<S::Token>, chunk: u32) -> Run<S::Token>
        requires pass { IsPassOf S.scanned self.now pass.old × (chunk < vec_len self.now.chunks) × (0 < (known pass.old).leads) }
        requires seen { (0 < times chunk (known pass.old).seen) × (times chunk (known pass.old).taken ≡ 0) }
        ensures pass { IsPassOf S.scanned self.now pass.new }
        ensures run { IsRunOf (runs_of S.scanned self.now) chunk result }
        ensures taken { known pass.new ≡ with_taken (known pass.old) chunk }
    {
        let slot = chunk as usize;
        self.table.shared.load::<Take>(&mut pass.seat, slot + 1);
        let found = self.table.shared.exchange(&mut pass.seat, slot, None);
        pass.taken += 1;
        match found {
            Some(run) => run,
            None => unreachable!(),
        }
    }

    /// Ends the board, once every other pass was joined. Where a claim had found no chunk left, each chunk was claimed
    /// once.
    pub fn close(self, mut pass: Pass<S::Token>)
        requires { IsPassOf S.scanned self pass × ((known pass).parts ≡ 64) }
        ensures all { 0 < (known pass).nones → EachOnce (vec_len self.chunks) (known pass).claims }
    {
        self.table.shared.load::<Tell>(&mut pass.seat, 0);
    }
}

impl<T> Pass<T> {
    ghost use Rattle.sgml_runs.specs.Names.{known, IsPassOf};

    /// A pass for another thread, with one of this pass's parts. It isn't the committing one.
    pub fn split<S: Scan<Token = T>>(&mut self, board: &Board<S>) -> Pass<T>
        requires { IsPassOf S.scanned board.now self.old × ((known self.old).nones ≡ 0) × (1 < (known self.old).parts) }
        ensures old { IsPassOf S.scanned board.now self.new × (known self.new ≡ kept_part (known self.old)) }
        ensures new { IsPassOf S.scanned board.now result × (known result ≡ cut_part (known self.old)) }
    {
        let seat = board.table.shared.split_seat::<Parts>(&mut self.seat);
        Pass {
            seat,
            finished: false,
            taken: 0,
        }
    }

    /// Takes in what another pass did. No chunk was claimed by both.
    pub fn join<S: Scan<Token = T>>(&mut self, board: &Board<S>, other: Pass<T>)
        requires { IsPassOf S.scanned board.now self.old × IsPassOf S.scanned board.now other × ((known other).leads ≡ 0) }
        ensures pass { IsPassOf S.scanned board.now self.new }
        ensures both { known self.new ≡ both_views (known self.old) (known other) }
        ensures disjoint { (k : ℕ) → times k (known self.old).claims + times k (known other).claims ≤ 1 }
    {
        let Pass {
            seat,
            finished,
            taken: _,
        } = other;
        board.table.shared.join_seat::<Parts>(&mut self.seat, seat);
        board.table.shared.load::<Tell>(&mut self.seat, 0);
        if finished {
            self.finished = true;
        }
    }
}
