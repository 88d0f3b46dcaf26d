// The longest run of tags that may be left out before a visible piece.
ghost use Rattle.std.specs.Prelude.{◌≡◌, ◌+◌, ◌≤◌, [], All, length, vec_capacity, false};
ghost use Rattle.sgml_dtd_elements.specs.Laws.{AreDistinct};
ghost use Rattle.sgml_theory_reading.specs.Runs.{LongestRunFrom, context_after_run};
ghost use Rattle.sgml_infer.specs.Tables.{IsNumber};
ghost use Rattle.sgml_infer.specs.Links.{AreLinked};
ghost use Rattle.sgml_infer.specs.Known.{AreKnown};
ghost use Rattle.sgml_infer.specs.Trees.{IsLevel, HasRoom, AreSteps};
ghost use Rattle.sgml_infer.specs.Seen.{one_less, started, context_at, seen, seen_with, kept, left_ends, NoEndMayStand, BeginLongestRun, IsLastFresh, IsStanding};
ghost use Rattle.sgml_infer.specs.Visibles.{kind_of, kind_in, is_content, IsNumbered, IsFit};

use crate::element::restart;
use crate::fitting::Fit;
use crate::known::Known;
use crate::level::Level;
use crate::standing::Standing;
use crate::steps::Steps;
use crate::visible::Visible;
use sgml_automaton::ModelState;
use sgml_dtd::Dtd;

// How many of the open elements stay, where the end-tags of the others are left out, and how the
// visible piece fits in the innermost of them.
#[derive(Clone, Copy)]
pub(crate) struct Kept {
    pub(crate) levels: usize,
    pub(crate) fit: Fit,
}

// How many stand inside the same element, once one more of them has ended.
fn one_less(inside: Option<usize>) -> Option<usize>
    ensures { result ≡ one_less inside }
{
    match inside {
        Some(n) => Some(n.saturating_sub(1)),
        None => None,
    }
}

// Leaves out the end-tags that may be left out, where no start was inferred.
#[inline(always)]
pub(crate) fn infer_ends(standing: &Standing, visible: Visible, before: Fit) -> Kept
    requires standing { IsStanding standing.now }
    requires none { standing.now.starts.now ≡ [] }
    requires number { IsNumbered standing.now.dtd.now visible }
    requires before { IsFit (seen standing.now) (kind_in standing.now visible) before }
    ensures within { result.levels ≤ length standing.now.levels.now }
    ensures run { BeginLongestRun (seen standing.now) (kind_in standing.now visible)
        (left_ends standing.now result.levels) (kept standing.now result.levels) }
    ensures context { context_after_run (seen standing.now) (left_ends standing.now result.levels)
        ≡ kept standing.now result.levels }
    ensures none { NoEndMayStand (kept standing.now result.levels) (kind_in standing.now visible) }
    ensures fit { IsFit (kept standing.now result.levels) (kind_in standing.now visible) result.fit }
{
    let mut kept = standing.levels.len();
    let mut inside = standing.inside_of_ended(visible);
    let mut fit = before;
    'ends: while standing.kept(kept).may_end(visible, inside, fit.misfit) {
        kept -= 1;
        inside = one_less(inside);
        fit = standing.kept(kept).fit(visible);
    }
    Kept { levels: kept, fit }
}

// Leaves out the start-tags that may be left out inside these elements, where no end-tag may, and
// tells how the visible piece fits behind them.
#[inline(always)]
pub(crate) fn infer_starts(
    dtd: &Dtd,
    levels: &[Level],
    begun: bool,
    starts: &mut Vec<u32>,
    fresh: &mut ModelState,
    steps: &Steps,
    known: &[Known],
    visible: Visible,
    before: Fit,
) -> Fit
    requires distinct { AreDistinct dtd.now.elements }
    requires levels { All (IsLevel dtd.now) levels.now }
    requires linked { AreLinked dtd.now levels.now }
    requires room { HasRoom dtd.now fresh.old }
    requires steps { AreSteps dtd.now steps.now }
    requires known { AreKnown dtd.now known.now }
    requires number { IsNumbered dtd.now visible }
    requires within { length levels.now ≤ dtd.now.syntax.quantities.taglvl }
    requires none { NoEndMayStand (context_at dtd.now levels.now begun) (kind_of dtd.now visible) }
    requires starts { starts.old.items ≡ [] }
    requires capacity { dtd.now.syntax.quantities.taglvl ≤ vec_capacity starts.old }
    requires before { IsFit (context_at dtd.now levels.now begun) (kind_of dtd.now visible) before }
    ensures run { LongestRunFrom (context_at dtd.now levels.now begun) (kind_of dtd.now visible)
        (started dtd.now starts.new.items) }
    ensures within { length levels.now + length starts.new.items ≤ dtd.now.syntax.quantities.taglvl }
    ensures numbers { All (IsNumber dtd.now) starts.new.items }
    ensures content { is_content visible ≡ false → starts.new.items ≡ [] }
    ensures fresh { IsLastFresh dtd.now starts.new.items fresh.new }
    ensures room { HasRoom dtd.now fresh.new }
    ensures capacity { vec_capacity starts.new ≡ vec_capacity starts.old }
    ensures fit { IsFit (seen_with dtd.now levels.now begun starts.new.items) (kind_of dtd.now visible)
        result }
{
    let mut fit = before;
    'starts: while let Some(element) = (Standing {
        dtd,
        levels,
        begun,
        starts,
        fresh,
        steps,
        known,
    })
    .omissible_start(visible, fit.misfit)
    {
        starts.push_reserved(element);
        restart(dtd, element, fresh);
        let standing = Standing {
            dtd,
            levels,
            begun,
            starts,
            fresh,
            steps,
            known,
        };
        fit = standing.fit(visible);
    }
    fit
}
