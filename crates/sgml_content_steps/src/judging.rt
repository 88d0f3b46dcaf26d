// Judging a visible piece, before anything is taken.
ghost use Rattle.std.specs.Prelude.{◌≡◌, IfOk, IfErr, IfSome};
ghost use Rattle.sgml_infer.specs.Visibles.{kind_of, IsNumbered, IsFit};
ghost use Rattle.sgml_theory_starts.specs.theory_standing.Held.{Held};
ghost use Rattle.sgml_prolog_steps.specs.declared.stepping.Stop.TheVariants as stop;
ghost use Rattle.sgml_content_steps.specs.Content.{Holds, IsContent, context_of};
ghost use Rattle.sgml_content_steps.specs.Runs.{IsRun, room_of};
ghost use Rattle.sgml_content_steps.specs.Judged.{IsJudgedStop, IsRefusal};

use crate::content::Content;
use crate::run::Run;
use crate::starting::values_of_starts;
use sgml_entity::Texts;
use sgml_infer::{Fit, Visible};
use sgml_prolog_steps::Stop;
use std::alloc::Global;

/// Judges a visible piece where it stands: the tags that are left out before it with the values of their starts,
/// or the reason why it may not stand. Nothing is taken yet.
#[inline(always)]
pub fn judge(
    alloc: Global,
    content: &mut Content,
    texts: &Texts,
    visible: Visible,
) -> Result<Run, Stop>
    requires content { IsContent content.old }
    requires number { IsNumbered content.old.kept.doctype visible }
    ensures ok { IfOk result (λ run. IsRun content.new visible run) }
    ensures refused { IfErr result (IsRefusal content.old visible) }
    ensures stops { IfErr result IsJudgedStop }
    ensures same { content.new ≡ record content.old { tree = content.new.tree; currents = content.new.currents } }
    ensures holds { (x : Held) → Holds content.old x → Holds content.new x }
    ensures context { context_of content.new ≡ context_of content.old }
    ensures content { IsContent content.new }
{
    match content.tree.judge_plain(&content.kept.dtd, visible) {
        Ok(chain) => {
            let values = Vec::new(alloc);
            Ok(Run { chain, values })
        }
        Err(fit) => judge_run(alloc, content, texts, visible, fit),
    }
}

/// The same, where a tag may be left out or the piece may be refused; it fits in the innermost element as
/// `Tree::judge_plain` found.
#[inline(never)]
fn judge_run(
    alloc: Global,
    content: &mut Content,
    texts: &Texts,
    visible: Visible,
    fit: Fit,
) -> Result<Run, Stop>
    requires content { IsContent content.old }
    requires number { IsNumbered content.old.kept.doctype visible }
    requires fit { IsFit (context_of content.old) (kind_of content.old.kept.doctype visible) fit }
    ensures ok { IfOk result (λ run. IsRun content.new visible run) }
    ensures refused { IfErr result (IsRefusal content.old visible) }
    ensures stops { IfErr result IsJudgedStop }
    ensures same { content.new ≡ record content.old { tree = content.new.tree; currents = content.new.currents } }
    ensures holds { (x : Held) → Holds content.old x → Holds content.new x }
    ensures context { context_of content.new ≡ context_of content.old }
    ensures content { IsContent content.new }
{
    match content.tree.judge_run(&content.kept.dtd, visible, fit) {
        Ok(chain) => match values_of_starts(alloc, content, texts, chain.starts) {
            Ok(values) => Ok(Run { chain, values }),
            Err(stop) => Err(stop),
        },
        Err(reason) => Err(Stop::Refused(reason)),
    }
}

/// Judges a visible piece, where it is plain that it may stand as it comes, with no tag left out before it.
#[inline(always)]
pub fn judge_plain(alloc: Global, content: &mut Content, visible: Visible) -> Option<Run>
    requires content { IsContent content.old }
    requires number { IsNumbered content.old.kept.doctype visible }
    ensures run { IfSome result (λ run. IsRun content.new visible run) }
    ensures plain { IfSome result (λ run. room_of run ≡ 0) }
    ensures same { content.new ≡ record content.old { tree = content.new.tree } }
    ensures holds { (x : Held) → Holds content.old x → Holds content.new x }
    ensures context { context_of content.new ≡ context_of content.old }
    ensures content { IsContent content.new }
{
    match content.tree.judge_plain(&content.kept.dtd, visible) {
        Ok(chain) => {
            if chain.ends > 0 {
                return None;
            }
            let values = Vec::new(alloc);
            Some(Run { chain, values })
        }
        Err(_) => None,
    }
}
