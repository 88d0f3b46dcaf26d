// Separators between declarations, which no token is looked for.
ghost use Rattle.std.specs.Prelude.{◌≡◌, ◌≤◌, length, false};
ghost use Rattle.std.specs.List.{prefix_len};
ghost use Rattle.sgml_text.specs.Characters.{is_separator};
ghost use Rattle.sgml_declared.specs.theory_standing.Prologs.{is_over};
ghost use Rattle.sgml_prolog_steps.specs.Standing.{IsKept};
ghost use Rattle.sgml_prolog_steps.specs.Sorts.{is_subset_mode, is_between};
ghost use Rattle.sgml_prolog_steps.specs.Steps.{IsPassed};

use crate::kept::Kept;
use crate::plain::read_over;
use crate::stage::is_before;
use sgml_decl_lexemes::unread;
use sgml_entity::Texts;
use sgml_marked::Status;
use sgml_steps::Steps;
use sgml_text::is_separator;
use std::sync::ledger::Ledger;

/// Passes the separators that stand next in a document type, but for those of an ignored section. Each is
/// a piece, of which nothing is told. A step is counted for each.
pub fn pass_separators<L: Ledger>(kept: &mut Kept, texts: &Texts, steps: &mut Steps<L>)
    requires kept { IsKept kept.old }
    requires going_on { is_over kept.old ≡ false }
    ensures passed { IsPassed texts.now kept.old kept.new }
    ensures going_on { is_over kept.new ≡ false }
{
    if !is_between(kept) {
        return;
    }
    let n = separators(unread(kept.dtd.entities(), texts, &kept.stack)) as u64;
    if n > 0 {
        steps.add(n);
        read_over(kept, texts, n);
    }
}

/// Whether separators stand here between declarations.
fn is_between(kept: &Kept) -> bool
    ensures { result ≡ is_between kept.now }
{
    !is_before(kept.stage) && is_subset_mode(kept.sections.innermost())
}

fn is_subset_mode(innermost: Option<Status>) -> bool
    ensures { result ≡ is_subset_mode innermost }
{
    match innermost {
        Some(Status::Ignore) => false,
        Some(Status::Cdata) => false,
        Some(Status::Rcdata) => false,
        Some(Status::Include) => true,
        None => true,
    }
}

/// How many separators stand here.
#[inline(always)]
fn separators(bytes: &[u8]) -> usize
    ensures value { result ≡ prefix_len is_separator bytes.now }
    ensures within { result ≤ length bytes.now }
{
    bytes.iter().take_while(|b| is_separator(**b)).count()
}
