// Which tag may be left out before a visible piece.
ghost use Rattle.std.specs.Prelude.{◌≡◌, ◌<◌, MatchBool, MatchOption, IfSome, Some, true, false, length, not, ◌&&◌, ◌==◌, nat_lt, reverse, []};
ghost use Rattle.sgml_automaton.specs.model.Term.{required};
ghost use Rattle.sgml_theory_reading.specs.Facets.{token};
ghost use Rattle.sgml_theory_reading.specs.Omission.{StartMayStand, inside_of_ended, is_outer, leaves, misfits, depth, finished, left_of};
ghost use Rattle.sgml_infer.specs.Tables.{name_at, IsNumber};
ghost use Rattle.sgml_infer.specs.Seen.{seen, inside_where, SomeEndMayStand, NoEndMayStand, NoStartMayStand, IsStanding};
ghost use Rattle.sgml_infer.specs.Visibles.{kind_in, IsNumbered};
ghost use Rattle.sgml_infer.specs.declared.visible.Visible.TheVariants.{EndTag, Net};

use crate::known::is_declared_content;
use crate::level::Level;
use crate::standing::Standing;
use crate::visible::Visible;
use sgml_text::Name;

fn is_outer(inside: Option<usize>) -> bool
    ensures { result ≡ is_outer inside }
{
    match inside {
        Some(n) => n > 0,
        None => false,
    }
}

// How many elements stand inside the innermost one of the type.
fn inside_of(levels: &[Level], element: u32) -> Option<usize>
    ensures { result ≡ inside_where (λ l. element == l.element) (reverse levels.now) }
{
    let count = levels.len();
    for inside in 0..count {
        if element == levels[count - 1 - inside].element {
            return Some(inside);
        }
    }
    None
}

// How many elements stand inside the innermost one that enabled NET.
pub(crate) fn inside_of_enabling(levels: &[Level]) -> Option<usize>
    ensures inside { result ≡ inside_where (λ l. l.slash) (reverse levels.now) }
    ensures within { IfSome result (λ n. n < length levels.now) }
{
    let count = levels.len();
    for inside in 0..count {
        if levels[count - 1 - inside].slash {
            return Some(inside);
        }
    }
    None
}

impl Standing<'_> {
    // How many elements stand inside the innermost one of the type. Nothing is inferred.
    pub(crate) fn inside_of(&self, element: u32) -> Option<usize>
        requires standing { IsStanding self.now }
        requires number { IsNumber self.now.dtd.now element }
        requires none { self.now.starts.now ≡ [] }
        ensures { result ≡ inside_of_ended (seen self.now) (kind_in self.now (EndTag element)) }
    {
        inside_of(self.levels, element)
    }

    // How many elements stand inside the innermost one that enabled NET. Nothing is inferred.
    pub(crate) fn inside_of_net(&self) -> Option<usize>
        requires standing { IsStanding self.now }
        requires none { self.now.starts.now ≡ [] }
        ensures { result ≡ inside_of_ended (seen self.now) (kind_in self.now Net) }
    {
        inside_of_enabling(self.levels)
    }

    // Content that isn't allowed stands in an element further out. Nothing is inferred.
    #[inline(always)]
    fn leaves_content(&self, misfit: bool) -> bool
        requires standing { IsStanding self.now }
        requires none { self.now.starts.now ≡ [] }
        ensures { result ≡ (misfit && (nat_lt 1 (depth (seen self.now)) && not (seen self.now).inferred)) }
    {
        misfit && self.levels.len() > 1
    }

    // How many elements stand inside the one that the visible piece ends, where it ends one.
    #[inline(always)]
    #[tactic(auto, unfolding(sgml_theory_reading::specs::Omission::inside_of_ended))]
    pub(crate) fn inside_of_ended(&self, visible: Visible) -> Option<usize>
        requires standing { IsStanding self.now }
        requires number { IsNumbered self.now.dtd.now visible }
        requires none { self.now.starts.now ≡ [] }
        ensures { result ≡ inside_of_ended (seen self.now) (kind_in self.now visible) }
    {
        match visible {
            Visible::Start(_) => None,
            Visible::Chars => None,
            Visible::EndTag(n) => self.inside_of(n),
            Visible::EndCurrent => self.inside_of_current(),
            Visible::Net => self.inside_of_net(),
            Visible::EndDocument => None,
        }
    }

    // The visible piece ends an element further out, or isn't allowed in the innermost one.
    #[inline(always)]
    #[tactic(auto, unfolding(sgml_theory_reading::specs::Omission::leaves, sgml_theory_reading::specs::Facets::token))]
    fn leaves(&self, visible: Visible, inside: Option<usize>, misfit: bool) -> bool
        requires standing { IsStanding self.now }
        requires none { self.now.starts.now ≡ [] }
        requires inside { inside ≡ inside_of_ended (seen self.now) (kind_in self.now visible) }
        requires misfit { misfit ≡ misfits (seen self.now) (token (kind_in self.now visible)) }
        ensures { result ≡ leaves (seen self.now) (kind_in self.now visible) }
    {
        match visible {
            Visible::Start(_) => self.leaves_content(misfit),
            Visible::Chars => self.leaves_content(misfit),
            Visible::EndTag(_) => is_outer(inside),
            Visible::EndCurrent => is_outer(inside),
            Visible::Net => is_outer(inside),
            Visible::EndDocument => true,
        }
    }

    // Whether the end-tag of the innermost element may be left out. No start is inferred.
    #[inline(always)]
    pub(crate) fn may_end(&self, visible: Visible, inside: Option<usize>, misfit: bool) -> bool
        requires standing { IsStanding self.now }
        requires none { self.now.starts.now ≡ [] }
        requires inside { inside ≡ inside_of_ended (seen self.now) (kind_in self.now visible) }
        requires misfit { misfit ≡ misfits (seen self.now) (token (kind_in self.now visible)) }
        ensures { MatchBool result
            (SomeEndMayStand (seen self.now) (kind_in self.now visible))
            (NoEndMayStand (seen self.now) (kind_in self.now visible)) }
    {
        if !self.dtd.syntax().omittag {
            return false;
        }
        if !self.leaves(visible, inside, misfit) {
            return false;
        }
        if !self.is_finished() {
            return false;
        }
        match self.inner() {
            Some(inner) => self.omits_end(inner.element),
            None => false,
        }
    }

    // The element whose start-tag may be left out.
    #[inline(always)]
    pub(crate) fn omissible_start(&self, visible: Visible, misfit: bool) -> Option<u32>
        requires standing { IsStanding self.now }
        requires misfit { misfit ≡ misfits (seen self.now) (token (kind_in self.now visible)) }
        ensures may { MatchOption result
            (NoStartMayStand (seen self.now) (kind_in self.now visible))
            (λ n. StartMayStand (seen self.now) (name_at self.now.dtd.now n) (kind_in self.now visible)) }
        ensures number { IfSome result (IsNumber self.now.dtd.now) }
    {
        if !self.dtd.syntax().omittag {
            return None;
        }
        if !misfit {
            return None;
        }
        if self.is_finished() {
            return None;
        }
        if let Some(first) = self.first() {
            return self.omissible_start_of(visible, first);
        }
        match self.required() {
            Some(name) => self.omissible_start_named(visible, name),
            None => None,
        }
    }

    // The same, where the element is unfinished and must have this one next.
    #[inline(never)]
    fn omissible_start_named(&self, visible: Visible, name: &Name) -> Option<u32>
        requires standing { IsStanding self.now }
        requires omits { self.now.dtd.now.syntax.omittag ≡ true }
        requires misfits { misfits (seen self.now) (token (kind_in self.now visible)) ≡ true }
        requires unfinished { finished (seen self.now) ≡ false }
        requires required { required (left_of (seen self.now)) ≡ Some name.now }
        ensures may { MatchOption result
            (NoStartMayStand (seen self.now) (kind_in self.now visible))
            (λ n. StartMayStand (seen self.now) (name_at self.now.dtd.now n) (kind_in self.now visible)) }
        ensures number { IfSome result (IsNumber self.now.dtd.now) }
    {
        match self.dtd.element(name) {
            Some(n) => self.omissible_start_of(visible, n),
            None => None,
        }
    }

    // The same, by its number.
    #[inline(always)]
    fn omissible_start_of(&self, visible: Visible, n: u32) -> Option<u32>
        requires standing { IsStanding self.now }
        requires omits { self.now.dtd.now.syntax.omittag ≡ true }
        requires misfits { misfits (seen self.now) (token (kind_in self.now visible)) ≡ true }
        requires unfinished { finished (seen self.now) ≡ false }
        requires number { IsNumber self.now.dtd.now n }
        requires required { required (left_of (seen self.now)) ≡ Some (name_at self.now.dtd.now n) }
        ensures may { MatchOption result
            (NoStartMayStand (seen self.now) (kind_in self.now visible))
            (λ n. StartMayStand (seen self.now) (name_at self.now.dtd.now n) (kind_in self.now visible)) }
        ensures number { IfSome result (IsNumber self.now.dtd.now) }
    {
        let known = self.known(n);
        if self.is_excluded(Some(&known.name)) {
            return None;
        }
        if !known.omits_start {
            return None;
        }
        if known.has_required {
            return None;
        }
        if is_declared_content(known.content) {
            return None;
        }
        if self.depth() >= self.dtd.syntax().quantities.taglvl as usize {
            return None;
        }
        Some(n)
    }
}
