// Why a visible piece can't stand, after the longest run of omitted tags before it.
ghost use Rattle.std.specs.Prelude.{◌≡◌, Some, true, false, not, []};
ghost use Rattle.std.specs.Option.{option_copied};
ghost use Rattle.sgml_theory_reading.specs.Facets.{token};
ghost use Rattle.sgml_theory_reading.specs.Omission.{is_declared_token, inside_of_ended, misfits, allowed as allowed_in};
ghost use Rattle.sgml_theory_reading.specs.Reasons.{reason, content_reason, content_refusal, end_reason, finish_reason, excluded_or_not_allowed, is_full, is_innermost, cannot_be_required, start_is_omissible, has_reason_to_be_written, end_is_omissible};
ghost use Rattle.sgml_infer.specs.Tables.{name_at, IsNumber};
ghost use Rattle.sgml_infer.specs.Seen.{seen, IsStanding};
ghost use Rattle.sgml_infer.specs.declared.visible.Visible.TheVariants.{EndCurrent};
ghost use Rattle.sgml_infer.specs.Visibles.{kind_of, IsNumbered, is_content};

use crate::element;
use crate::standing::Standing;
use crate::visible::Visible;
use sgml_text::{Name, Reason};

pub(crate) fn is_innermost(inside: Option<usize>) -> bool
    ensures { result ≡ is_innermost inside }
{
    match inside {
        Some(n) => n == 0,
        None => false,
    }
}

fn excluded_or_not_allowed(fits: bool) -> Reason
    ensures { result ≡ excluded_or_not_allowed fits }
{
    if fits {
        Reason::Excluded
    } else {
        Reason::NotAllowed
    }
}

impl Standing<'_> {
    pub(crate) fn is_full(&self) -> bool
        requires { IsStanding self.now }
        ensures { result ≡ is_full (seen self.now) }
    {
        self.depth() >= self.dtd.syntax().quantities.taglvl as usize
    }

    fn is_inferred(&self) -> bool
        ensures { result ≡ (seen self.now).inferred }
    {
        !self.starts.is_empty()
    }

    fn is_begun(&self) -> bool
        ensures { result ≡ (seen self.now).begun }
    {
        self.begun || !self.starts.is_empty()
    }

    fn cannot_be_required(&self, required: Option<&Name>) -> bool
        requires { IsStanding self.now }
        ensures { result ≡ cannot_be_required (seen self.now) (option_copied required.entry) }
    {
        match required {
            Some(name) => self.dtd.element(name).is_none() || self.is_excluded(Some(name)),
            None => true,
        }
    }

    fn start_is_omissible(&self, required: Option<&Name>) -> bool
        requires { IsStanding self.now }
        ensures { result ≡ start_is_omissible (seen self.now) (option_copied required.entry) }
    {
        match required {
            Some(name) => self.dtd.syntax().omittag && element::start_omissible(self.dtd, name),
            None => false,
        }
    }

    fn has_reason_to_be_written(&self, required: Option<&Name>) -> bool
        requires { IsStanding self.now }
        ensures { result ≡ has_reason_to_be_written (seen self.now) (option_copied required.entry) }
    {
        match required {
            Some(name) => element::must_be_written(self.dtd, name),
            None => false,
        }
    }

    #[inline(always)]
    #[tactic(auto, unfolding(sgml_theory_reading::specs::Reasons::row))]
    fn content_reason(&self, token: Option<&Name>, is_start: bool, misfit: bool) -> Option<Reason>
        requires standing { IsStanding self.now }
        requires declared { is_declared_token self.now.dtd.now (option_copied token) ≡ true }
        requires misfit { misfit ≡ not (allowed_in (seen self.now) (option_copied token)) }
        ensures { result ≡ content_reason (seen self.now) (option_copied token.entry) is_start }
    {
        let allowed = !misfit;
        let full = self.is_full();
        if allowed && !(is_start && full) {
            return None;
        }
        let standing = *self;
        Some(standing.content_refusal(token, allowed))
    }

    #[inline(never)]
    #[tactic(auto, unfolding(sgml_theory_reading::specs::Reasons::content_refusal, sgml_theory_reading::specs::Reasons::row))]
    fn content_refusal(&self, token: Option<&Name>, allowed: bool) -> Reason
        requires standing { IsStanding self.now }
        requires declared { is_declared_token self.now.dtd.now (option_copied token) ≡ true }
        requires allowed { allowed ≡ allowed_in (seen self.now) (option_copied token) }
        ensures { Some result ≡ content_refusal (seen self.now) (option_copied token.entry) }
    {
        if allowed {
            return Reason::TagLevel;
        }
        let finished = self.is_finished();
        let depth = self.depth();
        if self.is_inferred() && finished {
            return Reason::EmptyInferred;
        }
        if depth == 0 && self.is_begun() {
            return Reason::NotAllowed;
        }
        let fits = self.fits(token);
        if finished && (fits && self.is_excluded(token)) {
            return Reason::Excluded;
        }
        if finished && depth == 1 {
            return Reason::NotAllowed;
        }
        if finished {
            return Reason::OmitUndeclared;
        }
        let required = self.required();
        if self.cannot_be_required(required) {
            return excluded_or_not_allowed(fits);
        }
        if !self.start_is_omissible(required) {
            return Reason::OmitUndeclared;
        }
        if self.has_reason_to_be_written(required) {
            return Reason::NotOmissible;
        }
        Reason::TagLevel
    }

    // Why a start-tag can't stand; its name is asked for only where it can't.
    #[inline(always)]
    fn start_reason(&self, element: u32, misfit: bool) -> Option<Reason>
        requires standing { IsStanding self.now }
        requires number { IsNumber self.now.dtd.now element }
        requires misfit { misfit ≡ not (allowed_in (seen self.now) (Some (name_at self.now.dtd.now element))) }
        ensures { result ≡ content_reason (seen self.now) (Some (name_at self.now.dtd.now element)) true }
    {
        if !misfit && !self.is_full() {
            return None;
        }
        self.content_reason(Some(self.name(element)), true, misfit)
    }

    fn end_is_omissible(&self) -> bool
        requires { IsStanding self.now }
        ensures { result ≡ end_is_omissible (seen self.now) }
    {
        match self.inner() {
            Some(inner) => self.dtd.syntax().omittag && self.dtd.omits(inner.element).end,
            None => false,
        }
    }

    #[inline(never)]
    #[tactic(auto, unfolding(sgml_theory_reading::specs::Reasons::end_refusal, sgml_theory_reading::specs::Reasons::row))]
    fn end_reason(&self, inside: Option<usize>) -> Option<Reason>
        requires { IsStanding self.now }
        ensures { result ≡ end_reason (seen self.now) inside }
    {
        let finished = self.is_finished();
        if is_innermost(inside) && finished {
            return None;
        }
        if inside.is_none() {
            return Some(Reason::NotOpen);
        }
        if !finished || !self.is_begun() {
            return Some(Reason::Unfinished);
        }
        if !self.end_is_omissible() {
            return Some(Reason::OmitUndeclared);
        }
        None
    }

    #[inline(never)]
    #[tactic(auto, unfolding(sgml_theory_reading::specs::Reasons::finish_refusal, sgml_theory_reading::specs::Reasons::row))]
    fn finish_reason(&self) -> Option<Reason>
        requires { IsStanding self.now }
        ensures { result ≡ finish_reason (seen self.now) }
    {
        if self.depth() == 0 && self.is_begun() {
            return None;
        }
        if !self.is_finished() || !self.is_begun() {
            return Some(Reason::Unfinished);
        }
        if !self.end_is_omissible() {
            return Some(Reason::OmitUndeclared);
        }
        None
    }

    // How many elements stand inside the one that `</>` ends.
    pub(crate) fn inside_of_current(&self) -> Option<usize>
        requires standing { IsStanding self.now }
        requires none { self.now.starts.now ≡ [] }
        ensures { result ≡ inside_of_ended (seen self.now) (kind_of self.now.dtd.now EndCurrent) }
    {
        if self.levels.is_empty() {
            None
        } else {
            Some(0)
        }
    }

    // Why the visible piece can't stand, where it can't. No start is inferred before an end.
    #[inline(always)]
    #[tactic(auto, unfolding(sgml_theory_reading::specs::Reasons::reason, sgml_theory_reading::specs::Facets::token, sgml_theory_reading::specs::Facets::is_start))]
    pub(crate) fn reason(&self, visible: Visible, misfit: bool) -> Option<Reason>
        requires standing { IsStanding self.now }
        requires number { IsNumbered self.now.dtd.now visible }
        requires misfit { misfit ≡ misfits (seen self.now) (token (kind_of self.now.dtd.now visible)) }
        requires none { is_content visible ≡ false → self.now.starts.now ≡ [] }
        ensures { result ≡ reason (seen self.now) (kind_of self.now.dtd.now visible) }
    {
        match visible {
            Visible::Start(n) => self.start_reason(n, misfit),
            Visible::Chars => self.content_reason(None, false, misfit),
            Visible::EndTag(n) => self.end_reason(self.inside_of(n)),
            Visible::EndCurrent => self.end_reason(self.inside_of_current()),
            Visible::Net => self.end_reason(self.inside_of_net()),
            Visible::EndDocument => self.finish_reason(),
        }
    }
}
