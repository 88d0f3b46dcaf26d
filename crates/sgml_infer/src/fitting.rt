// How a visible piece fits where it comes.
ghost use Rattle.std.specs.Prelude.{◌≡◌, ◌&&◌, [], MatchBool, None, Some, true, false, not};
ghost use Rattle.std.specs.Option.{option_copied};
ghost use Rattle.sgml_theory_reading.specs.Facets.{token};
ghost use Rattle.sgml_theory_reading.specs.Omission.{is_declared_token, allowed, fits, finished, misfits};
ghost use Rattle.sgml_theory_reading.specs.Reasons.{is_innermost};
ghost use Rattle.sgml_infer.specs.Tables.{name_at, IsNumber};
ghost use Rattle.sgml_infer.specs.Seen.{seen, is_proper_here, IsUnopposed, IsStanding};
ghost use Rattle.sgml_infer.specs.Visibles.{kind_of, kind_in, IsNumbered, IsFit};

use crate::reasons::is_innermost;
use crate::standing::Standing;
use crate::visible::Visible;
use sgml_text::Name;

/// How a visible piece fits in the innermost element.
#[derive(Clone, Copy)]
pub struct Fit {
    // It is content that isn't allowed.
    pub(crate) misfit: bool,
    // It is the start of an element that an open one includes, or that doesn't fit.
    pub(crate) included: bool,
}

// That of an end-tag, NET or the end of the document.
const NO_CONTENT: Fit = Fit {
    misfit: false,
    included: false,
};

impl Standing<'_> {
    // A start fits, as a proper one or not.
    #[inline(always)]
    fn fits_start(&self, name: &Name, proper: bool) -> bool
        requires standing { IsStanding self.now }
        requires declared { is_declared_token self.now.dtd.now (Some name.now) ≡ true }
        requires proper { proper ≡ is_proper_here (seen self.now) (Some name.now) }
        ensures { result ≡ fits (seen self.now) (Some name.now) }
    {
        if proper {
            return true;
        }
        match self.inner() {
            Some(inner) => { self.is_included(Some(name)) && self.has_model(inner.element) }
            None => false,
        }
    }

    #[inline(always)]
    fn fit_of_start(&self, number: u32, name: &Name) -> Fit
        requires standing { IsStanding self.now }
        requires declared { is_declared_token self.now.dtd.now (Some name.now) ≡ true }
        requires number { IsNumber self.now.dtd.now number }
        requires named { name.now ≡ name_at self.now.dtd.now number }
        ensures misfit { result.misfit ≡ not (allowed (seen self.now) (Some name.now)) }
        ensures included { result.included ≡ not (is_proper_here (seen self.now) (Some name.now)) }
    {
        let proper = self.is_proper(number, name);
        let fits = self.fits_start(name, proper);
        Fit {
            misfit: !self.allows_fitting(Some(name), fits),
            included: !proper,
        }
    }

    // Characters are allowed where they fit, since no element excludes them.
    #[inline(always)]
    fn fit_of_chars(&self) -> Fit
        requires { IsStanding self.now }
        ensures misfit { result.misfit ≡ not (allowed (seen self.now) None) }
        ensures included { result.included ≡ false }
    {
        Fit {
            misfit: !self.fits(None),
            included: false,
        }
    }

    #[inline(always)]
    #[tactic(auto, unfolding(sgml_theory_reading::specs::Facets::token))]
    pub(crate) fn fit(&self, visible: Visible) -> Fit
        requires standing { IsStanding self.now }
        requires number { IsNumbered self.now.dtd.now visible }
        ensures { IsFit (seen self.now) (kind_of self.now.dtd.now visible) result }
    {
        match visible {
            Visible::Start(n) => self.fit_of_start(n, self.name(n)),
            Visible::Chars => self.fit_of_chars(),
            Visible::EndTag(_) => NO_CONTENT,
            Visible::EndCurrent => NO_CONTENT,
            Visible::Net => NO_CONTENT,
            Visible::EndDocument => NO_CONTENT,
        }
    }

    // Ends the innermost element, which is finished, where it ends one.
    #[inline(always)]
    fn ends_innermost(&self, inside: Option<usize>) -> bool
        requires { IsStanding self.now }
        ensures { result ≡ (is_innermost inside && finished (seen self.now)) }
    {
        is_innermost(inside) && self.is_finished()
    }

    // Whether it is plain that the visible piece may stand as it comes, with no tag left out before it.
    #[inline(always)]
    #[tactic(auto, unfolding(sgml_theory_reading::specs::Facets::token, sgml_theory_reading::specs::Facets::is_start))]
    pub(crate) fn is_unopposed(&self, visible: Visible, misfit: bool) -> bool
        requires standing { IsStanding self.now }
        requires number { IsNumbered self.now.dtd.now visible }
        requires none { self.now.starts.now ≡ [] }
        requires misfit { misfit ≡ misfits (seen self.now) (token (kind_in self.now visible)) }
        ensures { MatchBool result (IsUnopposed (seen self.now) (kind_in self.now visible)) (Unit {0}) }
    {
        match visible {
            Visible::Start(_) => !misfit && !self.is_full(),
            Visible::Chars => !misfit,
            Visible::EndTag(element) => self.ends_innermost(self.inside_of(element)),
            Visible::EndCurrent => self.ends_innermost(self.inside_of_current()),
            Visible::Net => self.ends_innermost(self.inside_of_net()),
            Visible::EndDocument => false,
        }
    }
}
