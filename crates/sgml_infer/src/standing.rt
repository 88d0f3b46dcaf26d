// What may stand in the innermost open element, at some point of a walk.
ghost use Rattle.std.specs.Prelude.{◌≡◌, ◌≤◌, Some, IfSome, MatchBool, MatchOption, is_some, length, [], true, false};
ghost use Rattle.std.specs.Option.{option_copied};
ghost use Rattle.sgml_automaton.specs.model.Term.{required};
ghost use Rattle.sgml_automaton.specs.model.Choice.{left_by};
ghost use Rattle.sgml_theory_reading.specs.Facets.{Token};
ghost use Rattle.sgml_theory_reading.specs.Omission.{left_in, left_of, is_declared_token, is_included, is_excluded, allowed, fits as token_fits, finished, depth};
ghost use Rattle.sgml_infer.specs.declared.exceptions.Exception.{Exception};
ghost use Rattle.sgml_infer.specs.Tables.{name_at, type_at, IsNumber};
ghost use Rattle.sgml_infer.specs.Known.{known_of, first_at};
ghost use Rattle.sgml_theory_reading.specs.Types.{has_model, content_of};
ghost use Rattle.sgml_infer.specs.Trees.{context_with};
ghost use Rattle.sgml_infer.specs.Seen.{seen, some_excepts, kept, is_proper_here, IsStanding, IsInner};

use crate::element;
use crate::exceptions::{Exception, nearest, one_excepts};
use crate::known::{Known, is_model, known_at};
use crate::level::Level;
use crate::steps::Steps;
use sgml_automaton::ModelState;
use sgml_dtd::Dtd;
use sgml_text::Name;

// Open elements, the innermost last, and elements that were inferred inside them. The last of these
// is at its start.
#[derive(Clone, Copy)]
pub(crate) struct Standing<'a> {
    pub(crate) dtd: &'a Dtd,
    pub(crate) levels: &'a [Level],
    pub(crate) begun: bool,
    pub(crate) starts: &'a [u32],
    pub(crate) fresh: &'a ModelState,
    pub(crate) steps: &'a Steps,
    pub(crate) known: &'a [Known],
}

// The innermost element, and where it stands in its model.
#[derive(Clone, Copy)]
pub(crate) struct Inner<'a> {
    pub(crate) element: u32,
    pub(crate) state: &'a ModelState,
    pub(crate) position: u64,
}

// The token is the document element.
#[inline(never)]
fn takes_document(dtd: &Dtd, begun: bool, token: Option<&Name>) -> bool
    ensures { result ≡ is_some (left_by (left_in dtd.now [] begun) (option_copied token.entry)) }
{
    if begun || !dtd.has_doctype() {
        return false;
    }
    match token {
        Some(name) => dtd.doctype().items() == name.items(),
        None => false,
    }
}

impl Standing<'_> {
    // What is known of an element type.
    #[inline(always)]
    pub(crate) fn known(&self, element: u32) -> &Known
        requires standing { IsStanding self.now }
        requires number { IsNumber self.now.dtd.now element }
        ensures { result.now ≡ known_of self.now.dtd.now element }
    {
        known_at(self.known, element)
    }

    // The name of an element type.
    #[inline(always)]
    pub(crate) fn name(&self, element: u32) -> &Name
        requires standing { IsStanding self.now }
        requires number { IsNumber self.now.dtd.now element }
        ensures { result.now ≡ name_at self.now.dtd.now element }
    {
        &self.known(element).name
    }

    // Whether its content is a model.
    #[inline(always)]
    pub(crate) fn has_model(&self, element: u32) -> bool
        requires standing { IsStanding self.now }
        requires number { IsNumber self.now.dtd.now element }
        ensures { result ≡ has_model (content_of (type_at self.now.dtd.now element)) }
    {
        is_model(self.known(element).content)
    }

    // Whether O stands for its end-tag.
    #[inline(always)]
    pub(crate) fn omits_end(&self, element: u32) -> bool
        requires standing { IsStanding self.now }
        requires number { IsNumber self.now.dtd.now element }
        ensures { result ≡ (type_at self.now.dtd.now element).omits.end }
    {
        self.known(element).omits_end
    }

    // Only the first so many of the open elements, with no start inferred.
    #[inline(always)]
    pub(crate) fn kept(&self, count: usize) -> Standing<'_>
        requires standing { IsStanding self.now }
        requires count { count ≤ length self.now.levels.now }
        ensures standing { IsStanding result }
        ensures doctype { result.dtd.now ≡ self.now.dtd.now }
        ensures none { result.starts.now ≡ [] }
        ensures seen { seen result ≡ kept self.now count }
    {
        Standing {
            dtd: self.dtd,
            levels: &self.levels[..count],
            begun: self.begun,
            starts: &[],
            fresh: self.fresh,
            steps: self.steps,
            known: self.known,
        }
    }

    #[inline(always)]
    pub(crate) fn depth(&self) -> usize
        ensures { result ≡ depth (seen self.now) }
    {
        self.levels.len() + self.starts.len()
    }

    #[inline(always)]
    pub(crate) fn inner(&self) -> Option<Inner<'_>>
        requires { IsStanding self.now }
        ensures { MatchOption result
            (seen self.now ≡ context_with self.now.dtd.now [] self.now.begun)
            (λ i. IsInner self.now.dtd.now i.element i.position i.state.now (seen self.now)) }
    {
        if let Some(element) = self.starts.last() {
            return Some(Inner {
                element: *element,
                state: self.fresh,
                position: 0,
            });
        }
        match self.levels.last() {
            Some(level) => Some(Inner {
                element: level.element,
                state: &level.state,
                position: level.position,
            }),
            None => None,
        }
    }

    // No element has inclusions or exclusions.
    #[inline(always)]
    fn has_no_exceptions(&self) -> bool
        requires { IsStanding self.now }
        ensures { MatchBool result ((x : Exception) (k : Token) → some_excepts self.now x k ≡ false) (Unit {0}) }
    {
        self.starts.is_empty() && nearest(self.levels, self.levels.len()) == 0
    }

    // Whether one of the elements has such an exception for the token.
    #[inline(always)]
    fn excepts(&self, exception: Exception, token: Option<&Name>) -> bool
        requires { IsStanding self.now }
        ensures { result ≡ some_excepts self.now exception (option_copied token.entry) }
    {
        one_excepts(self.dtd, self.levels, self.starts, exception, token)
    }

    #[inline(always)]
    pub(crate) fn is_included(&self, token: Option<&Name>) -> bool
        requires { IsStanding self.now }
        ensures { result ≡ is_included self.now.dtd.now (seen self.now).levels (option_copied token.entry) }
    {
        !self.has_no_exceptions() && self.excepts(Exception::Inclusion, token)
    }

    #[inline(always)]
    pub(crate) fn is_excluded(&self, token: Option<&Name>) -> bool
        requires { IsStanding self.now }
        ensures { result ≡ is_excluded (seen self.now) (option_copied token.entry) }
    {
        !self.has_no_exceptions() && self.excepts(Exception::Exclusion, token)
    }

    #[inline(always)]
    pub(crate) fn is_finished(&self) -> bool
        requires { IsStanding self.now }
        ensures { result ≡ finished (seen self.now) }
    {
        match self.inner() {
            Some(inner) => element::is_finished(self.dtd, inner.element, inner.state),
            None => self.begun || !self.dtd.has_doctype(),
        }
    }

    #[inline(always)]
    pub(crate) fn required(&self) -> Option<&Name>
        requires { IsStanding self.now }
        ensures { option_copied result ≡ required (left_of (seen self.now)) }
    {
        match self.inner() {
            Some(inner) => element::required(self.dtd, inner.element, inner.state),
            None => {
                if self.begun || !self.dtd.has_doctype() {
                    return None;
                }
                Some(self.dtd.doctype())
            }
        }
    }

    // The element type that must come first in the innermost element, which is at its start.
    #[inline(always)]
    pub(crate) fn first(&self) -> Option<u32>
        requires { IsStanding self.now }
        ensures number { IfSome result (IsNumber self.now.dtd.now) }
        ensures required { IfSome result (λ n. required (left_of (seen self.now)) ≡ Some (name_at self.now.dtd.now n)) }
    {
        match self.inner() {
            Some(inner) => self.first_in(inner.element, inner.position),
            None => None,
        }
    }

    // The same, in an element that stands at this position of its model.
    #[inline(always)]
    fn first_in(&self, element: u32, position: u64) -> Option<u32>
        requires standing { IsStanding self.now }
        requires number { IsNumber self.now.dtd.now element }
        ensures { IfSome result (λ n. (position ≡ 0) × (first_at self.now.dtd.now element ≡ Some n)) }
    {
        if position > 0 {
            return None;
        }
        self.known(element).first
    }

    #[inline(always)]
    pub(crate) fn fits(&self, token: Option<&Name>) -> bool
        requires standing { IsStanding self.now }
        requires declared { is_declared_token self.now.dtd.now (option_copied token) ≡ true }
        ensures { result ≡ token_fits (seen self.now) (option_copied token.entry) }
    {
        match self.inner() {
            Some(inner) => {
                if element::fits(self.dtd, inner.element, inner.state, token) {
                    return true;
                }
                self.has_model(inner.element) && self.is_included(token)
            }
            None => takes_document(self.dtd, self.begun, token),
        }
    }

    // A token is allowed where it fits and no element excludes it.
    #[inline(always)]
    pub(crate) fn allows_fitting(&self, token: Option<&Name>, fits: bool) -> bool
        requires standing { IsStanding self.now }
        requires fits { fits ≡ token_fits (seen self.now) (option_copied token) }
        ensures { result ≡ allowed (seen self.now) (option_copied token.entry) }
    {
        fits && !self.is_excluded(token)
    }

    // The model takes the element type itself, or each declared one may stand there.
    #[inline(always)]
    pub(crate) fn is_proper(&self, number: u32, name: &Name) -> bool
        requires standing { IsStanding self.now }
        requires declared { is_declared_token self.now.dtd.now (Some name.now) ≡ true }
        requires number { IsNumber self.now.dtd.now number }
        requires named { name.now ≡ name_at self.now.dtd.now number }
        ensures { result ≡ is_proper_here (seen self.now) (Some name.now) }
    {
        match self.inner() {
            Some(inner) => element::is_proper_start(
                self.dtd,
                self.steps,
                inner.element,
                inner.state,
                inner.position,
                number,
            ),
            None => takes_document(self.dtd, self.begun, Some(name)),
        }
    }
}
