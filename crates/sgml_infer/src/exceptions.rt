// Which open elements include or exclude a token (11.2.5).
ghost use Rattle.std.specs.Prelude.{◌≡◌, ◌≤◌, ◌||◌, All, length, take};
ghost use Rattle.std.specs.List.{list_any};
ghost use Rattle.std.specs.Option.{option_copied};
ghost use Rattle.sgml_theory_reading.specs.Omission.{is_token_in};
ghost use Rattle.sgml_infer.specs.Tables.{type_at, IsNumber};
ghost use Rattle.sgml_infer.specs.Links.{excepts, has_exceptions, last_link, AreLinked};
ghost use Rattle.sgml_infer.specs.Trees.{IsLevel};

use crate::level::Level;
use sgml_dtd::Dtd;
use sgml_names::has;
use sgml_text::{Name, Names};

// The two lists of exceptions that an element type has.
#[derive(Clone, Copy)]
pub(crate) enum Exception {
    Inclusion,
    Exclusion,
}

fn is_in(token: Option<&Name>, names: &Names) -> bool
    ensures { result ≡ is_token_in (option_copied token.entry) names.now }
{
    match token {
        Some(name) => has(names.items(), name.items()),
        None => false,
    }
}

// Whether an element type has an exception for the token.
fn excepts(dtd: &Dtd, element: u32, exception: Exception, token: Option<&Name>) -> bool
    requires { IsNumber dtd.now element }
    ensures { result ≡ excepts dtd.now exception (option_copied token.entry) element }
{
    let exceptions = dtd.exceptions(element);
    match exception {
        Exception::Inclusion => is_in(token, &exceptions.included),
        Exception::Exclusion => is_in(token, &exceptions.excluded),
    }
}

// Whether it has inclusions or exclusions.
#[inline(always)]
pub(crate) fn has_exceptions(dtd: &Dtd, element: u32) -> bool
    requires { IsNumber dtd.now element }
    ensures { result ≡ has_exceptions (type_at dtd.now element) }
{
    let exceptions = dtd.exceptions(element);
    !exceptions.included.items().is_empty() || !exceptions.excluded.items().is_empty()
}

// How many of the first so many open elements there are up to the innermost one with exceptions.
#[inline(always)]
pub(crate) fn nearest(levels: &[Level], count: usize) -> usize
    requires { count ≤ length levels.now }
    ensures { result ≡ last_link 0 (take count levels.now) }
{
    if count == 0 {
        0
    } else {
        levels[count - 1].excepted as usize
    }
}

// Whether one of these open elements has an exception for the token.
#[inline(always)]
fn any_excepts(dtd: &Dtd, levels: &[Level], exception: Exception, token: Option<&Name>) -> bool
    requires levels { All (IsLevel dtd.now) levels.now }
    requires linked { AreLinked dtd.now levels.now }
    ensures { result ≡ list_any (λ l. excepts dtd.now exception (option_copied token.entry) l.element) levels.now }
{
    match token {
        None => return false,
        Some(_) => {}
    }
    let mut at = nearest(levels, levels.len());
    'outward: while at > 0 {
        let level = &levels[at - 1];
        if excepts(dtd, level.element, exception, token) {
            return true;
        }
        at = nearest(levels, at - 1);
    }
    false
}

// Whether one of these element types has an exception for the token.
fn some_excepts(dtd: &Dtd, elements: &[u32], exception: Exception, token: Option<&Name>) -> bool
    requires { All (IsNumber dtd.now) elements.now }
    ensures { result ≡ list_any (excepts dtd.now exception (option_copied token.entry)) elements.now }
{
    for element in elements {
        if excepts(dtd, *element, exception, token) {
            return true;
        }
    }
    false
}

// Whether one of these open elements, or of the element types that start inside them, has an exception
// for the token.
#[inline(never)]
pub(crate) fn one_excepts(
    dtd: &Dtd,
    levels: &[Level],
    starts: &[u32],
    exception: Exception,
    token: Option<&Name>,
) -> bool
    requires levels { All (IsLevel dtd.now) levels.now }
    requires linked { AreLinked dtd.now levels.now }
    requires starts { All (IsNumber dtd.now) starts.now }
    ensures { result ≡ (list_any (excepts dtd.now exception (option_copied token.entry)) starts.now
        || list_any (λ l. excepts dtd.now exception (option_copied token.entry) l.element) levels.now) }
{
    some_excepts(dtd, starts, exception, token) || any_excepts(dtd, levels, exception, token)
}
