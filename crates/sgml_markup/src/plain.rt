// The attribute specifications of a tag that are a name, `=` and a value with nothing between them.
ghost use Rattle.std.specs.Prelude.{◌≡◌, ◌≤◌, ◌<◌, ◌+◌, ◌∷◌, Bool, false, true, drop, length, IfSome, IsTrue};
ghost use Rattle.sgml_text.specs.Characters.{is_quote, is_separator};
ghost use Rattle.sgml_text.specs.NameCharacters.{is_name_character, is_name_start};
ghost use Rattle.sgml_syntax.specs.declared.syntax.Syntax.{Syntax};
ghost use Rattle.sgml_markup.specs.declared.kinds.PartKind.TheVariants as kind;
ghost use Rattle.sgml_markup.specs.declared.kinds.TagState.TheVariants as state;
ghost use Rattle.sgml_markup.specs.Forms.{parts_of_tag, unclosed};
ghost use Rattle.sgml_markup.specs.Tags.{tag_parts, HasSameParts};
ghost use Rattle.sgml_markup.specs.Walks.{BeginsAt, HasName, HasBare, HasLiteral};

use crate::kinds::{Part, PartKind};
use crate::quick::after;
use crate::tags::{begins_slash, begins_tagc, length_before, unclosed};
use sgml_syntax::Syntax;
use sgml_text::{is_quote, is_separator};

/// Where the specifications of a start-tag begin, directly behind the element's name or one separator; 0 where
/// another thing stands there.
#[inline(always)]
pub fn specifications_begin(syntax: &Syntax, markup: &[u8]) -> usize
    ensures begins { (0 < result) → BeginsAt syntax.now markup.now result }
    ensures within { result ≤ length (unclosed markup.now) }
{
    match specifications_at(syntax, markup) {
        Some((_, at)) => at,
        None => 0,
    }
}

/// Where the name of an attribute ends that begins at this place of a tag without the delimiter that closes it, with
/// `=` directly behind it; 0 where another thing stands there.
#[inline(always)]
pub fn name_end(syntax: &Syntax, body: &[u8], at: usize) -> usize
    ensures named { (0 < result) → HasName syntax.now body.now at result }
    ensures on { (0 < result) → at < result }
    ensures within { (0 < result) → result < length body.now }
{
    if at >= body.len() || !begins_name(syntax, body[at]) {
        return 0;
    }
    let to = at + 1 + syntax.names.name_length(after(body, at + 1));
    if to == body.len() || !is_sign(syntax, body[to]) {
        return 0;
    }
    to
}

/// Where the value without quotes ends that begins at this place; 0 where another thing stands there.
#[inline(always)]
pub fn bare_end(syntax: &Syntax, body: &[u8], at: usize) -> usize
    ensures value { (0 < result) → HasBare syntax.now body.now at result }
    ensures on { (0 < result) → at < result }
    ensures within { result ≤ length body.now }
{
    if at >= body.len() || !begins_bare(syntax, body[at]) {
        return 0;
    }
    let to = at + 1 + syntax.names.name_length(after(body, at + 1));
    if to == body.len() {
        return to;
    }
    if ends_name(syntax, body[to]) { to } else { 0 }
}

/// Where the literal ends that begins at this place, before its quote; 0 where another thing stands there.
#[inline(always)]
pub fn literal_end(body: &[u8], at: usize) -> usize
    ensures value { (0 < result) → HasLiteral body.now at result }
    ensures on { (0 < result) → at < result }
    ensures within { (0 < result) → result < length body.now }
{
    if at >= body.len() || !begins_literal(body[at]) {
        return 0;
    }
    let q = body[at];
    let to = at + 1 + length_before(q, after(body, at + 1));
    if to == body.len() || !is_end(q, body[to]) {
        return 0;
    }
    to
}

// An attribute specification of a tag, and where the next one may begin behind it.
#[derive(Clone, Copy, Debug)]
pub(crate) struct PlainSpecification {
    pub(crate) name: Part,
    pub(crate) value: Part,
    pub(crate) behind: usize,
}

// The specification that begins at this place of a tag without the delimiter that closes it, where it is a
// name, `=` and a value with nothing between them; none where something else stands there.
#[inline(always)]
pub(crate) fn plain_specification(
    syntax: &Syntax,
    body: &[u8],
    at: usize,
) -> Option<PlainSpecification>
    ensures parts { IfSome result (λ r. (closing : Bool) → tag_parts syntax.now closing at state.Ready (drop at body.now)
        ≡ r.name ∷ (r.value ∷ tag_parts syntax.now closing r.behind state.Ready (drop r.behind body.now))) }
    ensures named { IfSome result (λ r. r.name.kind ≡ kind.AttributeName) }
    ensures name { IfSome result (λ r. (r.name.from ≤ r.name.to) × (r.name.to ≤ length body.now)) }
    ensures value { IfSome result (λ r. (r.value.from ≤ r.value.to) × (r.value.to ≤ length body.now)) }
    ensures behind { IfSome result (λ r. (at < r.behind) × (r.behind ≤ length body.now)) }
{
    let Some(name) = name_at(syntax, body, at) else {
        return None;
    };
    let Some((value, behind)) = value_at(syntax, body, name.to + 1) else {
        return None;
    };
    Some(PlainSpecification {
        name,
        value,
        behind,
    })
}

// Where the specifications of a start-tag begin, directly behind the element's name or one separator; none
// where another thing stands there.
#[inline(always)]
pub(crate) fn specifications_at(syntax: &Syntax, markup: &[u8]) -> Option<(Part, usize)>
    ensures parts { IfSome result (λ r. parts_of_tag syntax.now markup.now
        ≡ r.0 ∷ tag_parts syntax.now false r.1 state.Ready (drop r.1 (unclosed markup.now))) }
    ensures named { IfSome result (λ r. r.0.kind ≡ kind.ElementName) }
    ensures within { IfSome result (λ r. r.1 ≤ length (unclosed markup.now)) }
{
    let [_, rest @ ..] = markup else {
        return None;
    };
    if begins_tagc(rest) || begins_slash(rest) {
        return None;
    }
    element_at(syntax, unclosed(markup))
}

// The name of the element, behind the delimiter, and where the specifications begin.
#[inline(always)]
fn element_at(syntax: &Syntax, body: &[u8]) -> Option<(Part, usize)>
    ensures parts { IfSome result (λ r. tag_parts syntax.now false 1 (state.ElementName 1) (drop 1 body.now)
        ≡ r.0 ∷ tag_parts syntax.now false r.1 state.Ready (drop r.1 body.now)) }
    ensures named { IfSome result (λ r. r.0.kind ≡ kind.ElementName) }
    ensures within { IfSome result (λ r. r.1 ≤ length body.now) }
{
    if body.len() < 2 {
        return None;
    }
    let at = 1 + syntax.names.name_length(after(body, 1));
    let part = Part {
        kind: PartKind::ElementName,
        from: 1,
        to: at,
    };
    if at == body.len() {
        return Some((part, at));
    }
    if ends_name(syntax, body[at]) {
        Some((part, at + 1))
    } else {
        None
    }
}

#[inline(always)]
pub(crate) fn ends_name(syntax: &Syntax, b: u8) -> bool
    ensures separator { IsTrue result → is_separator b ≡ true }
    ensures other { IsTrue result → is_name_character syntax.now.names b ≡ false }
{
    is_separator(b) && !syntax.names.goes_on(b)
}

// The name of an attribute that begins at this place, with `=` behind it; none where another thing stands
// there, or something between the name and `=`.
#[inline(always)]
pub(crate) fn name_at(syntax: &Syntax, body: &[u8], at: usize) -> Option<Part>
    ensures parts { IfSome result (λ p. (closing : Bool) → tag_parts syntax.now closing at state.Ready (drop at body.now)
        ≡ p ∷ tag_parts syntax.now closing (p.to + 1) state.Value (drop (p.to + 1) body.now)) }
    ensures named { IfSome result (λ p. p.kind ≡ kind.AttributeName) }
    ensures within { IfSome result (λ p. (at ≤ p.from) × (p.from ≤ p.to) × (p.to < length body.now)) }
{
    if at >= body.len() || !begins_name(syntax, body[at]) {
        return None;
    }
    let to = at + 1 + syntax.names.name_length(after(body, at + 1));
    if to == body.len() || !is_sign(syntax, body[to]) {
        return None;
    }
    Some(Part {
        kind: PartKind::AttributeName,
        from: at,
        to,
    })
}

#[inline(always)]
fn begins_name(syntax: &Syntax, b: u8) -> bool
    ensures separator { IsTrue result → is_separator b ≡ false }
    ensures name { IsTrue result → is_name_character syntax.now.names b ≡ true }
    ensures start { IsTrue result → is_name_start syntax.now.names b ≡ true }
{
    !is_separator(b) && syntax.names.goes_on(b) && syntax.names.begins(b)
}

// Whether it is the `=` behind a name.
#[inline(always)]
fn is_sign(syntax: &Syntax, b: u8) -> bool
    ensures sign { IsTrue result → b ≡ 61 }
    ensures other { IsTrue result → is_name_character syntax.now.names b ≡ false }
{
    b == b'=' && !syntax.names.goes_on(b)
}

// The value that begins at this place, and where the next specification may begin behind it; none where
// another thing stands there.
#[inline(always)]
pub(crate) fn value_at(syntax: &Syntax, body: &[u8], at: usize) -> Option<(Part, usize)>
    ensures parts { IfSome result (λ r. (closing : Bool) → tag_parts syntax.now closing at state.Value (drop at body.now)
        ≡ r.0 ∷ tag_parts syntax.now closing r.1 state.Ready (drop r.1 body.now)) }
    ensures within { IfSome result (λ r. (r.0.from ≤ r.0.to) × (r.0.to ≤ length body.now)) }
    ensures behind { IfSome result (λ r. (at ≤ r.1) × (r.1 ≤ length body.now)) }
{
    if at < body.len() && begins_literal(body[at]) {
        quoted_at(body, at)
    } else {
        bare_at(syntax, body, at)
    }
}

// The value without quotes that begins at this place.
#[inline(always)]
pub(crate) fn bare_at(syntax: &Syntax, body: &[u8], at: usize) -> Option<(Part, usize)>
    ensures parts { IfSome result (λ r. (closing : Bool) → tag_parts syntax.now closing at state.Value (drop at body.now)
        ≡ r.0 ∷ tag_parts syntax.now closing r.1 state.Ready (drop r.1 body.now)) }
    ensures within { IfSome result (λ r. (r.0.from ≤ r.0.to) × (r.0.to ≤ length body.now)) }
    ensures behind { IfSome result (λ r. (at ≤ r.1) × (r.1 ≤ length body.now)) }
{
    if at >= body.len() || !begins_bare(syntax, body[at]) {
        return None;
    }
    let to = at + 1 + syntax.names.name_length(after(body, at + 1));
    let part = Part {
        kind: PartKind::Bare,
        from: at,
        to,
    };
    if to == body.len() {
        return Some((part, to));
    }
    if ends_name(syntax, body[to]) {
        Some((part, to + 1))
    } else {
        None
    }
}

#[inline(always)]
fn begins_bare(syntax: &Syntax, b: u8) -> bool
    ensures separator { IsTrue result → is_separator b ≡ false }
    ensures quote { IsTrue result → is_quote b ≡ false }
    ensures name { IsTrue result → is_name_character syntax.now.names b ≡ true }
    ensures bare { IsTrue result → syntax.now.shorttag ≡ true }
{
    syntax.shorttag && !is_separator(b) && !is_quote(b) && syntax.names.goes_on(b)
}

// The literal that begins at this place.
#[inline(always)]
pub(crate) fn quoted_at(body: &[u8], at: usize) -> Option<(Part, usize)>
    ensures parts { IfSome result (λ r. (syntax : Syntax) (closing : Bool) → tag_parts syntax closing at state.Value (drop at body.now)
        ≡ r.0 ∷ tag_parts syntax closing r.1 state.Ready (drop r.1 body.now)) }
    ensures within { IfSome result (λ r. (r.0.from ≤ r.0.to) × (r.0.to ≤ length body.now)) }
    ensures behind { IfSome result (λ r. (at ≤ r.1) × (r.1 ≤ length body.now)) }
{
    if at >= body.len() || !begins_literal(body[at]) {
        return None;
    }
    let q = body[at];
    let to = at + 1 + length_before(q, after(body, at + 1));
    if to == body.len() || !is_end(q, body[to]) {
        return None;
    }
    let part = Part {
        kind: PartKind::Quoted,
        from: at + 1,
        to,
    };
    Some((part, behind_separators(body, to + 1)))
}

/// Behind the separators that stand at this place, where the next specification may begin.
#[inline(always)]
pub fn behind_separators(body: &[u8], at: usize) -> usize
    requires { at ≤ length body.now }
    ensures parts { HasSameParts body.now at result }
    ensures on { at ≤ result }
    ensures within { result ≤ length body.now }
{
    let mut to = at;
    'separators: while to < body.len() && is_separator(body[to]) {
        to += 1;
    }
    to
}

#[inline(always)]
fn begins_literal(b: u8) -> bool
    ensures separator { IsTrue result → is_separator b ≡ false }
    ensures quote { IsTrue result → is_quote b ≡ true }
{
    !is_separator(b) && is_quote(b)
}

#[inline(always)]
fn is_end(q: u8, b: u8) -> bool
    ensures { IsTrue result → b ≡ q }
{
    b == q
}
