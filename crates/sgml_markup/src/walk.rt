// The parts of a scanned tag, one after another.
ghost use Rattle.std.specs.Prelude.{◌≡◌, ◌≤◌, ◌∷◌, [], ℕ, List, false, drop, length, slice_get, IfSome};
ghost use Rattle.sgml_syntax.specs.declared.syntax.Syntax.{Syntax};
ghost use Rattle.sgml_markup.specs.Forms.{parts_of_tag, unclosed};
ghost use Rattle.sgml_markup.specs.declared.kinds.PartKind.TheVariants as kind;
ghost use Rattle.sgml_markup.specs.declared.kinds.TagState.TheVariants as state;
ghost use Rattle.sgml_markup.specs.Tags.{tag_parts};
ghost use Rattle.sgml_markup.specs.Walks.{nowhere, walk_from, parts_left, IsNext, StandsIn, BeginsTag};

use crate::kinds::{Part, PartKind, TagState};
use crate::plain::{
    bare_at, ends_name, name_at, plain_specification, quoted_at, specifications_at,
};
use crate::quick::after;
use crate::tags::{after_name, begins_slash, begins_tagc, tag_last, tag_step, unchanged, unclosed};
use sgml_syntax::Syntax;

/// Where a walk over the parts of a tag stands.
#[derive(Clone, Copy, Debug)]
pub struct TagWalk {
    pub closing: bool,
    pub state: TagState,
    pub at: usize,
    /// No part is left.
    pub ended: bool,
}

/// A walk over the parts of a scanned tag, at its first part (7.4, 7.5, 7.9). An empty tag has none.
pub fn tag_walk(markup: &[u8]) -> TagWalk
    ensures parts { (s : Syntax) → parts_left s markup.now result ≡ parts_of_tag s markup.now }
    ensures stands { StandsIn markup.now result }
{
    match markup {
        [] => no_walk(),
        [_, rest @ ..] => {
            if begins_tagc(rest) {
                no_walk()
            } else if !begins_slash(rest) {
                walk_from(false, 1)
            } else if begins_tagc(&rest[1..]) {
                no_walk()
            } else {
                walk_from(true, 2)
            }
        }
    }
}

fn no_walk() -> TagWalk
    ensures { result ≡ nowhere }
{
    TagWalk {
        closing: false,
        state: TagState::Failed,
        at: 0,
        ended: true,
    }
}

fn walk_from(closing: bool, start: usize) -> TagWalk
    ensures { result ≡ walk_from closing start }
{
    TagWalk {
        closing,
        state: TagState::ElementName(start),
        at: start,
        ended: false,
    }
}

// The name of the element, where the walk stands in it, and the walk behind it; none where it stands in
// another part, or where neither the tag nor the name ends behind the name's bytes.
#[inline(always)]
fn name_part(syntax: &Syntax, markup: &[u8], walk: TagWalk) -> Option<(Part, TagWalk)>
    requires { StandsIn markup.now walk }
    ensures parts { IfSome result (λ r. parts_left syntax.now markup.now walk ≡ r.0 ∷ parts_left syntax.now markup.now r.1) }
    ensures named { IfSome result (λ r. r.0.kind ≡ kind.ElementName) }
    ensures within { IfSome result (λ r. (r.0.from ≤ r.0.to) × (r.0.to ≤ length markup.now)) }
    ensures stands { IfSome result (λ r. StandsIn markup.now r.1) }
{
    if walk.ended {
        return None;
    }
    let TagState::ElementName(from) = walk.state else {
        return None;
    };
    let body = unclosed(markup);
    if walk.at > body.len() {
        return None;
    }
    let at = walk.at + syntax.names.name_length(after(body, walk.at));
    let part = Part {
        kind: PartKind::ElementName,
        from,
        to: at,
    };
    if at == body.len() {
        let behind = TagWalk {
            at,
            ended: true,
            ..walk
        };
        return Some((part, behind));
    }
    if !ends_name(syntax, body[at]) {
        return None;
    }
    let behind = TagWalk {
        state: after_name(walk.closing),
        at: at + 1,
        ..walk
    };
    Some((part, behind))
}

/// The one part of a tag that has a name alone, and nothing between that and its delimiters.
pub fn lone_name(syntax: &Syntax, markup: &[u8]) -> Option<Part>
    ensures parts { IfSome result (λ p. parts_of_tag syntax.now markup.now ≡ p ∷ []) }
    ensures named { IfSome result (λ p. p.kind ≡ kind.ElementName) }
    ensures within { IfSome result (λ p. (p.from ≤ p.to) × (p.to ≤ length markup.now)) }
{
    let Some((part, behind)) = name_part(syntax, markup, tag_walk(markup)) else {
        return None;
    };
    if behind.ended { Some(part) } else { None }
}

// The walk at this place of the tag, where the next specification may begin.
#[inline(always)]
fn ready_at(closing: bool, body: &[u8], at: usize) -> TagWalk
    requires { at ≤ length body.now }
    ensures parts { (s : Syntax) (markup : List ℕ) → body.now ≡ unclosed markup
        → parts_left s markup result ≡ tag_parts s closing at state.Ready (drop at body.now) }
    ensures stands { (markup : List ℕ) → length body.now ≤ length markup → StandsIn markup result }
{
    TagWalk {
        closing,
        state: TagState::Ready,
        at,
        ended: at == body.len(),
    }
}

/// The walk of a start-tag at this place of it, where a specification may begin.
#[inline(always)]
pub fn walk_at(markup: &[u8], at: usize) -> TagWalk
    requires { at ≤ length (unclosed markup.now) }
    ensures parts { (s : Syntax) → parts_left s markup.now result ≡ tag_parts s false at state.Ready (drop at (unclosed markup.now)) }
    ensures stands { StandsIn markup.now result }
{
    ready_at(false, unclosed(markup), at)
}

/// An attribute specification of a tag, and the walk behind it.
#[derive(Clone, Copy, Debug)]
pub struct NextSpecification {
    pub name: Part,
    pub value: Part,
    pub behind: TagWalk,
}

/// The specification at which the walk stands, where it is a name, `=` and a value with nothing between them;
/// none where something else stands there.
#[inline(always)]
pub fn next_specification(
    syntax: &Syntax,
    markup: &[u8],
    walk: TagWalk,
) -> Option<NextSpecification>
    ensures parts { IfSome result (λ r. parts_left syntax.now markup.now walk
        ≡ r.name ∷ (r.value ∷ parts_left syntax.now markup.now r.behind)) }
    ensures named { IfSome result (λ r. r.name.kind ≡ kind.AttributeName) }
    ensures name { IfSome result (λ r. (r.name.from ≤ r.name.to) × (r.name.to ≤ length markup.now)) }
    ensures value { IfSome result (λ r. (r.value.from ≤ r.value.to) × (r.value.to ≤ length markup.now)) }
    ensures stands { IfSome result (λ r. StandsIn markup.now r.behind) }
{
    if walk.ended || walk.closing {
        return None;
    }
    let TagState::Ready = walk.state else {
        return None;
    };
    let Some(found) = plain_specification(syntax, unclosed(markup), walk.at) else {
        return None;
    };
    Some(NextSpecification {
        name: found.name,
        value: found.value,
        behind: walk_at(markup, found.behind),
    })
}

// The name of an attribute that begins where the walk stands in a start-tag, and the walk behind its
// `=`; none where another thing stands there, or something between the name and `=`.
#[inline(always)]
fn attribute_part(syntax: &Syntax, markup: &[u8], walk: TagWalk) -> Option<(Part, TagWalk)>
    requires { StandsIn markup.now walk }
    ensures parts { IfSome result (λ r. parts_left syntax.now markup.now walk ≡ r.0 ∷ parts_left syntax.now markup.now r.1) }
    ensures within { IfSome result (λ r. (r.0.from ≤ r.0.to) × (r.0.to ≤ length markup.now)) }
    ensures stands { IfSome result (λ r. StandsIn markup.now r.1) }
{
    let TagState::Ready = walk.state else {
        return None;
    };
    if walk.ended {
        return None;
    }
    let Some(part) = name_at(syntax, unclosed(markup), walk.at) else {
        return None;
    };
    let behind = TagWalk {
        closing: walk.closing,
        state: TagState::Value,
        at: part.to + 1,
        ended: false,
    };
    Some((part, behind))
}

// The value without quotes that begins where the walk stands, and the walk behind it; none where another
// thing stands there.
#[inline(always)]
fn bare_part(syntax: &Syntax, markup: &[u8], walk: TagWalk) -> Option<(Part, TagWalk)>
    requires { StandsIn markup.now walk }
    ensures parts { IfSome result (λ r. parts_left syntax.now markup.now walk ≡ r.0 ∷ parts_left syntax.now markup.now r.1) }
    ensures within { IfSome result (λ r. (r.0.from ≤ r.0.to) × (r.0.to ≤ length markup.now)) }
    ensures stands { IfSome result (λ r. StandsIn markup.now r.1) }
{
    let TagState::Value = walk.state else {
        return None;
    };
    if walk.ended {
        return None;
    }
    let body = unclosed(markup);
    match bare_at(syntax, body, walk.at) {
        Some((part, behind)) => Some((part, ready_at(walk.closing, body, behind))),
        None => None,
    }
}

// The literal that begins where the walk stands, and the walk behind it; none where another thing stands
// there.
#[inline(always)]
fn quoted_part(syntax: &Syntax, markup: &[u8], walk: TagWalk) -> Option<(Part, TagWalk)>
    requires { StandsIn markup.now walk }
    ensures parts { IfSome result (λ r. parts_left syntax.now markup.now walk ≡ r.0 ∷ parts_left syntax.now markup.now r.1) }
    ensures within { IfSome result (λ r. (r.0.from ≤ r.0.to) × (r.0.to ≤ length markup.now)) }
    ensures stands { IfSome result (λ r. StandsIn markup.now r.1) }
{
    let TagState::Value = walk.state else {
        return None;
    };
    if walk.ended {
        return None;
    }
    let body = unclosed(markup);
    match quoted_at(body, walk.at) {
        Some((part, behind)) => Some((part, ready_at(walk.closing, body, behind))),
        None => None,
    }
}

/// The next part of the tag, by its places in the tag; none where none is left.
#[inline(always)]
pub fn next_part(syntax: &Syntax, markup: &[u8], walk: &mut TagWalk) -> Option<Part>
    requires { StandsIn markup.now walk.old }
    ensures parts { IsNext syntax.now markup.now walk.old result walk.new }
    ensures within { IfSome result (λ p. (p.from ≤ p.to) × (p.to ≤ length markup.now)) }
    ensures stands { StandsIn markup.now walk.new }
{
    if walk.ended {
        return None;
    }
    match walk.state {
        TagState::ElementName(_) => next_name(syntax, markup, walk),
        TagState::Ready => next_attribute(syntax, markup, walk),
        TagState::Value => next_bare(syntax, markup, walk),
        _ => later_part(syntax, markup, walk),
    }
}

// The same, where the bytes of the element's name may follow each other.
#[inline(never)]
fn next_name(syntax: &Syntax, markup: &[u8], walk: &mut TagWalk) -> Option<Part>
    requires { StandsIn markup.now walk.old }
    ensures parts { IsNext syntax.now markup.now walk.old result walk.new }
    ensures within { IfSome result (λ p. (p.from ≤ p.to) × (p.to ≤ length markup.now)) }
    ensures stands { StandsIn markup.now walk.new }
{
    match name_part(syntax, markup, *walk) {
        Some((part, behind)) => {
            *walk = behind;
            Some(part)
        }
        None => later_part(syntax, markup, walk),
    }
}

// The same, where those of the name of an attribute may.
#[inline(never)]
fn next_attribute(syntax: &Syntax, markup: &[u8], walk: &mut TagWalk) -> Option<Part>
    requires { StandsIn markup.now walk.old }
    ensures parts { IsNext syntax.now markup.now walk.old result walk.new }
    ensures within { IfSome result (λ p. (p.from ≤ p.to) × (p.to ≤ length markup.now)) }
    ensures stands { StandsIn markup.now walk.new }
{
    match attribute_part(syntax, markup, *walk) {
        Some((part, behind)) => {
            *walk = behind;
            Some(part)
        }
        None => later_part(syntax, markup, walk),
    }
}

// The same, where those of a value without quotes may.
#[inline(never)]
fn next_bare(syntax: &Syntax, markup: &[u8], walk: &mut TagWalk) -> Option<Part>
    requires { StandsIn markup.now walk.old }
    ensures parts { IsNext syntax.now markup.now walk.old result walk.new }
    ensures within { IfSome result (λ p. (p.from ≤ p.to) × (p.to ≤ length markup.now)) }
    ensures stands { StandsIn markup.now walk.new }
{
    match bare_part(syntax, markup, *walk) {
        Some((part, behind)) => {
            *walk = behind;
            Some(part)
        }
        None => next_quoted(syntax, markup, walk),
    }
}

// The same, where those of a literal may.
#[inline(never)]
fn next_quoted(syntax: &Syntax, markup: &[u8], walk: &mut TagWalk) -> Option<Part>
    requires { StandsIn markup.now walk.old }
    ensures parts { IsNext syntax.now markup.now walk.old result walk.new }
    ensures within { IfSome result (λ p. (p.from ≤ p.to) × (p.to ≤ length markup.now)) }
    ensures stands { StandsIn markup.now walk.new }
{
    match quoted_part(syntax, markup, *walk) {
        Some((part, behind)) => {
            *walk = behind;
            Some(part)
        }
        None => later_part(syntax, markup, walk),
    }
}

// The same, byte by byte.
#[inline(never)]
fn later_part(syntax: &Syntax, markup: &[u8], walk: &mut TagWalk) -> Option<Part>
    requires { StandsIn markup.now walk.old }
    ensures parts { IsNext syntax.now markup.now walk.old result walk.new }
    ensures within { IfSome result (λ p. (p.from ≤ p.to) × (p.to ≤ length markup.now)) }
    ensures stands { StandsIn markup.now walk.new }
{
    if walk.ended {
        return None;
    }
    let body = unclosed(markup);
    let closing = walk.closing;
    let mut at = walk.at;
    let mut state = walk.state;
    'bytes: while at < body.len() {
        let same = unchanged(syntax, state, &body[at..]);
        if same > 0 {
            at += same;
            continue 'bytes;
        }
        let step = tag_step(syntax, closing, at, state, body[at]);
        at += 1;
        state = step.next;
        if let Some(part) = step.part {
            *walk = TagWalk {
                closing,
                state,
                at,
                ended: false,
            };
            return Some(part);
        }
    }
    *walk = TagWalk {
        closing,
        state,
        at,
        ended: true,
    };
    tag_last(syntax, closing, at, state).part
}

/// The part of a scanned tag of this number, from left to right, by its places in the tag: its names
/// and values (7.4, 7.5, 7.9). An empty tag has none.
pub fn tag_part(syntax: &Syntax, markup: &[u8], number: usize) -> Option<Part>
    ensures value { result ≡ slice_get (parts_of_tag syntax.now markup.now) number }
    ensures within { IfSome result (λ p. (p.from ≤ p.to) × (p.to ≤ length markup.now)) }
{
    if number == 0 {
        if let Some((part, _)) = name_part(syntax, markup, tag_walk(markup)) {
            return Some(part);
        }
    }
    part_of_number(syntax, markup, number)
}

// The same, part by part.
#[inline(never)]
fn part_of_number(syntax: &Syntax, markup: &[u8], number: usize) -> Option<Part>
    ensures value { result ≡ slice_get (parts_of_tag syntax.now markup.now) number }
    ensures within { IfSome result (λ p. (p.from ≤ p.to) × (p.to ≤ length markup.now)) }
{
    let mut walk = tag_walk(markup);
    let mut left = number;
    'parts: loop {
        match next_part(syntax, markup, &mut walk) {
            None => return None,
            Some(part) => {
                if left == 0 {
                    return Some(part);
                }
                left -= 1;
            }
        }
    }
}
