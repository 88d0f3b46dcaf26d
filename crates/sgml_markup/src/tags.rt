// The form of a tag, and its parts.
ghost use Rattle.std.specs.Prelude.{◌≡◌, ◌≤◌, ◌<◌, ◌+◌, ◌||◌, ◌^◌, ◌==◌, not, length, IsTrue, []};
ghost use Rattle.sgml_markup.specs.References.{run_of};
ghost use Rattle.sgml_markup.specs.Tags.{tag_step, tag_last, goes_to, ends_part, fails, after_name, ends_bare, begins_word, names_attribute, is_good, is_tag, bytes_of, wrong_number_of, wrong_length_of, wrong_number_at, wrong_length_at, wrong_number_before, wrong_length_before, wrong_number_last, wrong_length_last, KeepsForm, KeepsParts, Behind};
ghost use Rattle.sgml_markup.specs.Forms.{judged_tag, if_tag, unclosed, closes, begins_tagc, begins_slash, IsPlainName};

use crate::kinds::{Part, PartKind, TagState, TagStep, TokenKind};
use crate::literals::{has_wrong_length, has_wrong_number};
use crate::references::too_long;
use sgml_syntax::Syntax;
use sgml_text::{Reason, is_quote, is_separator};

/// A tag as far as it was read.
#[derive(Clone, Copy)]
struct Walk {
    state: TagState,
    wrong_number: bool,
    wrong_length: bool,
}

/// What a tag is that isn't empty, or why it is none. Its name begins at `start`.
pub fn judge_tag(
    syntax: &Syntax,
    closing: bool,
    start: usize,
    kind: TokenKind,
    markup: &[u8],
) -> Result<TokenKind, Reason>
    requires { start ≤ length markup.now }
    ensures { result ≡ judged_tag syntax.now closing start kind markup.now }
{
    if is_plain_name(syntax, start, markup) {
        Ok(kind)
    } else {
        walk_tag(syntax, closing, start, kind, markup)
    }
}

/// Whether the tag has a name alone, of a length that may be.
fn is_plain_name(syntax: &Syntax, start: usize, markup: &[u8]) -> bool
    requires { start ≤ length markup.now }
    ensures { IsTrue result → IsPlainName syntax.now start markup.now }
{
    let body = unclosed(markup);
    if start > body.len() {
        return false;
    }
    let rest = &body[start..];
    !too_long(syntax, rest.len()) && syntax.names.name_length(rest) == rest.len()
}

fn walk_tag(
    syntax: &Syntax,
    closing: bool,
    start: usize,
    kind: TokenKind,
    markup: &[u8],
) -> Result<TokenKind, Reason>
    requires { start ≤ length markup.now }
    ensures { result ≡ judged_tag syntax.now closing start kind markup.now }
{
    let body = unclosed(markup);
    let mut at = start;
    let mut walk = Walk {
        state: TagState::ElementName(start),
        wrong_number: false,
        wrong_length: false,
    };
    'bytes: while at < body.len() {
        let same = unchanged(syntax, walk.state, &body[at..]);
        at += same;
        if at == body.len() {
            return finished(syntax, closing, markup, at, walk, kind);
        }
        walk = walked(syntax, closing, markup, at, walk, body[at]);
        at += 1;
    }
    finished(syntax, closing, markup, at, walk, kind)
}

/// How many bytes of the text leave a state as it is, and end no part: some of them.
pub(crate) fn unchanged(syntax: &Syntax, state: TagState, text: &[u8]) -> usize
    ensures within { result ≤ length text.now }
    ensures form { KeepsForm syntax.now state text.now result }
    ensures parts { KeepsParts syntax.now state text.now result }
{
    match state {
        TagState::ElementName(_) | TagState::Word(_, _) | TagState::Bare(_) => {
            syntax.names.name_length(text)
        }
        TagState::Literal(q, _) => length_before(q, text),
        _ => 0,
    }
}

/// How many bytes the text begins with that aren't the quote.
pub(crate) fn length_before(q: u8, text: &[u8]) -> usize
    ensures value { result ≡ length (run_of (λ b. not (b == q)) text.now) }
    ensures within { result ≤ length text.now }
{
    for (i, b) in text.iter().enumerate() {
        if *b == q {
            return i;
        }
    }
    text.len()
}

/// A tag at its end.
fn finished(
    syntax: &Syntax,
    closing: bool,
    markup: &[u8],
    at: usize,
    walk: Walk,
    kind: TokenKind,
) -> Result<TokenKind, Reason>
    ensures { result ≡ if_tag (is_tag syntax.now closing at walk.state [])
        (walk.wrong_number || wrong_number_last syntax.now closing markup.now at walk.state)
        (walk.wrong_length || wrong_length_last syntax.now closing markup.now at walk.state) kind }
{
    let last = tag_last(syntax, closing, at, walk.state);
    if_tag(
        is_good(last.next),
        either(
            walk.wrong_number,
            wrong_number_at(syntax, markup, last.part),
        ),
        either(
            walk.wrong_length,
            wrong_length_at(syntax, markup, last.part),
        ),
        kind,
    )
}

fn if_tag(
    good: bool,
    wrong_number: bool,
    wrong_length: bool,
    kind: TokenKind,
) -> Result<TokenKind, Reason>
    ensures { result ≡ if_tag good wrong_number wrong_length kind }
{
    if !good {
        Err(Reason::TagSyntax)
    } else if wrong_number {
        Err(Reason::CharNumber)
    } else if wrong_length {
        Err(Reason::NameLength)
    } else {
        Ok(kind)
    }
}

/// One byte more.
fn walked(syntax: &Syntax, closing: bool, markup: &[u8], at: usize, walk: Walk, b: u8) -> Walk
    requires fits { at < 2 ^ 63 }
    requires behind { Behind at walk.state }
    ensures state { result.state ≡ (tag_step syntax.now closing at walk.state b).next }
    ensures number { result.wrong_number ≡
        (walk.wrong_number || wrong_number_before syntax.now closing markup.now at walk.state b) }
    ensures length { result.wrong_length ≡
        (walk.wrong_length || wrong_length_before syntax.now closing markup.now at walk.state b) }
    ensures behind { Behind (at + 1) result.state }
{
    let step = tag_step(syntax, closing, at, walk.state, b);
    Walk {
        state: step.next,
        wrong_number: either(
            walk.wrong_number,
            wrong_number_at(syntax, markup, step.part),
        ),
        wrong_length: either(
            walk.wrong_length,
            wrong_length_at(syntax, markup, step.part),
        ),
    }
}

fn either(one: bool, other: bool) -> bool
    ensures { result ≡ (one || other) }
{
    one || other
}

fn wrong_number_at(syntax: &Syntax, markup: &[u8], part: Option<Part>) -> bool
    ensures { result ≡ wrong_number_at syntax.now markup.now part }
{
    match part {
        None => false,
        Some(p) => wrong_number_of(syntax, p.kind, bytes_of(markup, p)),
    }
}

fn wrong_number_of(syntax: &Syntax, kind: PartKind, bytes: &[u8]) -> bool
    ensures { result ≡ wrong_number_of syntax.now kind bytes.now }
{
    match kind {
        PartKind::Quoted => has_wrong_number(syntax, bytes),
        _ => false,
    }
}

fn wrong_length_at(syntax: &Syntax, markup: &[u8], part: Option<Part>) -> bool
    ensures { result ≡ wrong_length_at syntax.now markup.now part }
{
    match part {
        None => false,
        Some(p) => wrong_length_of(syntax, p.kind, bytes_of(markup, p)),
    }
}

fn wrong_length_of(syntax: &Syntax, kind: PartKind, bytes: &[u8]) -> bool
    ensures { result ≡ wrong_length_of syntax.now kind bytes.now }
{
    match kind {
        PartKind::Quoted => has_wrong_length(syntax, bytes),
        PartKind::Bare => false,
        PartKind::ElementName | PartKind::AttributeName => too_long(syntax, bytes.len()),
    }
}

/// The bytes of a part.
fn bytes_of(text: &[u8], part: Part) -> &[u8]
    ensures { result.now ≡ bytes_of text.now part }
{
    if part.from < part.to && part.to <= text.len() {
        &text[part.from..part.to]
    } else if part.from < part.to && part.from <= text.len() {
        &text[part.from..]
    } else {
        &text[..0]
    }
}

/// The tag without the delimiter that closes it.
pub fn unclosed(markup: &[u8]) -> &[u8]
    ensures value { result.now ≡ unclosed markup.now }
    ensures within { length result.now ≤ length markup.now }
{
    match markup {
        [front @ .., last] if closes(*last) => front,
        _ => markup,
    }
}

fn closes(b: u8) -> bool
    ensures { result ≡ closes b }
{
    b == b'>' || b == b'/'
}

/// Whether the text begins with TAGC, the `>` of a tag.
#[inline(always)]
pub fn begins_tagc(text: &[u8]) -> bool
    ensures value { result ≡ begins_tagc text.now }
    ensures some { IsTrue result → 0 < length text.now }
{
    match text {
        [b'>', ..] => true,
        _ => false,
    }
}

/// Whether the text begins with the `/` of an end-tag.
#[inline(always)]
pub fn begins_slash(text: &[u8]) -> bool
    ensures { result ≡ begins_slash text.now }
{
    match text {
        [b'/', ..] => true,
        _ => false,
    }
}

/// One byte more of a tag.
#[inline(always)]
pub(crate) fn tag_step(syntax: &Syntax, closing: bool, at: usize, state: TagState, b: u8) -> TagStep
    requires { at < 2 ^ 63 }
    ensures { result ≡ tag_step syntax.now closing at state b }
{
    let goes_on = syntax.names.goes_on(b);
    let parts = is_separator(b);
    match state {
        TagState::ElementName(from) => if goes_on {
            goes_to(TagState::ElementName(from))
        } else if parts {
            ends_part(PartKind::ElementName, from, at, after_name(closing))
        } else {
            fails()
        },
        TagState::Closing => if parts {
            goes_to(TagState::Closing)
        } else {
            fails()
        },
        TagState::Ready => if parts {
            goes_to(TagState::Ready)
        } else if goes_on {
            goes_to(begins_word(syntax, at, b))
        } else {
            fails()
        },
        TagState::Word(from, is_name) => if goes_on {
            goes_to(TagState::Word(from, is_name))
        } else if parts {
            goes_to(TagState::AfterWord(from, at, is_name))
        } else if b == b'=' {
            names_attribute(from, at, is_name)
        } else {
            fails()
        },
        TagState::AfterWord(from, to, is_name) => if parts {
            goes_to(TagState::AfterWord(from, to, is_name))
        } else if b == b'=' {
            names_attribute(from, to, is_name)
        } else if goes_on {
            ends_bare(syntax, from, to, begins_word(syntax, at, b))
        } else {
            fails()
        },
        TagState::Value => if parts {
            goes_to(TagState::Value)
        } else if is_quote(b) {
            goes_to(TagState::Literal(b, at + 1))
        } else if goes_on {
            goes_to(TagState::Bare(at))
        } else {
            fails()
        },
        TagState::Bare(from) => if goes_on {
            goes_to(TagState::Bare(from))
        } else if parts {
            ends_bare(syntax, from, at, TagState::Ready)
        } else {
            fails()
        },
        TagState::Literal(q, from) => if b == q {
            ends_part(PartKind::Quoted, from, at, TagState::Ready)
        } else {
            goes_to(TagState::Literal(q, from))
        },
        TagState::Failed => fails(),
    }
}

/// A tag's end.
pub(crate) fn tag_last(syntax: &Syntax, closing: bool, at: usize, state: TagState) -> TagStep
    ensures { result ≡ tag_last syntax.now closing at state }
{
    match state {
        TagState::ElementName(from) => ends_part(PartKind::ElementName, from, at, TagState::Ready),
        TagState::Closing | TagState::Ready => goes_to(TagState::Ready),
        TagState::Word(from, _) => ends_bare(syntax, from, at, TagState::Ready),
        TagState::AfterWord(from, to, _) => ends_bare(syntax, from, to, TagState::Ready),
        TagState::Bare(from) => ends_bare(syntax, from, at, TagState::Ready),
        TagState::Value | TagState::Literal(_, _) | TagState::Failed => fails(),
    }
}

fn goes_to(next: TagState) -> TagStep
    ensures { result ≡ goes_to next }
{
    TagStep { part: None, next }
}

fn ends_part(kind: PartKind, from: usize, to: usize, next: TagState) -> TagStep
    ensures { result ≡ ends_part kind from to next }
{
    TagStep {
        part: Some(Part { kind, from, to }),
        next,
    }
}

fn fails() -> TagStep
    ensures { result ≡ fails }
{
    goes_to(TagState::Failed)
}

pub(crate) fn after_name(closing: bool) -> TagState
    ensures { result ≡ after_name closing }
{
    if closing {
        TagState::Closing
    } else {
        TagState::Ready
    }
}

fn ends_bare(syntax: &Syntax, from: usize, to: usize, next: TagState) -> TagStep
    ensures { result ≡ ends_bare syntax.now from to next }
{
    if syntax.shorttag {
        ends_part(PartKind::Bare, from, to, next)
    } else {
        fails()
    }
}

fn begins_word(syntax: &Syntax, at: usize, b: u8) -> TagState
    ensures { result ≡ begins_word syntax.now at b }
{
    TagState::Word(at, syntax.names.begins(b))
}

fn names_attribute(from: usize, to: usize, is_name: bool) -> TagStep
    ensures { result ≡ names_attribute from to is_name }
{
    if is_name {
        ends_part(PartKind::AttributeName, from, to, TagState::Value)
    } else {
        fails()
    }
}

fn is_good(state: TagState) -> bool
    ensures { result ≡ is_good state }
{
    match state {
        TagState::Failed => false,
        _ => true,
    }
}
