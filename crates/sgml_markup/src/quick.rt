// Tags that need no second look: most have a name, and values whose references are fine.
ghost use Rattle.std.specs.Prelude.{◌≡◌, ◌≤◌, ◌<◌, length, drop, true, IfSome, IsTrue};
ghost use Rattle.sgml_text.specs.Characters.{is_separator, is_quote};
ghost use Rattle.sgml_markup.specs.References.{run_of};
ghost use Rattle.sgml_markup.specs.QuickTags.{is_calm, begins_with, begins_start, BeginsName, BeginsValue, BeginsAttribute, BeginsSpecification, EndsQuickly, IsQuickTag};

use crate::literals::is_fine;
use crate::references::too_long;
use crate::tags::{begins_tagc, length_before};
use sgml_syntax::Syntax;
use sgml_text::{NameSet, is_separator, is_sgml_character};

/// How many bytes of the text, which follows the delimiter, a tag has whose names are short and whose
/// literals are fine; none where its end must be sought, and its form judged.
pub fn quick_tag(syntax: &Syntax, closing: bool, text: &[u8]) -> Option<usize>
    ensures within { IfSome result (λ n. n ≤ length text.now) }
    ensures quick { IfSome result (λ n. IsQuickTag syntax.now closing text.now n) }
{
    let name = syntax.names.name_length(text);
    if name == 0 || too_long(syntax, name) {
        return None;
    }
    let rest = after(text, name);
    if begins_tagc(rest) {
        return Some(name + 1);
    }
    if closing {
        return None;
    }
    match quick_rest(syntax, rest) {
        None => None,
        Some(n) => Some(name + n),
    }
}

/// Specifications and TAGC, behind the name of a start-tag.
pub fn quick_rest(syntax: &Syntax, text: &[u8]) -> Option<usize>
    ensures within { IfSome result (λ n. n ≤ length text.now) }
    ensures quick { IfSome result (λ n. EndsQuickly syntax.now text.now n) }
{
    let mut at = 0;
    'specifications: while at < text.len() {
        let rest = after(text, at);
        if begins_tagc(rest) {
            return Some(at + 1);
        }
        match quick_specification(syntax, rest) {
            None => return None,
            Some(n) => at += n,
        }
    }
    None
}

/// Separators, a name, `=` and a value.
fn quick_specification(syntax: &Syntax, text: &[u8]) -> Option<usize>
    ensures some { IfSome result (λ n. 0 < n) }
    ensures within { IfSome result (λ n. n ≤ length text.now) }
    ensures quick { IfSome result (λ n. BeginsSpecification syntax.now text.now n) }
{
    let gap = separators(text);
    if gap == 0 {
        return None;
    }
    match quick_attribute(syntax, after(text, gap)) {
        None => None,
        Some(n) => Some(gap + n),
    }
}

/// A name, `=` and a value.
fn quick_attribute(syntax: &Syntax, text: &[u8]) -> Option<usize>
    ensures within { IfSome result (λ n. n ≤ length text.now) }
    ensures quick { IfSome result (λ n. BeginsAttribute syntax.now text.now n) }
{
    let name = short_name(syntax, text);
    if name == 0 {
        return None;
    }
    let rest = after(text, name);
    if !begins_with(b'=', rest) {
        return None;
    }
    match quick_value(syntax, after(rest, 1)) {
        None => None,
        Some(n) => Some(name + (1 + n)),
    }
}

/// How many bytes of the text are a name that NAMELEN allows (9.3); 0 where it begins with none.
#[inline(always)]
pub fn short_name(syntax: &Syntax, text: &[u8]) -> usize
    ensures within { result ≤ length text.now }
    ensures quick { (0 < result) → BeginsName syntax.now text.now result }
{
    if !begins_start(&syntax.names, text) {
        return 0;
    }
    let n = syntax.names.name_length(text);
    if too_long(syntax, n) { 0 } else { n }
}

fn begins_start(names: &NameSet, text: &[u8]) -> bool
    ensures { result ≡ begins_start names.now text.now }
{
    match text {
        [] => false,
        [b, ..] => names.begins(*b),
    }
}

/// A literal that is fine, or a value without quotes.
fn quick_value(syntax: &Syntax, text: &[u8]) -> Option<usize>
    ensures within { IfSome result (λ n. n ≤ length text.now) }
    ensures quick { IfSome result (λ n. BeginsValue syntax.now text.now n) }
{
    if begins_with(b'"', text) {
        quick_literal(syntax, b'"', text)
    } else if begins_with(b'\'', text) {
        quick_literal(syntax, b'\'', text)
    } else {
        quick_token(syntax, text)
    }
}

fn quick_literal(syntax: &Syntax, q: u8, text: &[u8]) -> Option<usize>
    requires quote { is_quote q ≡ true }
    requires begins { begins_with q text.now ≡ true }
    ensures within { IfSome result (λ n. n ≤ length text.now) }
    ensures quick { IfSome result (λ n. BeginsValue syntax.now text.now n) }
{
    let rest = after(text, 1);
    let n = calm_length(q, rest);
    if begins_with(q, after(rest, n)) {
        Some(1 + (n + 1))
    } else {
        judged_literal(syntax, q, text)
    }
}

/// The same of a literal whose references are judged.
#[inline(never)]
fn judged_literal(syntax: &Syntax, q: u8, text: &[u8]) -> Option<usize>
    requires quote { is_quote q ≡ true }
    requires begins { begins_with q text.now ≡ true }
    ensures within { IfSome result (λ n. n ≤ length text.now) }
    ensures quick { IfSome result (λ n. BeginsValue syntax.now text.now n) }
{
    let rest = after(text, 1);
    let n = length_before(q, rest);
    if begins_with(q, after(rest, n)) && is_fine(syntax, &rest[..n]) {
        Some(1 + (n + 1))
    } else {
        None
    }
}

fn quick_token(syntax: &Syntax, text: &[u8]) -> Option<usize>
    ensures within { IfSome result (λ n. n ≤ length text.now) }
    ensures quick { IfSome result (λ n. BeginsValue syntax.now text.now n) }
{
    let n = syntax.names.name_length(text);
    if n == 0 {
        return None;
    }
    if syntax.shorttag { Some(n) } else { None }
}

fn begins_with(c: u8, text: &[u8]) -> bool
    ensures value { result ≡ begins_with c text.now }
    ensures some { IsTrue result → 0 < length text.now }
{
    match text {
        [] => false,
        [b, ..] => *b == c,
    }
}

/// The text from a place on.
pub fn after(text: &[u8], n: usize) -> &[u8]
    requires { n ≤ length text.now }
    ensures { result.now ≡ drop n text.now }
{
    &text[n..]
}

/// How many separators the text begins with.
fn separators(text: &[u8]) -> usize
    ensures value { result ≡ length (run_of is_separator text.now) }
    ensures within { result ≤ length text.now }
{
    for (i, b) in text.iter().enumerate() {
        if !is_separator(*b) {
            return i;
        }
    }
    text.len()
}

/// How many bytes the text begins with that are characters, and neither the quote nor `&`.
fn calm_length(q: u8, text: &[u8]) -> usize
    ensures value { result ≡ length (run_of (is_calm q) text.now) }
    ensures within { result ≤ length text.now }
{
    for (i, b) in text.iter().enumerate() {
        if !is_calm(q, *b) {
            return i;
        }
    }
    text.len()
}

// Letters and SPACE are told first.
fn is_calm(q: u8, b: u8) -> bool
    ensures { result ≡ is_calm q b }
{
    b != q && (b.is_ascii_alphabetic() || b == b' ' || (is_sgml_character(b) && b != b'&'))
}
