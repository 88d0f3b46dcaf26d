// An end that is found at one look.
ghost use Rattle.std.specs.Prelude.{◌≡◌, ◌≤◌, ◌<◌, ◌+◌, ◌∷◌, length, drop, take, IfSome, true};
ghost use Rattle.std.specs.List.{list_all, prefix_len};
ghost use Rattle.sgml_text.specs.Characters.{is_quote};
ghost use Rattle.sgml_decl_parts.specs.Bytes.{begins_with};
ghost use Rattle.sgml_decl_parts.specs.Ends.{before};
ghost use Rattle.sgml_decl_lexemes.specs.Quiet.{is_quiet, is_ended, is_gap, is_commented, is_quoted, Calm, IsComment, IsLiteral, IsQuietEnd};

use crate::reading::is_literal;
use crate::top::after;
use sgml_decl_parts::{Construct, before};
use sgml_text::{all_sgml, is_quote, is_separator, is_sgml_character};

/// How many bytes belong to what begins here, where they are SGML characters and its end is found at one
/// look. None says nothing.
pub(crate) fn quiet_end(construct: Construct, bytes: &[u8]) -> Option<usize>
    requires { before construct ≤ length bytes.now }
    ensures end { IfSome result (IsQuietEnd construct bytes.now) }
    ensures within { IfSome result (λ n. n ≤ length bytes.now) }
{
    if is_literal(construct) {
        return None;
    }
    let first = before(construct);
    let rest = after(bytes, first as u64);
    let run = calm_length(rest);
    if is_ended(construct, rest, run) && all_sgml(&bytes[..first]) {
        Some(first + run + 1)
    } else {
        None
    }
}

/// How many bytes are SGML characters and end nothing: quiet ones, literals, and comments after
/// separators.
#[inline(always)]
fn calm_length(bytes: &[u8]) -> usize
    ensures calm { Calm bytes.now result }
    ensures within { result ≤ length bytes.now }
{
    let mut size = past_quiet(bytes, 0);
    'comments: loop {
        match past_more(bytes, size) {
            None => return size,
            Some(past) => size = past_quiet(bytes, past),
        }
    }
}

// The same with the quiet bytes that follow.
#[inline(always)]
fn past_quiet(bytes: &[u8], size: usize) -> usize
    requires calm { Calm bytes.now size }
    requires within { size ≤ length bytes.now }
    ensures calm { Calm bytes.now result }
    ensures within { result ≤ length bytes.now }
    ensures more { size ≤ result }
{
    size + quiet_length(after(bytes, size as u64))
}

// The same with the literal or comment that follows, where one does.
#[inline(always)]
fn past_more(bytes: &[u8], size: usize) -> Option<usize>
    requires calm { Calm bytes.now size }
    requires within { size ≤ length bytes.now }
    ensures calm { IfSome result (Calm bytes.now) }
    ensures within { IfSome result (λ past. past ≤ length bytes.now) }
    ensures more { IfSome result (λ past. size < past) }
{
    match past_literal(bytes, size) {
        Some(past) => Some(past),
        None => past_comment(bytes, size),
    }
}

#[inline(always)]
fn past_literal(bytes: &[u8], size: usize) -> Option<usize>
    requires calm { Calm bytes.now size }
    requires within { size ≤ length bytes.now }
    ensures calm { IfSome result (Calm bytes.now) }
    ensures within { IfSome result (λ past. past ≤ length bytes.now) }
    ensures more { IfSome result (λ past. size < past) }
{
    match literal_length(after(bytes, size as u64)) {
        None => None,
        Some(n) => Some(size + n),
    }
}

/// The length of the literal that stands here, if it has SGML characters alone.
#[inline(always)]
fn literal_length(bytes: &[u8]) -> Option<usize>
    ensures literal { IfSome result (IsLiteral bytes.now) }
    ensures within { IfSome result (λ n. n ≤ length bytes.now) }
    ensures some { IfSome result (λ n. 0 < n) }
{
    match bytes {
        [] => None,
        [quote, rest @ ..] => {
            if is_quote(*quote) {
                quoted_after(*quote, rest)
            } else {
                None
            }
        }
    }
}

// The length of a literal, of which this stands after its quote.
fn quoted_after(quote: u8, rest: &[u8]) -> Option<usize>
    requires { is_quote quote ≡ true }
    ensures literal { IfSome result (λ n. IsLiteral (quote ∷ rest.now) n) }
    ensures within { IfSome result (λ n. n ≤ length rest.now + 1) }
    ensures some { IfSome result (λ n. 0 < n) }
{
    let text = quoted_length(quote, rest);
    if stands_at(quote, rest, text) {
        Some(text + 2)
    } else {
        None
    }
}

fn quoted_length(quote: u8, bytes: &[u8]) -> usize
    ensures value { result ≡ prefix_len (is_quoted quote) bytes.now }
    ensures within { result ≤ length bytes.now }
{
    bytes.iter().take_while(|b| is_quoted(quote, **b)).count()
}

fn is_quoted(quote: u8, b: u8) -> bool
    ensures { result ≡ is_quoted quote b }
{
    is_sgml_character(b) && b != quote
}

// The same with the comment that follows, where one does.
#[inline(always)]
fn past_comment(bytes: &[u8], size: usize) -> Option<usize>
    requires calm { Calm bytes.now size }
    requires within { size ≤ length bytes.now }
    ensures calm { IfSome result (Calm bytes.now) }
    ensures within { IfSome result (λ past. past ≤ length bytes.now) }
    ensures more { IfSome result (λ past. size < past) }
{
    if !is_gap(bytes, size) {
        return None;
    }
    match comment_length(after(bytes, size as u64)) {
        None => None,
        Some(n) => Some(size + n),
    }
}

#[inline(always)]
fn is_gap(bytes: &[u8], size: usize) -> bool
    requires { size ≤ length bytes.now }
    ensures { result ≡ is_gap size bytes.now }
{
    if size == 0 {
        return true;
    }
    match after(bytes, size as u64 - 1) {
        [] => false,
        [b, ..] => is_separator(*b),
    }
}

/// The length of the comment that stands here, if no `-` stands in it.
fn comment_length(bytes: &[u8]) -> Option<usize>
    ensures comment { IfSome result (IsComment bytes.now) }
    ensures within { IfSome result (λ n. n ≤ length bytes.now) }
{
    match bytes {
        [a, b, rest @ ..] => {
            if *a == b'-' && *b == b'-' {
                closed_after(rest)
            } else {
                None
            }
        }
        _ => None,
    }
}

// The length of a comment, of which this stands after its first `--`.
fn closed_after(rest: &[u8]) -> Option<usize>
    ensures comment { IfSome result (λ n. IsComment (45 ∷ 45 ∷ rest.now) n) }
    ensures within { IfSome result (λ n. n ≤ length rest.now + 2) }
{
    let text = commented_length(rest);
    if stands_at(b'-', rest, text) && stands_at(b'-', rest, text + 1) {
        Some(text + 4)
    } else {
        None
    }
}

fn commented_length(bytes: &[u8]) -> usize
    ensures value { result ≡ prefix_len is_commented bytes.now }
    ensures within { result ≤ length bytes.now }
{
    bytes.iter().take_while(|b| is_commented(**b)).count()
}

fn is_commented(b: u8) -> bool
    ensures { result ≡ is_commented b }
{
    is_sgml_character(b) && b != b'-'
}

#[inline(always)]
fn is_ended(construct: Construct, bytes: &[u8], run: usize) -> bool
    ensures value { result ≡ is_ended construct (drop run bytes.now) }
    ensures within { result ≡ true → run < length bytes.now }
{
    match construct {
        Construct::Declaration => stands_at(b'>', bytes, run),
        Construct::SectionStart => stands_at(b'[', bytes, run),
        Construct::SubsetEnd => stands_at(b'>', bytes, run),
        Construct::Literal(_) => false,
    }
}

#[inline(always)]
fn stands_at(c: u8, bytes: &[u8], at: usize) -> bool
    ensures value { result ≡ begins_with c (drop at bytes.now) }
    ensures within { result ≡ true → at < length bytes.now }
{
    match after(bytes, at as u64) {
        [] => false,
        [b, ..] => *b == c,
    }
}

#[inline(always)]
fn quiet_length(bytes: &[u8]) -> usize
    ensures value { result ≡ prefix_len is_quiet bytes.now }
    ensures within { result ≤ length bytes.now }
{
    bytes.iter().take_while(|b| is_quiet(**b)).count()
}

// Letters are told first.
#[inline(always)]
fn is_quiet(b: u8) -> bool
    ensures { result ≡ is_quiet b }
{
    if b > b'>' {
        b != b'[' && b != 127
    } else {
        is_sgml_character(b) && !(is_quote(b) || b == b'-' || b == b'>')
    }
}
