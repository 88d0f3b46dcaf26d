// Which short reference string stands at a place.
ghost use Rattle.std.specs.Prelude.{◌≡◌, ◌==◌, if◌then◌else◌, ◌+◌, ◌<◌, ◌≤◌, ◌^◌, ◌∷◌, length, drop};
ghost use Rattle.sgml_shortref.specs.Strings.{is_blank};
ghost use Rattle.sgml_shortref.specs.Matches.{Answers, answer, begins_string, matched, unless, string_of, after_start, from_blank, hyphens, signs, sign_in, matched_sign, blanks, next_after, is_border, is_record_end};
ghost use Rattle.sgml_shortref.specs.declared.matching.Next.TheVariants.{RecordEnd, Other};

/// Which short reference string stands at a place.
#[derive(Clone, Copy, Debug, PartialEq, Eq)]
pub enum Matched {
    /// The string of this number, with its length there.
    String(u8, usize),
    /// None.
    Plain,
    /// What follows the text decides.
    NeedMore,
}

/// What stands after blanks.
#[derive(Clone, Copy, Debug, PartialEq, Eq)]
pub enum Next {
    /// The end of the text.
    Border,
    RecordEnd,
    Other,
}

#[derive(Clone, Copy)]
struct Run {
    count: usize,
    next: Next,
}

/// The longest of the 32 short reference strings that stands at `at` (9.6.4, 9.6.5). `ended` tells
/// that no more text follows. Past the text nothing stands.
pub fn longest(text: &[u8], at: usize, ended: bool) -> Matched
    ensures { Answers ended answer (drop at text.now) result }
{
    at_head(&text[at.min(text.len())..], ended)
}

fn at_head(text: &[u8], ended: bool) -> Matched
    ensures { Answers ended answer text.now result }
{
    head_of(text, ended)
}

fn head_of(text: &[u8], ended: bool) -> Matched
    ensures { result ≡ matched ended text.now }
{
    match text {
        [] => unless(!ended, Matched::Plain),
        [b, rest @ ..] => after_first(*b, rest, ended),
    }
}

fn after_first(b: u8, rest: &[u8], ended: bool) -> Matched
    ensures { result ≡ matched ended (b ∷ rest.now) }
{
    if b == b'\n' {
        let run = run_of(rest);
        unless(
            is_border(run.next) && !ended,
            start_string(run.count, run.next),
        )
    } else if is_blank(b) {
        let run = run_of(rest);
        unless(
            is_border(run.next) && !ended,
            blank_string(b, run.count, run.next),
        )
    } else if b == b'-' {
        unless(rest.is_empty() && !ended, hyphen_string(rest))
    } else {
        string_of_sign(b)
    }
}

fn unless(undecided: bool, matched: Matched) -> Matched
    ensures { result ≡ unless undecided matched }
{
    if undecided {
        Matched::NeedMore
    } else {
        matched
    }
}

fn start_string(count: usize, next: Next) -> Matched
    requires { count + 2 < 2 ^ 64 }
    ensures { result ≡ string_of (after_start count next) }
{
    if is_record_end(next) {
        if count == 0 {
            Matched::String(4, 2)
        } else {
            Matched::String(5, count + 2)
        }
    } else if count == 0 {
        Matched::String(2, 1)
    } else {
        Matched::String(3, count + 1)
    }
}

fn blank_string(b: u8, count: usize, next: Next) -> Matched
    requires { count + 2 < 2 ^ 64 }
    ensures { result ≡ string_of (from_blank b count next) }
{
    if is_record_end(next) {
        Matched::String(6, count + 2)
    } else if count == 0 {
        if b == b'\t' {
            Matched::String(0, 1)
        } else {
            Matched::String(7, 1)
        }
    } else {
        Matched::String(8, count + 1)
    }
}

fn hyphen_string(rest: &[u8]) -> Matched
    ensures { result ≡ string_of (hyphens rest.now) }
{
    match rest {
        [b'-', ..] => Matched::String(19, 2),
        _ => Matched::String(18, 1),
    }
}

/// The string that this byte is by itself.
fn string_of_sign(b: u8) -> Matched
    ensures { result ≡ matched_sign (sign_in signs b) }
{
    match b {
        b'\r' => Matched::String(1, 1),
        b'"' => Matched::String(9, 1),
        b'#' => Matched::String(10, 1),
        b'%' => Matched::String(11, 1),
        b'\'' => Matched::String(12, 1),
        b'(' => Matched::String(13, 1),
        b')' => Matched::String(14, 1),
        b'*' => Matched::String(15, 1),
        b'+' => Matched::String(16, 1),
        b',' => Matched::String(17, 1),
        b':' => Matched::String(20, 1),
        b';' => Matched::String(21, 1),
        b'=' => Matched::String(22, 1),
        b'@' => Matched::String(23, 1),
        b'[' => Matched::String(24, 1),
        b']' => Matched::String(25, 1),
        b'^' => Matched::String(26, 1),
        b'_' => Matched::String(27, 1),
        b'{' => Matched::String(28, 1),
        b'|' => Matched::String(29, 1),
        b'}' => Matched::String(30, 1),
        b'~' => Matched::String(31, 1),
        _ => Matched::Plain,
    }
}

/// Whether a short reference string begins with this byte.
#[inline(always)]
pub fn begins_string(b: u8) -> bool
    ensures { result ≡ begins_string b }
{
    match b {
        b'\t' | b'\n' | b'\r' | b' ' => true,
        b'"' | b'#' | b'%' | b'\'' | b'(' | b')' | b'*' | b'+' | b',' | b'-' => true,
        b':' | b';' | b'=' | b'@' | b'[' | b']' | b'^' | b'_' => true,
        b'{' | b'|' | b'}' | b'~' => true,
        _ => false,
    }
}

/// The blanks that the text begins with, and what stands after them.
fn run_of(text: &[u8]) -> Run
    ensures count { result.count ≡ blanks text.now }
    ensures next { result.next ≡ next_after text.now }
    ensures within { result.count ≤ length text.now }
{
    for (i, b) in text.iter().enumerate() {
        if !is_blank(*b) {
            return Run {
                count: i,
                next: next_of(*b),
            };
        }
    }
    Run {
        count: text.len(),
        next: Next::Border,
    }
}

fn next_of(b: u8) -> Next
    ensures { result ≡ (if b == 13 then RecordEnd else Other) }
{
    if b == b'\r' {
        Next::RecordEnd
    } else {
        Next::Other
    }
}

/// SPACE or TAB.
fn is_blank(b: u8) -> bool
    ensures { result ≡ is_blank b }
{
    b == b' ' || b == b'\t'
}

fn is_border(next: Next) -> bool
    ensures { result ≡ is_border next }
{
    match next {
        Next::Border => true,
        _ => false,
    }
}

fn is_record_end(next: Next) -> bool
    ensures { result ≡ is_record_end next }
{
    match next {
        Next::RecordEnd => true,
        _ => false,
    }
}
