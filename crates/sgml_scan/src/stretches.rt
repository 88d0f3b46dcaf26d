// Stretches of characters, and of separators.
ghost use Rattle.std.specs.Prelude.{◌≡◌, ◌≤◌, ◌<◌, ◌+◌, ℕ, Bool, length, slice_index, true, false, IsTrue, Some};
ghost use Rattle.sgml_delim.specs.Answers.{Answers, answer};
ghost use Rattle.sgml_scan.specs.Classes.{is_scanned, Tells, stretch_at, run_of, class_of};
ghost use Rattle.sgml_scan.specs.Openings.{matches_strings, is_con, NoString};
ghost use Rattle.sgml_scan.specs.declared.classes.Run.TheVariants.{Chars};
ghost use Rattle.sgml_scan.specs.Sure.{is_ds, is_content, is_plain_content, is_quiet, is_text, is_word, Sure, IsBound, IsStringBound, BeginsStart, BeginsEnd, BeginsReference};
ghost use Rattle.sgml_scan.specs.Tokens.{IsOne, IsStretch};

use crate::classes::{Class, Run, class_of, is_data, same_run};
use crate::state::ScanState;
use sgml_delim::{Delim, Mode, Recognised, delimiter_at};
use sgml_shortref::{Matched, begins_string, longest};
use sgml_syntax::Syntax;

/// Whether no character of such content stands there, since the text ends, or a record end or start, a tag or a
/// reference to an entity stands there.
#[inline(always)]
pub fn is_end(syntax: &Syntax, state: ScanState, text: &[u8]) -> bool
    requires { is_plain_content state ≡ true }
    ensures { IsTrue result → (ended : Bool) → IsOne syntax.now state ended Chars text.now → ⊥ }
{
    if is_bound(text) {
        return true;
    }
    begins_named(syntax, state, text)
}

/// The same where short reference strings are matched, which end it too.
#[inline(always)]
pub fn is_word_end(syntax: &Syntax, state: ScanState, text: &[u8]) -> bool
    requires { matches_strings state ≡ true }
    ensures { IsTrue result → (ended : Bool) → IsOne syntax.now state ended Chars text.now → ⊥ }
{
    if is_string_bound(text) {
        return true;
    }
    begins_named(syntax, state, text)
}

/// Whether a tag or a reference to an entity stands there.
#[inline(always)]
fn begins_named(syntax: &Syntax, state: ScanState, text: &[u8]) -> bool
    ensures { IsTrue result → (ended : Bool) → IsOne syntax.now state ended Chars text.now → ⊥ }
{
    if begins_start(syntax, state.mode, text) {
        return true;
    }
    if begins_end(syntax, state.mode, text) {
        return true;
    }
    begins_reference(syntax, state.mode, text)
}

/// Whether a record end or start stands there, or the text ends.
#[inline(always)]
fn is_bound(text: &[u8]) -> bool
    ensures { IsTrue result → IsBound text.now }
{
    match text {
        [] => true,
        [b, ..] => *b == b'\r' || *b == b'\n',
    }
}

/// Whether a short reference string stands there, or the text ends.
#[inline(always)]
fn is_string_bound(text: &[u8]) -> bool
    ensures { IsTrue result → IsStringBound text.now }
{
    match text {
        [] => true,
        [b, ..] => begins_string(*b),
    }
}

/// How many bytes of such a stretch the text begins with.
#[inline(never)]
pub fn stretch(syntax: &Syntax, state: ScanState, run: Run, text: &[u8], ended: bool) -> usize
    requires { IsTrue (is_scanned state.mode) }
    ensures { IsStretch syntax.now state ended run text.now result }
{
    let mut n = 0;
    'chars: loop {
        let rest = &text[n..];
        let more = sure_of(state, run, rest);
        n += more;
        if !is_one(syntax, state, run, &text[n..], ended) {
            return n;
        }
        n += 1;
    }
}

/// Some bytes of the stretch that begin nothing: most often all up to the next that does.
fn sure_of(state: ScanState, run: Run, text: &[u8]) -> usize
    ensures within { result ≤ length text.now }
    ensures sure { (i : ℕ) → i < result → Sure state run (slice_index text.now i) }
{
    if matches_strings(state) {
        words_of(state, run, text)
    } else if is_content(state.mode) {
        content_of(state, run, text)
    } else {
        others_of(state, run, text)
    }
}

fn words_of(state: ScanState, run: Run, text: &[u8]) -> usize
    requires { matches_strings state ≡ true }
    ensures within { result ≤ length text.now }
    ensures sure { (i : ℕ) → i < result → Sure state run (slice_index text.now i) }
{
    match run {
        Run::Chars => word_of(state.net, text),
        Run::Separators => 0,
    }
}

/// The text of content up to the next byte that may begin something, be it a short reference string.
#[inline(always)]
pub fn word_of(net: bool, text: &[u8]) -> usize
    ensures within { result ≤ length text.now }
    ensures sure { (i : ℕ) → i < result → is_word net (slice_index text.now i) ≡ true }
{
    for i in 0..text.len() {
        if !is_word(net, text[i]) {
            return i;
        }
    }
    text.len()
}

#[inline(always)]
fn is_word(net: bool, b: u8) -> bool
    ensures { result ≡ is_word net b }
{
    is_text(net, b) && !begins_string(b)
}

fn content_of(state: ScanState, run: Run, text: &[u8]) -> usize
    requires unmatched { matches_strings state ≡ false }
    requires mode { is_content state.mode ≡ true }
    ensures within { result ≤ length text.now }
    ensures sure { (i : ℕ) → i < result → Sure state run (slice_index text.now i) }
{
    match run {
        Run::Chars => text_of(state.net, text),
        Run::Separators => 0,
    }
}

/// The text of content up to the next byte that may begin something.
#[inline(always)]
pub fn text_of(net: bool, text: &[u8]) -> usize
    ensures within { result ≤ length text.now }
    ensures sure { (i : ℕ) → i < result → is_text net (slice_index text.now i) ≡ true }
{
    for i in 0..text.len() {
        if !is_text(net, text[i]) {
            return i;
        }
    }
    text.len()
}

#[inline(always)]
fn is_text(net: bool, b: u8) -> bool
    ensures { result ≡ is_text net b }
{
    // Most data is letters, digits and spaces, which are told first.
    if b > b']' {
        b != 127
    } else if b > b'<' {
        b != b']'
    } else if b > b'/' {
        b != b'<'
    } else {
        b == b' ' || (is_data(b) && b != b'&' && !(net && b == b'/'))
    }
}

#[inline(never)]
fn others_of(state: ScanState, run: Run, text: &[u8]) -> usize
    requires { matches_strings state ≡ false }
    ensures within { result ≤ length text.now }
    ensures sure { (i : ℕ) → i < result → Sure state run (slice_index text.now i) }
{
    for i in 0..text.len() {
        if !is_sure(state, run, text[i]) {
            return i;
        }
    }
    text.len()
}

fn is_sure(state: ScanState, run: Run, b: u8) -> bool
    requires { matches_strings state ≡ false }
    ensures { IsTrue result → Sure state run b }
{
    is_of(run, class_of(state.mode, b)) && is_quiet(state, b)
}

fn is_of(run: Run, class: Class) -> bool
    ensures { Tells result (run_of class ≡ Some run) }
{
    match class {
        Class::Stretch(other) => same_run(other, run),
        Class::Single(_) | Class::NonSgml => false,
    }
}

pub fn is_quiet(state: ScanState, b: u8) -> bool
    ensures { result ≡ is_quiet state b }
{
    b != b'<'
        && b != b'&'
        && b != b']'
        && !(state.net && b == b'/')
        && !(is_ds(state.mode) && b == b'%')
}

fn is_ds(mode: Mode) -> bool
    ensures { result ≡ is_ds mode }
{
    match mode {
        Mode::Ds => true,
        _ => false,
    }
}

pub fn is_content(mode: Mode) -> bool
    ensures { result ≡ is_content mode }
{
    match mode {
        Mode::Con | Mode::Rcd | Mode::Cdt | Mode::Rcs | Mode::Cds => true,
        _ => false,
    }
}

/// Whether short reference strings are matched.
pub fn matches_strings(state: ScanState) -> bool
    ensures { result ≡ matches_strings state }
{
    state.maps && is_con(state.mode)
}

fn is_con(mode: Mode) -> bool
    ensures { result ≡ is_con mode }
{
    match mode {
        Mode::Con => true,
        _ => false,
    }
}

/// Which delimiter of the state's mode the text begins with.
#[inline(always)]
pub fn delimiter(syntax: &Syntax, state: ScanState, text: &[u8], ended: bool) -> Recognised
    requires { IsTrue (is_scanned state.mode) }
    ensures { Answers ended (answer syntax.now state.mode state.net) text.now result }
{
    match text {
        [] => delimiter_at(syntax, state.mode, state.net, text, ended),
        [b, ..] => if is_quiet(state, *b) {
            Recognised::Plain
        } else {
            table_delimiter(syntax, state, text, ended)
        },
    }
}

/// The same, where a delimiter may begin.
#[inline(always)]
fn table_delimiter(syntax: &Syntax, state: ScanState, text: &[u8], ended: bool) -> Recognised
    requires { IsTrue (is_scanned state.mode) }
    ensures { Answers ended (answer syntax.now state.mode state.net) text.now result }
{
    if begins_start(syntax, state.mode, text) {
        Recognised::Found(Delim::Stago, 1)
    } else if begins_end(syntax, state.mode, text) {
        Recognised::Found(Delim::Etago, 2)
    } else if begins_reference(syntax, state.mode, text) {
        Recognised::Found(Delim::Ero, 1)
    } else {
        delimiter_at(syntax, state.mode, state.net, text, ended)
    }
}

/// Whether a start-tag with a name begins there: the table need not be asked at these.
#[inline(always)]
pub fn begins_start(syntax: &Syntax, mode: Mode, text: &[u8]) -> bool
    ensures { IsTrue result → BeginsStart syntax.now mode text.now }
{
    match text {
        [b, c, ..] => is_con(mode) && *b == b'<' && syntax.names.begins(*c),
        _ => false,
    }
}

/// Whether an end-tag with a name begins there.
#[inline(always)]
pub fn begins_end(syntax: &Syntax, mode: Mode, text: &[u8]) -> bool
    ensures { IsTrue result → BeginsEnd syntax.now mode text.now }
{
    match text {
        [b, c, d, ..] => { is_con(mode) && *b == b'<' && *c == b'/' && syntax.names.begins(*d) }
        _ => false,
    }
}

/// Whether a reference to a general entity begins there.
#[inline(always)]
fn begins_reference(syntax: &Syntax, mode: Mode, text: &[u8]) -> bool
    ensures { IsTrue result → BeginsReference syntax.now mode text.now }
{
    match text {
        [b, c, ..] => is_con(mode) && *b == b'&' && syntax.names.begins(*c),
        _ => false,
    }
}

/// Whether the text begins with a byte of such a stretch, whatever follows.
#[inline(never)]
fn is_one(syntax: &Syntax, state: ScanState, run: Run, text: &[u8], ended: bool) -> bool
    requires { IsTrue (is_scanned state.mode) }
    ensures { Tells result (IsOne syntax.now state ended run text.now) }
{
    if !begins_with(state.mode, run, text) {
        return false;
    }
    match delimiter(syntax, state, text, ended) {
        Recognised::Plain => begins_no_string(state, text, ended),
        Recognised::Found(_, _) => false,
        Recognised::NeedMore => false,
    }
}

fn begins_with(mode: Mode, run: Run, text: &[u8]) -> bool
    ensures { Tells result (stretch_at mode text.now ≡ Some run) }
{
    match text {
        [] => false,
        [b, ..] => is_of(run, class_of(mode, *b)),
    }
}

fn begins_no_string(state: ScanState, text: &[u8], ended: bool) -> bool
    ensures { Tells result (NoString (matches_strings state) ended text.now) }
{
    if matches_strings(state) {
        has_no_string(text, ended)
    } else {
        true
    }
}

fn has_no_string(text: &[u8], ended: bool) -> bool
    ensures { Tells result (NoString true ended text.now) }
{
    match longest(text, 0, ended) {
        Matched::Plain => true,
        Matched::String(_, _) => false,
        Matched::NeedMore => false,
    }
}
