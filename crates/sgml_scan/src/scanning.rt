// The token that a text begins with.
ghost use Rattle.std.specs.Prelude.{◌≡◌, ◌≤◌, ◌<◌, length, drop, ◌+◌, ◌-◌, IsTrue, IfSome, Some, true, false};
ghost use Rattle.sgml_delim.specs.Tables.{string};
ghost use Rattle.sgml_markup.specs.Forms.{before};
ghost use Rattle.sgml_scan.specs.Classes.{is_scanned};
ghost use Rattle.sgml_scan.specs.Openings.{opening, declared_opening, declared_form, matches_strings, NoDelimiter, NoString, is_con};
ghost use Rattle.sgml_scan.specs.Sure.{is_content, is_plain_content};
ghost use Rattle.sgml_scan.specs.Tokens.{IsScanned, IsUndelimited, IsMatched, IsMatchedToken, IsPlainToken, opened, begun, of_form, open_ended, of_judged, token, IsWithin, steps_of, HasRoom};

use crate::classes::{Class, class_of, kind_of};
use crate::state::{Opening, ScanState, Scanned, Token};
use crate::stretches::{
    begins_end, begins_start, delimiter, is_content, is_end, is_quiet, is_word_end,
    matches_strings, stretch, text_of, word_of,
};
use sgml_delim::{Delim, Mode, Recognised, string_of};
use sgml_markup::{Form, Markup, TokenKind, markup_of};
use sgml_shortref::{Matched, longest};
use sgml_steps::Steps;
use sgml_syntax::Syntax;
use sgml_text::{Reason, all_sgml};
use std::sync::ledger::Ledger;

/// The token that begins at `at`, in a mode of content or of the prolog. `ended` tells that no more
/// text follows; then `at` is before the text's end. A step is counted for each byte of the token.
#[inline(always)]
pub fn scan<L: Ledger>(
    syntax: &Syntax,
    state: ScanState,
    text: &[u8],
    at: usize,
    ended: bool,
    steps: &mut Steps<L>,
) -> Scanned
    requires within { at ≤ length text.now }
    requires some { IsTrue ended → at < length text.now }
    requires mode { IsTrue (is_scanned state.mode) }
    ensures token { IsScanned syntax.now state ended (drop at text.now) result }
    ensures within { IsWithin (length text.now - at) result }
    ensures counted { steps.new ≡ steps.old + steps_of result }
{
    let scanned = scan_first(syntax, state, &text[at..], ended);
    steps.add(steps_of(scanned));
    scanned
}

fn steps_of(scanned: Scanned) -> u64
    ensures { result ≡ steps_of scanned }
{
    match scanned {
        Scanned::Token(token) => token.length,
        Scanned::NeedMore | Scanned::BadToken(_) => 0,
    }
}

/// The token that the text begins with.
#[inline(always)]
fn scan_first(syntax: &Syntax, state: ScanState, text: &[u8], ended: bool) -> Scanned
    requires mode { IsTrue (is_scanned state.mode) }
    requires some { IsTrue ended → 0 < length text.now }
    ensures { IsScanned syntax.now state ended text.now result }
{
    if is_plain_content(state) {
        scan_content(syntax, state, text, ended)
    } else if matches_strings(state) {
        scan_strings(syntax, state, text, ended)
    } else {
        scan_any(syntax, state, text, ended)
    }
}

/// Whether this is content where no short reference string is matched.
fn is_plain_content(state: ScanState) -> bool
    ensures { result ≡ is_plain_content state }
{
    is_content(state.mode) && !matches_strings(state)
}

/// The same in such content, where text up to a tag or a record's bounds, and these, are told by their bytes.
#[inline(always)]
fn scan_content(syntax: &Syntax, state: ScanState, text: &[u8], ended: bool) -> Scanned
    requires mode { IsTrue (is_scanned state.mode) }
    requires some { IsTrue ended → 0 < length text.now }
    requires content { is_plain_content state ≡ true }
    ensures { IsScanned syntax.now state ended text.now result }
{
    let n = text_of(state.net, text);
    if n == 0 {
        return scan_bound(syntax, state, text, ended);
    }
    if is_end(syntax, state, &text[n..]) {
        return token(TokenKind::Chars, n);
    }
    scan_any(syntax, state, text, ended)
}

/// The same where no text stands.
#[inline(always)]
fn scan_bound(syntax: &Syntax, state: ScanState, text: &[u8], ended: bool) -> Scanned
    requires mode { IsTrue (is_scanned state.mode) }
    requires some { IsTrue ended → 0 < length text.now }
    requires content { is_plain_content state ≡ true }
    ensures { IsScanned syntax.now state ended text.now result }
{
    match text {
        [] => scan_any(syntax, state, text, ended),
        [b, ..] => if *b == b'\r' {
            token(TokenKind::Re, 1)
        } else if *b == b'\n' {
            token(TokenKind::Rs, 1)
        } else {
            scan_tag(syntax, state, text, ended)
        },
    }
}

/// The same where a tag with a name may stand, which the table need not be asked about.
#[inline(never)]
fn scan_tag(syntax: &Syntax, state: ScanState, text: &[u8], ended: bool) -> Scanned
    requires mode { IsTrue (is_scanned state.mode) }
    requires some { IsTrue ended → 0 < length text.now }
    ensures { IsScanned syntax.now state ended text.now result }
{
    if begins_start(syntax, state.mode, text) {
        return of_form(syntax, text, ended, Form::StartTag);
    }
    if begins_end(syntax, state.mode, text) {
        return of_form(syntax, text, ended, Form::EndTag);
    }
    scan_any(syntax, state, text, ended)
}

/// The same where short reference strings are matched, and text up to one of these or a tag is told by its bytes.
#[inline(never)]
fn scan_strings(syntax: &Syntax, state: ScanState, text: &[u8], ended: bool) -> Scanned
    requires mode { IsTrue (is_scanned state.mode) }
    requires some { IsTrue ended → 0 < length text.now }
    requires maps { matches_strings state ≡ true }
    ensures { IsScanned syntax.now state ended text.now result }
{
    let n = word_of(state.net, text);
    if n == 0 {
        return scan_string(syntax, state, text, ended);
    }
    if !is_word_end(syntax, state, &text[n..]) {
        return scan_any(syntax, state, text, ended);
    }
    token(TokenKind::Chars, n)
}

/// The same where no text stands.
#[inline(always)]
fn scan_string(syntax: &Syntax, state: ScanState, text: &[u8], ended: bool) -> Scanned
    requires mode { IsTrue (is_scanned state.mode) }
    requires some { IsTrue ended → 0 < length text.now }
    requires maps { matches_strings state ≡ true }
    ensures { IsScanned syntax.now state ended text.now result }
{
    match text {
        [] => scan_any(syntax, state, text, ended),
        [b, ..] => if is_quiet(state, *b) {
            matched(syntax, state, text, ended)
        } else {
            scan_tag(syntax, state, text, ended)
        },
    }
}

/// The same by the delimiter that stands there.
#[inline(never)]
fn scan_any(syntax: &Syntax, state: ScanState, text: &[u8], ended: bool) -> Scanned
    requires mode { IsTrue (is_scanned state.mode) }
    requires some { IsTrue ended → 0 < length text.now }
    ensures { IsScanned syntax.now state ended text.now result }
{
    match delimiter(syntax, state, text, ended) {
        Recognised::NeedMore => Scanned::NeedMore,
        Recognised::Found(delim, _) => begun(syntax, state, text, ended, delim),
        Recognised::Plain => undelimited(syntax, state, text, ended),
    }
}

/// What a delimiter begins that the text begins with.
fn begun(syntax: &Syntax, state: ScanState, text: &[u8], ended: bool, delim: Delim) -> Scanned
    requires { length (string delim) ≤ length text.now }
    ensures { result ≡ begun syntax.now state ended text.now delim }
{
    let rest = &text[string_of(delim).len()..];
    opened(syntax, text, ended, opening(state.mode, delim, rest))
}

fn opening(mode: Mode, delim: Delim, rest: &[u8]) -> Opening
    ensures { result ≡ opening mode delim rest.now }
{
    match delim {
        Delim::Mdo => declared_opening(mode, rest),
        Delim::Msc => Opening::Whole(TokenKind::SectionEnd, 3),
        Delim::Net => Opening::Whole(TokenKind::Net, 1),
        Delim::Stago => Opening::Markup(Form::StartTag),
        Delim::Etago => Opening::Markup(Form::EndTag),
        Delim::Ero => Opening::Markup(Form::EntityReference),
        Delim::Cro => Opening::Markup(Form::CharacterReference),
        Delim::Pero => Opening::Markup(Form::ParameterReference),
        Delim::Pio => Opening::Markup(Form::Instruction),
        Delim::Dsc => Opening::Markup(Form::SubsetEnd),
        // No mode that is scanned has another one.
        _ => Opening::Whole(TokenKind::Declaration, 1),
    }
}

fn declared_opening(mode: Mode, rest: &[u8]) -> Opening
    ensures { result ≡ declared_opening mode rest.now }
{
    match mode {
        Mode::Ign => Opening::Whole(TokenKind::SectionStart, 3),
        _ => Opening::Markup(declared_form(rest)),
    }
}

fn declared_form(rest: &[u8]) -> Form
    ensures { result ≡ declared_form rest.now }
{
    match rest {
        [] => Form::Declaration,
        [b, ..] => {
            if *b == b'[' {
                Form::SectionStart
            } else if *b == b'-' || *b == b'>' {
                Form::CommentDeclaration
            } else {
                Form::Declaration
            }
        }
    }
}

fn opened(syntax: &Syntax, text: &[u8], ended: bool, opening: Opening) -> Scanned
    requires { HasRoom text.now opening }
    ensures { result ≡ opened syntax.now ended text.now opening }
{
    match opening {
        Opening::Whole(kind, length) => token(kind, length),
        Opening::Markup(form) => of_form(syntax, text, ended, form),
    }
}

/// Markup of this form, whose delimiter the text begins with.
fn of_form(syntax: &Syntax, text: &[u8], ended: bool, form: Form) -> Scanned
    requires { before form ≤ length text.now }
    ensures { result ≡ of_form syntax.now ended text.now form }
{
    match markup_of(syntax, form, text, ended) {
        None => open_ended(text, ended),
        Some(markup) => of_judged(markup),
    }
}

fn of_judged(markup: Markup) -> Scanned
    ensures { result ≡ of_judged markup.length markup.judged }
{
    match markup.judged {
        Ok(kind) => token(kind, markup.length),
        Err(reason) => Scanned::BadToken(reason),
    }
}

/// A text without its end.
fn open_ended(text: &[u8], ended: bool) -> Scanned
    ensures { result ≡ open_ended ended text.now }
{
    if !ended {
        Scanned::NeedMore
    } else if all_sgml(text) {
        Scanned::BadToken(Reason::Unclosed)
    } else {
        Scanned::BadToken(Reason::NonSgml)
    }
}

/// The token where no delimiter stands.
fn undelimited(syntax: &Syntax, state: ScanState, text: &[u8], ended: bool) -> Scanned
    requires mode { IsTrue (is_scanned state.mode) }
    requires some { 0 < length text.now }
    requires plain { NoDelimiter syntax.now state ended text.now }
    ensures { IsUndelimited (matches_strings state) syntax.now state ended text.now result }
{
    if matches_strings(state) {
        matched(syntax, state, text, ended)
    } else {
        plain(syntax, state, text, ended)
    }
}

/// The token by the short reference string that stands there.
fn matched(syntax: &Syntax, state: ScanState, text: &[u8], ended: bool) -> Scanned
    requires mode { IsTrue (is_scanned state.mode) }
    requires some { 0 < length text.now }
    requires plain { NoDelimiter syntax.now state ended text.now }
    ensures { IsMatched syntax.now state ended text.now result }
{
    match longest(text, 0, ended) {
        Matched::NeedMore => Scanned::NeedMore,
        Matched::String(number, length) => token(TokenKind::ShortRef(number), length),
        Matched::Plain => plain(syntax, state, text, ended),
    }
}

/// The token where nothing begins.
#[inline(always)]
fn plain(syntax: &Syntax, state: ScanState, text: &[u8], ended: bool) -> Scanned
    requires mode { IsTrue (is_scanned state.mode) }
    requires some { 0 < length text.now }
    ensures { IsPlainToken syntax.now state ended text.now result }
{
    match text {
        [] => Scanned::NeedMore,
        [b, ..] => match class_of(state.mode, *b) {
            Class::Stretch(run) => { token(kind_of(run), stretch(syntax, state, run, text, ended)) }
            Class::Single(kind) => token(kind, 1),
            Class::NonSgml => Scanned::BadToken(Reason::NonSgml),
        },
    }
}

fn token(kind: TokenKind, length: usize) -> Scanned
    ensures { result ≡ token kind length }
{
    Scanned::Token(Token {
        kind,
        length: length as u64,
    })
}
