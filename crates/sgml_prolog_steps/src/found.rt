// What stands at the top of the stack.
ghost use Rattle.std.specs.Prelude.{◌≡◌, ◌==◌, ◌&&◌, length, false, []};
ghost use Rattle.sgml_declared.specs.theory_spelling.Prolog.{reason_before};
ghost use Rattle.sgml_declared.specs.theory_spelling.SgmlDeclared.{begins_sgml};
ghost use Rattle.sgml_decl_lexemes.specs.Readings.{entity_of};
ghost use Rattle.sgml_declared.specs.theory_standing.Prologs.{is_over};
ghost use Rattle.sgml_prolog_steps.specs.Standing.{IsKept};
ghost use Rattle.sgml_prolog_steps.specs.Telling.{mode_in, told_before, told_inside, told_sgml, piece_length, begins_end, is_unsure, at_end};
ghost use Rattle.sgml_prolog_steps.specs.Found.{IsFound, may_grow, IsScannedIn, IsFoundAtBeginning};

use crate::kept::Kept;
use crate::keyword::{begins_sgml, is_unsure, reason_before};
use crate::stage::{Stage, is_early_end};
use sgml_decl_lexemes::unread;
use sgml_delim::Mode;
use sgml_entity::Texts;
use sgml_marked::Status;
use sgml_markup::TokenKind;
use sgml_scan::{ScanState, Scanned, Token, scan};
use sgml_steps::Steps;
use sgml_text::{NameSet, Reason};
use std::sync::ledger::Ledger;

/// What stands at the top of the stack.
#[derive(Clone, Copy, Debug)]
pub enum Found {
    /// The end of the text.
    End,
    Token(Token),
    /// What begins as an SGML declaration where one may stand, and ends in so many bytes if it does (13).
    SgmlDeclaration(u64),
    Refused(Reason),
    /// The text goes on, and what stands there isn't decided.
    More,
}

/// What stands next, as far as the texts were given. `ended` tells that the document's is whole.
pub fn look<L: Ledger>(kept: &Kept, texts: &Texts, ended: bool, steps: &mut Steps<L>) -> Found
    requires kept { IsKept kept.now }
    requires going_on { is_over kept.now ≡ false }
    ensures { IsFound kept.now texts.now ended result }
{
    let bytes = unread(kept.dtd.entities(), texts, &kept.stack);
    let grows = may_grow(kept, ended);
    let [first, ..] = bytes else {
        return at_end(grows);
    };
    if is_early_end(kept.stage, *first) {
        return Found::Refused(Reason::NoDoctype);
    }
    match kept.stage {
        Stage::AtBeginning => at_beginning(kept, bytes, grows, steps),
        Stage::BeforeDoctype => {
            let scanned = scanned(kept, bytes, grows, steps);
            told_before(&kept.dtd.syntax().names, bytes, scanned)
        }
        Stage::InSubset => {
            let scanned = scanned(kept, bytes, grows, steps);
            told_inside(is_in_document(kept), bytes, scanned)
        }
        Stage::AfterSubset => {
            let scanned = scanned(kept, bytes, grows, steps);
            told_inside(is_in_document(kept), bytes, scanned)
        }
    }
}

fn at_end(grows: bool) -> Found
    ensures { result ≡ at_end grows }
{
    if grows { Found::More } else { Found::End }
}

/// Whether the text at the top is the document's.
pub fn is_in_document(kept: &Kept) -> bool
    ensures { result ≡ (entity_of kept.now.stack.places == 0) }
{
    match kept.stack.top() {
        Some(place) => place.entity == 0,
        None => true,
    }
}

/// Whether the text at the top may go on.
fn may_grow(kept: &Kept, ended: bool) -> bool
    requires { IsKept kept.now }
    ensures { result ≡ may_grow kept.now ended }
{
    is_in_document(kept) && !ended
}

/// By the innermost marked section (10.4).
fn mode_in(innermost: Option<Status>) -> Mode
    ensures { result ≡ mode_in innermost }
{
    match innermost {
        Some(Status::Ignore) => Mode::Ign,
        Some(Status::Cdata) => Mode::Cds,
        Some(Status::Rcdata) => Mode::Rcs,
        Some(Status::Include) | None => Mode::Ds,
    }
}

/// What the text begins with.
fn scanned<L: Ledger>(kept: &Kept, bytes: &[u8], grows: bool, steps: &mut Steps<L>) -> Scanned
    requires some { length bytes.now ≡ 0 → ⊥ }
    ensures { IsScannedIn kept.now bytes.now grows result }
{
    let state = ScanState {
        mode: mode_in(kept.sections.innermost()),
        net: false,
        maps: false,
    };
    scan(kept.dtd.syntax(), state, bytes, 0, !grows, steps)
}

/// Before the document type, where an SGML declaration may stand.
fn at_beginning<L: Ledger>(kept: &Kept, bytes: &[u8], grows: bool, steps: &mut Steps<L>) -> Found
    requires some { length bytes.now ≡ 0 → ⊥ }
    ensures { IsFoundAtBeginning kept.now bytes.now grows result }
{
    let names = &kept.dtd.syntax().names;
    if is_undecided(names, bytes, grows) {
        return Found::More;
    }
    let scanned = scanned(kept, bytes, grows, steps);
    if begins_sgml(names, bytes) {
        told_sgml(bytes, scanned)
    } else {
        told_before(names, bytes, scanned)
    }
}

/// How many bytes the piece of a token has: characters and separators are taken one at a time.
fn piece_length(token: Token) -> u64
    ensures { result ≡ piece_length token }
{
    match token.kind {
        TokenKind::Chars | TokenKind::Separators => 1,
        _ => token.length,
    }
}

fn is_undecided(names: &NameSet, bytes: &[u8], grows: bool) -> bool
    ensures { result ≡ (grows && is_unsure names.now bytes.now) }
{
    grows && is_unsure(names, bytes)
}

fn told_sgml(bytes: &[u8], scanned: Scanned) -> Found
    ensures { result ≡ told_sgml bytes.now scanned }
{
    match scanned {
        Scanned::Token(token) => Found::SgmlDeclaration(piece_length(token)),
        Scanned::NeedMore => Found::More,
        Scanned::BadToken(Reason::Unclosed) => Found::SgmlDeclaration(bytes.len() as u64),
        Scanned::BadToken(reason) => Found::Refused(reason),
    }
}

/// Before the document type nothing else may stand than separators, comments and instructions (7.1).
fn told_before(names: &NameSet, bytes: &[u8], scanned: Scanned) -> Found
    ensures { result ≡ told_before names.now bytes.now scanned }
{
    match scanned {
        Scanned::Token(token) => Found::Token(token),
        Scanned::NeedMore => Found::More,
        Scanned::BadToken(reason) => Found::Refused(reason_before(names, bytes, reason)),
    }
}

/// In the document type: a `]` in another text than the document's is refused at once (11.1).
fn told_inside(in_document: bool, bytes: &[u8], scanned: Scanned) -> Found
    ensures { result ≡ told_inside in_document bytes.now scanned }
{
    match scanned {
        Scanned::Token(token) => Found::Token(token),
        Scanned::NeedMore => Found::More,
        Scanned::BadToken(reason) => {
            if !in_document && begins_end(bytes) {
                Found::Refused(Reason::DeclarationSyntax)
            } else {
                Found::Refused(reason)
            }
        }
    }
}

fn begins_end(bytes: &[u8]) -> bool
    ensures { result ≡ begins_end bytes.now }
{
    match bytes {
        [] => false,
        [b, ..] => *b == b']',
    }
}
