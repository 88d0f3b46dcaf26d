// What stands at the top of the stack.
ghost use Rattle.std.specs.Prelude.{◌≡◌, ◌+◌, ◌==◌, true};
ghost use Rattle.sgml_prolog_steps.specs.decl_lexemes.Readings.{entity_of};
ghost use Rattle.sgml_prolog_steps.specs.Found.{may_grow};
ghost use Rattle.sgml_content_steps.specs.Standing.{IsInInstance};
ghost use Rattle.sgml_content_steps.specs.Modes.{is_of_instance};
ghost use Rattle.sgml_content_steps.specs.Found.{IsFound, IsToldOf, told, at_end, steps_in};

use sgml_entity::Texts;
use sgml_prolog_steps::{Kept, unread};
use sgml_scan::{ScanState, Scanned, Token, scan};
use sgml_steps::Steps;
use sgml_syntax::Syntax;
use sgml_text::Reason;
use std::sync::ledger::Ledger;

/// What stands at the top of the stack.
#[derive(Clone, Copy, Debug)]
pub enum Found {
    /// The end of the text.
    End,
    Token(Token),
    Refused(Reason),
    /// The text goes on, and what stands there isn't decided.
    More,
}

/// What stands next where content is scanned in this state, as far as the texts were given. `ended` tells
/// that the document's is whole.
#[inline(always)]
pub fn look<L: Ledger>(
    kept: &Kept,
    state: ScanState,
    texts: &Texts,
    ended: bool,
    steps: &mut Steps<L>,
) -> Found
    requires kept { IsInInstance kept.now }
    requires mode { is_of_instance state.mode ≡ true }
    ensures found { IsFound kept.now state texts.now ended result }
    ensures counted { steps.new ≡ steps.old + steps_in result }
{
    let bytes = unread(kept.dtd.entities(), texts, &kept.stack);
    let grows = may_grow(kept, ended);
    told_of(kept.dtd.syntax(), state, bytes, grows, steps)
}

/// Whether the text at the top may go on.
fn may_grow(kept: &Kept, ended: bool) -> bool
    requires { IsInInstance kept.now }
    ensures { result ≡ may_grow kept.now ended }
{
    is_in_document(kept) && !ended
}

/// Whether the text at the top is the document's.
fn is_in_document(kept: &Kept) -> bool
    requires { IsInInstance kept.now }
    ensures { result ≡ (entity_of kept.now.stack.places == 0) }
{
    match kept.stack.top() {
        Some(place) => place.entity == 0,
        None => true,
    }
}

/// What these bytes begin with.
#[inline(always)]
fn told_of<L: Ledger>(
    syntax: &Syntax,
    state: ScanState,
    bytes: &[u8],
    grows: bool,
    steps: &mut Steps<L>,
) -> Found
    requires { is_of_instance state.mode ≡ true }
    ensures told { IsToldOf syntax.now state bytes.now grows result }
    ensures counted { steps.new ≡ steps.old + steps_in result }
{
    if bytes.is_empty() {
        return at_end(grows);
    }
    told(scan(syntax, state, bytes, 0, !grows, steps))
}

fn at_end(grows: bool) -> Found
    ensures { result ≡ at_end grows }
{
    if grows { Found::More } else { Found::End }
}

fn told(scanned: Scanned) -> Found
    ensures { result ≡ told scanned }
{
    match scanned {
        Scanned::Token(token) => Found::Token(token),
        Scanned::NeedMore => Found::More,
        Scanned::BadToken(reason) => Found::Refused(reason),
    }
}
