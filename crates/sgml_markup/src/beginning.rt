// The markup of a form that a text begins with.
ghost use Rattle.std.specs.Prelude.{◌≡◌, ◌≤◌, length, IfSome};
ghost use Rattle.sgml_markup.specs.Forms.{before};
ghost use Rattle.sgml_markup.specs.Markup.{markup_of};
ghost use Rattle.sgml_markup.specs.QuickTags.{tag_form, tag_kind, IsQuickMarkup};

use crate::ends::end_of;
use crate::judging::{before, judge};
use crate::kinds::{Form, Markup, TokenKind};
use crate::quick::{after, quick_tag};
use sgml_syntax::Syntax;
use sgml_text::all_sgml;

/// The markup of this form that the text begins with, whose delimiter is there; none where the text
/// doesn't reach its end. `ended` tells that no more text follows. It is `end_of` and `judge` in one,
/// and most tags need one look alone.
pub fn markup_of(syntax: &Syntax, form: Form, text: &[u8], ended: bool) -> Option<Markup>
    requires { before form ≤ length text.now }
    ensures { result ≡ markup_of syntax.now form ended text.now }
{
    match form {
        Form::StartTag => tag_of(syntax, false, text, ended),
        Form::EndTag => tag_of(syntax, true, text, ended),
        _ => any_of(syntax, form, text, ended),
    }
}

#[inline(always)]
fn tag_of(syntax: &Syntax, closing: bool, text: &[u8], ended: bool) -> Option<Markup>
    requires { before (tag_form closing) ≤ length text.now }
    ensures { result ≡ markup_of syntax.now (tag_form closing) ended text.now }
{
    match quick_length(syntax, closing, text) {
        None => any_of(syntax, tag_form(closing), text, ended),
        Some(length) => Some(Markup {
            length,
            judged: Ok(tag_kind(closing)),
        }),
    }
}

fn tag_form(closing: bool) -> Form
    ensures { result ≡ tag_form closing }
{
    if closing {
        Form::EndTag
    } else {
        Form::StartTag
    }
}

fn tag_kind(closing: bool) -> TokenKind
    ensures { result ≡ tag_kind closing }
{
    if closing {
        TokenKind::EndTag
    } else {
        TokenKind::StartTag
    }
}

/// The length of a tag that needs no second look.
#[inline(always)]
fn quick_length(syntax: &Syntax, closing: bool, text: &[u8]) -> Option<usize>
    requires { before (tag_form closing) ≤ length text.now }
    ensures { IfSome result (λ n. IsQuickMarkup syntax.now closing text.now n) }
{
    let start = before(tag_form(closing));
    if !all_sgml(&text[..start]) {
        return None;
    }
    match quick_tag(syntax, closing, after(text, start)) {
        None => None,
        Some(n) => Some(start + n),
    }
}

fn any_of(syntax: &Syntax, form: Form, text: &[u8], ended: bool) -> Option<Markup>
    requires { before form ≤ length text.now }
    ensures { result ≡ markup_of syntax.now form ended text.now }
{
    let start = before(form);
    match end_of(syntax, form, after(text, start), ended) {
        None => None,
        Some(n) => Some(Markup {
            length: start + n,
            judged: judge(syntax, form, &text[..start + n]),
        }),
    }
}
