// What markup is as a whole, or why its bytes are of no form.
ghost use Rattle.std.specs.Prelude.{◌≡◌, ◌≤◌, length, drop, take, ◌-◌};
ghost use Rattle.sgml_markup.specs.Forms.{judged, judged_form, judged_end_tag, judged_instruction, judged_comment, if_short, is_comments, may_stand, comment_after, is_between, last_byte, before};
ghost use Rattle.sgml_markup.specs.References.{name_length};
ghost use Rattle.sgml_delim.specs.declared.ends.Inside.TheVariants.{Between};

use crate::kinds::{Form, TokenKind};
use crate::references::{character_of, too_long};
use crate::tags::{begins_tagc, judge_tag};
use sgml_delim::Inside;
use sgml_syntax::Syntax;
use sgml_text::{Reason, all_sgml, is_separator};

/// How many bytes the delimiter has that begins markup of this form.
pub fn before(form: Form) -> usize
    ensures { result ≡ before form }
{
    match form {
        Form::StartTag | Form::EntityReference | Form::ParameterReference | Form::SubsetEnd => 1,
        Form::EndTag
        | Form::CharacterReference
        | Form::Instruction
        | Form::CommentDeclaration
        | Form::Declaration => 2,
        Form::SectionStart => 3,
    }
}

/// What markup of this form is, or the first reason, in the order of reasons, for which its bytes
/// alone may not be. The markup begins with the form's delimiter.
pub fn judge(syntax: &Syntax, form: Form, markup: &[u8]) -> Result<TokenKind, Reason>
    requires { before form ≤ length markup.now }
    ensures { result ≡ judged syntax.now form markup.now }
{
    if all_sgml(markup) {
        judge_form(syntax, form, markup)
    } else {
        Err(Reason::NonSgml)
    }
}

fn judge_form(syntax: &Syntax, form: Form, markup: &[u8]) -> Result<TokenKind, Reason>
    requires { before form ≤ length markup.now }
    ensures { result ≡ judged_form syntax.now form markup.now }
{
    match form {
        Form::StartTag => if begins_tagc(&markup[1..]) {
            Ok(TokenKind::EmptyStart)
        } else {
            judge_tag(syntax, false, 1, TokenKind::StartTag, markup)
        },
        Form::EndTag => if begins_tagc(&markup[2..]) {
            Ok(TokenKind::EmptyEnd)
        } else {
            judge_end_tag(syntax, markup)
        },
        Form::EntityReference => judge_name(syntax, &markup[1..], TokenKind::EntityRef),
        Form::ParameterReference => judge_name(syntax, &markup[1..], TokenKind::ParameterRef),
        Form::CharacterReference => character_of(syntax, &markup[2..]),
        Form::Instruction => judge_instruction(syntax, markup.len()),
        Form::CommentDeclaration => judge_comment(&markup[2..]),
        Form::SectionStart => Ok(TokenKind::SectionStart),
        Form::Declaration => Ok(TokenKind::Declaration),
        Form::SubsetEnd => Ok(TokenKind::SubsetEnd),
    }
}

fn judge_end_tag(syntax: &Syntax, markup: &[u8]) -> Result<TokenKind, Reason>
    requires { 2 ≤ length markup.now }
    ensures { result ≡ judged_end_tag syntax.now markup.now }
{
    if last_byte(markup) == b'/' {
        Err(Reason::TagSyntax)
    } else {
        judge_tag(syntax, true, 2, TokenKind::EndTag, markup)
    }
}

fn last_byte(text: &[u8]) -> u8
    ensures { result ≡ last_byte text.now }
{
    if text.is_empty() {
        0
    } else {
        text[text.len() - 1]
    }
}

/// By the length of the name that the text begins with.
fn judge_name(syntax: &Syntax, text: &[u8], kind: TokenKind) -> Result<TokenKind, Reason>
    ensures { result ≡ if_short syntax.now (name_length syntax.now text.now) kind }
{
    if too_long(syntax, syntax.names.name_length(text)) {
        Err(Reason::NameLength)
    } else {
        Ok(kind)
    }
}

fn judge_instruction(syntax: &Syntax, length: usize) -> Result<TokenKind, Reason>
    ensures { result ≡ judged_instruction syntax.now length }
{
    if length > 3 && length - 3 > syntax.quantities.pilen as usize {
        Err(Reason::PiLength)
    } else {
        Ok(TokenKind::Pi)
    }
}

/// By the text between MDO and MDC.
fn judge_comment(text: &[u8]) -> Result<TokenKind, Reason>
    ensures { result ≡ judged_comment text.now }
{
    let end = if text.is_empty() { 0 } else { text.len() - 1 };
    if is_comments(&text[..end]) {
        Ok(TokenKind::Comment)
    } else {
        Err(Reason::DeclarationSyntax)
    }
}

fn is_comments(text: &[u8]) -> bool
    ensures { result ≡ is_comments Between text.now }
{
    let mut inside = Inside::Between;
    'bytes: for i in 0..text.len() {
        if !may_stand(inside, text[i]) {
            return false;
        }
        inside = comment_after(inside, text[i]);
    }
    is_between(inside)
}

fn may_stand(inside: Inside, b: u8) -> bool
    ensures { result ≡ may_stand inside b }
{
    match inside {
        Inside::Between => is_separator(b) || b == b'-',
        Inside::Minus => b == b'-',
        Inside::Comment | Inside::CommentMinus => true,
        Inside::Name | Inside::Literal(_) => false,
    }
}

fn comment_after(inside: Inside, b: u8) -> Inside
    ensures { result ≡ comment_after inside b }
{
    match inside {
        Inside::Between => if b == b'-' {
            Inside::Minus
        } else {
            Inside::Between
        },
        Inside::Minus => Inside::Comment,
        Inside::Comment => if b == b'-' {
            Inside::CommentMinus
        } else {
            Inside::Comment
        },
        Inside::CommentMinus => if b == b'-' {
            Inside::Between
        } else {
            Inside::Comment
        },
        Inside::Name => Inside::Name,
        Inside::Literal(q) => Inside::Literal(q),
    }
}

fn is_between(inside: Inside) -> bool
    ensures { result ≡ is_between inside }
{
    match inside {
        Inside::Between => true,
        _ => false,
    }
}
