// Which names and literals of a declaration are too long, by what was due where they stand.
ghost use Rattle.std.specs.Prelude.{◌≡◌, IfOk, nat_lt};
ghost use Rattle.sgml_attr.specs.Values.{refusal_of_default};
ghost use Rattle.sgml_decl_lexemes.specs.Lengths.{form_after, is_declared_value, is_cdata_word, cdata_after, due_after, is_limited, word_of, text_of, is_default, units_of, declared_by, value_by, is_name_length, has_long_token, passes_litlen, is_long_name, is_long_literal, has_long_name, has_long_literal};

use crate::lexeme::Lexeme;
use sgml_attr::{AttrError, Declared, interpret_literal, judge_default};
use sgml_decl_parts::{Form, after_literal, after_name, after_reserved, after_sign, after_token};
use sgml_entity::names::is_long;
use sgml_marked::is_keyword;
use sgml_syntax::Syntax;
use sgml_text::{Memory, Units, is_word};
use std::alloc::Global;

/// What is due at a lexeme.
#[derive(Clone, Copy)]
pub(crate) struct Due {
    pub(crate) form: Form,
    /// The attribute whose default value may be due is declared as CDATA.
    pub(crate) cdata: bool,
}

fn form_after(form: Form, lexeme: &Lexeme) -> Form
    ensures { result ≡ form_after form lexeme.now }
{
    match lexeme {
        Lexeme::Name(name) => after_name(form, name.items()),
        Lexeme::Token(_) => after_token(form),
        Lexeme::Reserved(name) => after_reserved(form, name.items()),
        Lexeme::Literal(_) => after_literal(form),
        Lexeme::Value(_) => after_literal(form),
        Lexeme::Sign(sign) => after_sign(form, *sign),
    }
}

fn is_declared_value(form: Form) -> bool
    ensures { result ≡ is_declared_value form }
{
    match form {
        Form::Declared => true,
        _ => false,
    }
}

fn is_cdata_word(lexeme: &Lexeme) -> bool
    ensures { result ≡ is_cdata_word lexeme.now }
{
    match lexeme {
        Lexeme::Name(name) => is_word(b"CDATA", name.items()),
        _ => false,
    }
}

fn cdata_after(due: Due, lexeme: &Lexeme) -> bool
    ensures { result ≡ cdata_after due lexeme.now }
{
    if is_declared_value(due.form) {
        is_cdata_word(lexeme)
    } else {
        due.cdata
    }
}

fn due_after(due: Due, lexeme: &Lexeme) -> Due
    ensures { result ≡ due_after due lexeme.now }
{
    Due {
        form: form_after(due.form, lexeme),
        cdata: cdata_after(due, lexeme),
    }
}

fn is_limited(form: Form, word: &[u8]) -> bool
    ensures { result ≡ is_limited form word.now }
{
    match form {
        Form::DoctypeName => true,
        Form::ElementNames => true,
        Form::Model(_) => true,
        Form::ListNames => true,
        Form::Attribute => true,
        Form::AttributeOrEnd => true,
        Form::EntityName => true,
        Form::ParameterName => true,
        Form::DataNotation => true,
        Form::NotationName => true,
        Form::MapName => true,
        Form::MapEntity => true,
        Form::UsedMap => true,
        Form::MapTargets => true,
        Form::Statuses => !is_keyword(word),
        Form::Group(..) => true,
        _ => false,
    }
}

fn word_of(lexeme: &Lexeme) -> &[u8]
    ensures { result.now ≡ word_of lexeme.now }
{
    match lexeme {
        Lexeme::Name(name) => name.items(),
        Lexeme::Token(token) => token.items(),
        _ => b"",
    }
}

fn text_of(lexeme: &Lexeme) -> &[u8]
    ensures { result.now ≡ text_of lexeme.now }
{
    match lexeme {
        Lexeme::Literal(text) => text.items(),
        _ => b"",
    }
}

fn is_default(form: Form) -> bool
    ensures { result ≡ is_default form }
{
    match form {
        Form::Default => true,
        Form::Fixed => true,
        _ => false,
    }
}

fn units_of(alloc: Global, lexeme: &Lexeme) -> Result<Units, Memory>
    ensures { IfOk result (λ units. units ≡ units_of lexeme.now) }
{
    match lexeme {
        Lexeme::Value(units) => units.copy(alloc),
        Lexeme::Name(name) => Units::of_bytes(alloc, name.items()),
        Lexeme::Token(token) => Units::of_bytes(alloc, token.items()),
        _ => Ok(Units::of(Vec::new(alloc))),
    }
}

fn declared_by(cdata: bool) -> Declared
    ensures { result ≡ declared_by cdata }
{
    if cdata {
        Declared::Cdata
    } else {
        Declared::Name
    }
}

// A default value as it is interpreted, without a limit.
fn value_by(alloc: Global, cdata: bool, lexeme: &Lexeme) -> Result<Units, Memory>
    ensures { IfOk result (λ units. units ≡ value_by cdata lexeme.now) }
{
    let units = units_of(alloc, lexeme)?;
    match interpret_literal(alloc, units.items(), &declared_by(cdata), u32::MAX) {
        Ok(read) => Ok(read),
        Err(_) => Err(Memory),
    }
}

fn refusal_of(
    alloc: Global,
    syntax: &Syntax,
    cdata: bool,
    units: &Units,
) -> Result<Option<AttrError>, Memory>
    ensures { IfOk result (λ r. r ≡ refusal_of_default syntax.now (declared_by cdata) units.now) }
{
    match judge_default(alloc, syntax, &declared_by(cdata), units) {
        Ok(()) => Ok(None),
        Err(AttrError::Memory) => Err(Memory),
        Err(reason) => Ok(Some(reason)),
    }
}

fn is_name_length(refusal: Option<AttrError>) -> bool
    ensures { result ≡ is_name_length refusal }
{
    match refusal {
        Some(AttrError::NameLength) => true,
        _ => false,
    }
}

fn has_long_token(
    alloc: Global,
    syntax: &Syntax,
    cdata: bool,
    lexeme: &Lexeme,
) -> Result<bool, Memory>
    ensures { IfOk result (λ b. b ≡ has_long_token syntax.now cdata lexeme.now) }
{
    let units = value_by(alloc, cdata, lexeme)?;
    Ok(is_name_length(refusal_of(alloc, syntax, cdata, &units)?))
}

fn passes_litlen(syntax: &Syntax, n: usize) -> bool
    ensures { result ≡ passes_litlen syntax.now n }
{
    n > syntax.quantities.litlen as usize
}

fn is_long_name(alloc: Global, syntax: &Syntax, due: Due, lexeme: &Lexeme) -> Result<bool, Memory>
    ensures { IfOk result (λ b. b ≡ is_long_name syntax.now due lexeme.now) }
{
    if is_default(due.form) {
        return has_long_token(alloc, syntax, due.cdata, lexeme);
    }
    let word = word_of(lexeme);
    Ok(is_limited(due.form, word) && is_long(syntax, word))
}

fn is_long_literal(
    alloc: Global,
    syntax: &Syntax,
    due: Due,
    lexeme: &Lexeme,
) -> Result<bool, Memory>
    ensures { IfOk result (λ b. b ≡ is_long_literal syntax.now due lexeme.now) }
{
    if is_default(due.form) {
        let units = value_by(alloc, due.cdata, lexeme)?;
        return Ok(passes_litlen(syntax, units.items().len()));
    }
    Ok(passes_litlen(syntax, text_of(lexeme).len()))
}

/// Whether a name or token among the lexemes passes NAMELEN.
pub(crate) fn has_long_name(
    alloc: Global,
    syntax: &Syntax,
    first: Due,
    lexemes: &[Lexeme],
) -> Result<bool, Memory>
    ensures { IfOk result (λ b. b ≡ has_long_name syntax.now first lexemes.now) }
{
    let mut due = first;
    let mut rest = lexemes;
    'lexemes: while let [lexeme, after @ ..] = rest {
        if is_long_name(alloc, syntax, due, lexeme)? {
            return Ok(true);
        }
        due = due_after(due, lexeme);
        rest = after;
    }
    Ok(false)
}

/// Whether a literal among the lexemes, or a default value, passes LITLEN.
pub(crate) fn has_long_literal(
    alloc: Global,
    syntax: &Syntax,
    first: Due,
    lexemes: &[Lexeme],
) -> Result<bool, Memory>
    ensures { IfOk result (λ b. b ≡ has_long_literal syntax.now first lexemes.now) }
{
    let mut due = first;
    let mut rest = lexemes;
    'lexemes: while let [lexeme, after @ ..] = rest {
        if is_long_literal(alloc, syntax, due, lexeme)? {
            return Ok(true);
        }
        due = due_after(due, lexeme);
        rest = after;
    }
    Ok(false)
}
