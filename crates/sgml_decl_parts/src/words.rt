// What is due after a name, a token, a reserved name and a literal.
ghost use Rattle.std.specs.Prelude.{◌≡◌, if◌then◌else◌};
ghost use Rattle.sgml_text.specs.Characters.{is_word};
ghost use Rattle.sgml_decl_parts.specs.declared.form.Form.TheVariants.{Broken};
ghost use Rattle.sgml_decl_parts.specs.Forms.{begun, external, data_kind, after_external, content, is_declared_value, declared, default_word, is_text_kind, entity_value, start_omission, end_omission, after_name, token_in, after_token, after_reserved, literal_kind, after_literal, is_complete, is_in_group, may_refer};

use crate::form::{Form, Grouped, LiteralKind, Owner};
use sgml_delim::Delim;
use sgml_text::{Reason, is_word};

#[inline(never)]
fn begun(name: &[u8]) -> Form
    ensures { result ≡ begun name.now }
{
    if is_word(b"ELEMENT", name) {
        Form::ElementNames
    } else if is_word(b"ATTLIST", name) {
        Form::ListNames
    } else if is_word(b"ENTITY", name) {
        Form::EntityName
    } else if is_word(b"NOTATION", name) {
        Form::NotationName
    } else if is_word(b"SHORTREF", name) {
        Form::MapName
    } else if is_word(b"USEMAP", name) {
        Form::UsedMap
    } else if is_word(b"DOCTYPE", name) {
        Form::DoctypeName
    } else if is_word(b"LINKTYPE", name) || is_word(b"LINK", name) || is_word(b"USELINK", name) {
        Form::LeftOut(Reason::LinkOut)
    } else {
        Form::Broken
    }
}

#[inline(never)]
fn external(owner: Owner, name: &[u8]) -> Form
    ensures { result ≡ external owner name.now }
{
    if is_word(b"SYSTEM", name) {
        Form::System(owner)
    } else if is_word(b"PUBLIC", name) {
        Form::Public(owner)
    } else {
        Form::Broken
    }
}

#[inline(never)]
fn data_kind(name: &[u8]) -> Form
    ensures { result ≡ data_kind name.now }
{
    if is_word(b"CDATA", name) || is_word(b"NDATA", name) || is_word(b"SDATA", name) {
        Form::DataNotation
    } else if is_word(b"SUBDOC", name) {
        Form::LeftOut(Reason::SubdocOut)
    } else {
        Form::Broken
    }
}

#[inline(never)]
fn after_external(owner: Owner, name: &[u8]) -> Form
    ensures { result ≡ after_external owner name.now }
{
    match owner {
        Owner::Entity => data_kind(name),
        _ => Form::Broken,
    }
}

#[inline(never)]
fn content(name: &[u8]) -> Form
    ensures { result ≡ content name.now }
{
    if is_word(b"EMPTY", name) || is_word(b"CDATA", name) || is_word(b"RCDATA", name) {
        Form::Whole
    } else if is_word(b"ANY", name) {
        Form::AfterContent
    } else {
        Form::Broken
    }
}

#[inline(never)]
fn is_declared_value(name: &[u8]) -> bool
    ensures { result ≡ is_declared_value name.now }
{
    is_word(b"CDATA", name)
        || is_word(b"ENTITY", name)
        || is_word(b"ENTITIES", name)
        || is_word(b"ID", name)
        || is_word(b"IDREF", name)
        || is_word(b"IDREFS", name)
        || is_word(b"NAME", name)
        || is_word(b"NAMES", name)
        || is_word(b"NMTOKEN", name)
        || is_word(b"NMTOKENS", name)
        || is_word(b"NUMBER", name)
        || is_word(b"NUMBERS", name)
        || is_word(b"NUTOKEN", name)
        || is_word(b"NUTOKENS", name)
}

#[inline(never)]
fn declared(name: &[u8]) -> Form
    ensures { result ≡ declared name.now }
{
    if is_word(b"NOTATION", name) {
        Form::Notations
    } else if is_declared_value(name) {
        Form::Default
    } else {
        Form::Broken
    }
}

#[inline(never)]
fn default_word(name: &[u8]) -> Form
    ensures { result ≡ default_word name.now }
{
    if is_word(b"FIXED", name) {
        Form::Fixed
    } else if is_word(b"REQUIRED", name)
        || is_word(b"CURRENT", name)
        || is_word(b"CONREF", name)
        || is_word(b"IMPLIED", name)
    {
        Form::AttributeOrEnd
    } else {
        Form::Broken
    }
}

fn is_text_kind(name: &[u8]) -> bool
    ensures { result ≡ is_text_kind name.now }
{
    is_word(b"CDATA", name)
        || is_word(b"SDATA", name)
        || is_word(b"PI", name)
        || is_word(b"STARTTAG", name)
        || is_word(b"ENDTAG", name)
        || is_word(b"MS", name)
        || is_word(b"MD", name)
}

#[inline(never)]
fn entity_value(name: &[u8]) -> Form
    ensures { result ≡ entity_value name.now }
{
    if is_text_kind(name) {
        Form::EntityText
    } else {
        external(Owner::Entity, name)
    }
}

#[inline(never)]
fn start_omission(name: &[u8]) -> Form
    ensures { result ≡ start_omission name.now }
{
    if is_word(b"O", name) {
        Form::EndOmission
    } else {
        content(name)
    }
}

#[inline(never)]
fn end_omission(name: &[u8]) -> Form
    ensures { result ≡ end_omission name.now }
{
    if is_word(b"O", name) {
        Form::Content
    } else {
        Form::Broken
    }
}

/// What is due after a name.
#[inline(always)]
pub fn after_name(form: Form, name: &[u8]) -> Form
    ensures { result ≡ after_name form name.now }
{
    match form {
        Form::Keyword => begun(name),
        Form::DoctypeName => Form::DoctypeNamed,
        Form::DoctypeNamed => external(Owner::Doctype, name),
        Form::ElementNames => Form::StartOmission,
        Form::StartOmission => start_omission(name),
        Form::EndOmission => end_omission(name),
        Form::Content => content(name),
        Form::Model(level) => Form::Model(level),
        Form::ListNames => Form::Attribute,
        Form::Attribute => Form::Declared,
        Form::AttributeOrEnd => Form::Declared,
        Form::Declared => declared(name),
        Form::Default => Form::AttributeOrEnd,
        Form::Fixed => Form::AttributeOrEnd,
        Form::EntityName => Form::EntityValue,
        Form::ParameterName => Form::EntityValue,
        Form::EntityValue => entity_value(name),
        Form::DataNotation => Form::Whole,
        Form::NotationName => Form::NotationNamed,
        Form::NotationNamed => external(Owner::Notation, name),
        Form::System(owner) => after_external(owner, name),
        Form::PublicNamed(owner) => after_external(owner, name),
        Form::External(owner) => after_external(owner, name),
        Form::MapName => Form::MapLiteral,
        Form::MapEntity => Form::MapLiteralOrEnd,
        Form::UsedMap => Form::MapTargets,
        Form::MapTargets => Form::Whole,
        Form::Statuses => Form::Statuses,
        Form::Group(grouped, due, connector) => {
            if due {
                Form::Group(grouped, false, connector)
            } else {
                Form::Broken
            }
        }
        _ => Form::Broken,
    }
}

fn token_in(grouped: Grouped, due: bool, connector: Option<Delim>) -> Form
    ensures { result ≡ token_in grouped due connector }
{
    match grouped {
        Grouped::Tokens => {
            if due {
                Form::Group(Grouped::Tokens, false, connector)
            } else {
                Form::Broken
            }
        }
        _ => Form::Broken,
    }
}

/// What is due after a token that is no name.
pub fn after_token(form: Form) -> Form
    ensures { result ≡ after_token form }
{
    match form {
        Form::Default => Form::AttributeOrEnd,
        Form::Fixed => Form::AttributeOrEnd,
        Form::Group(grouped, due, connector) => token_in(grouped, due, connector),
        _ => Form::Broken,
    }
}

fn only(word: &[u8], name: &[u8], form: Form) -> Form
    ensures { result ≡ (if is_word word.now name.now then form else Broken) }
{
    if is_word(word, name) {
        form
    } else {
        Form::Broken
    }
}

/// What is due after `#` and a name.
pub fn after_reserved(form: Form, name: &[u8]) -> Form
    ensures { result ≡ after_reserved form name.now }
{
    match form {
        Form::DoctypeName => only(b"IMPLIED", name, Form::LeftOut(Reason::OtherOut)),
        Form::Model(level) => only(b"PCDATA", name, Form::Model(level)),
        Form::ListNames => only(b"NOTATION", name, Form::LeftOut(Reason::OtherOut)),
        Form::Default => default_word(name),
        Form::EntityName => only(b"DEFAULT", name, Form::LeftOut(Reason::OtherOut)),
        Form::UsedMap => only(b"EMPTY", name, Form::MapTargets),
        _ => Form::Broken,
    }
}

/// Which kind of literal may stand.
pub fn literal_kind(form: Form) -> LiteralKind
    ensures { result ≡ literal_kind form }
{
    match form {
        Form::EntityValue => LiteralKind::Parameter,
        Form::EntityText => LiteralKind::Parameter,
        Form::MapLiteral => LiteralKind::Parameter,
        Form::MapLiteralOrEnd => LiteralKind::Parameter,
        Form::System(_) => LiteralKind::Plain,
        Form::Public(_) => LiteralKind::Plain,
        Form::PublicNamed(_) => LiteralKind::Plain,
        Form::Default => LiteralKind::Value,
        Form::Fixed => LiteralKind::Value,
        _ => LiteralKind::NoLiteral,
    }
}

/// What is due after a literal.
pub fn after_literal(form: Form) -> Form
    ensures { result ≡ after_literal form }
{
    match form {
        Form::EntityValue => Form::Whole,
        Form::EntityText => Form::Whole,
        Form::MapLiteral => Form::MapEntity,
        Form::MapLiteralOrEnd => Form::MapEntity,
        Form::System(owner) => Form::External(owner),
        Form::Public(owner) => Form::PublicNamed(owner),
        Form::PublicNamed(owner) => Form::External(owner),
        Form::Default => Form::AttributeOrEnd,
        Form::Fixed => Form::AttributeOrEnd,
        _ => Form::Broken,
    }
}

/// Whether the declaration may end here.
pub fn is_complete(form: Form) -> bool
    ensures { result ≡ is_complete form }
{
    match form {
        Form::Comment
        | Form::Whole
        | Form::DoctypeNamed
        | Form::AfterModel
        | Form::AfterModelPlus
        | Form::AfterContent
        | Form::AfterExclusions
        | Form::AttributeOrEnd
        | Form::System(_)
        | Form::PublicNamed(_)
        | Form::External(_)
        | Form::MapLiteralOrEnd
        | Form::MapTargets => true,
        _ => false,
    }
}

/// Whether the mode is that of groups (9.6.1).
pub fn is_in_group(form: Form) -> bool
    ensures { result ≡ is_in_group form }
{
    match form {
        Form::Model(_) => true,
        Form::Group(_, _, _) => true,
        _ => false,
    }
}

/// Whether a parameter reference may stand.
pub fn may_refer(form: Form) -> bool
    ensures { result ≡ may_refer form }
{
    match form {
        Form::Comment => false,
        Form::Keyword => false,
        _ => true,
    }
}
