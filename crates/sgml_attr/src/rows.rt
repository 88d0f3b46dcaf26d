// Why a value is refused: a test for each reason.
ghost use Rattle.std.specs.Prelude.{◌≡◌, length, nat_lt, ◌&&◌, IfOk};
ghost use Rattle.std.specs.List.{list_all};
ghost use Rattle.std.specs.Option.{option_copied};
ghost use Rattle.sgml_attr.specs.Tokens.{is_token, is_name_token, kind_of, is_list, is_entity, tokens};
ghost use Rattle.sgml_attr.specs.Rows.{passes_namelen, are_tokens, is_notation, is_declared_notation, names_no_notation, is_in_group, is_data, is_data_entity, names_no_data, are_other, is_other};

use crate::definition::Declared;
use crate::tokens::{is_count, is_entity, is_list, is_name_token, is_token, kind_of, tokens_in};
use crate::value::same_names;
use sgml_entity::{Body, Entities, Space};
use sgml_names::has;
use sgml_syntax::Syntax;
use sgml_text::{Memory, Name, Units};
use std::alloc::Global;

pub(crate) fn passes_namelen(syntax: &Syntax, names: &[Name]) -> bool
    ensures { result ≡ passes_namelen syntax.now names.now }
{
    for name in names {
        if is_too_long(syntax, name) {
            return true;
        }
    }
    false
}

fn is_too_long(syntax: &Syntax, name: &Name) -> bool
    ensures { result ≡ (is_name_token syntax.now.names name.now && nat_lt syntax.now.quantities.namelen (length name.now)) }
{
    let bytes = name.items();
    bytes.len() > syntax.quantities.namelen as usize && is_name_token(syntax.names, bytes)
}

pub(crate) fn are_tokens(syntax: &Syntax, declared: &Declared, names: &[Name]) -> bool
    ensures { result ≡ are_tokens syntax.now declared.now names.now }
{
    is_count(is_list(declared), names.len()) && all_tokens(syntax, declared, names)
}

fn all_tokens(syntax: &Syntax, declared: &Declared, names: &[Name]) -> bool
    ensures { result ≡ list_all (is_token syntax.now.names (kind_of declared.now)) names.now }
{
    for name in names {
        if !is_token(syntax.names, kind_of(declared), name.items()) {
            return false;
        }
    }
    true
}

pub(crate) fn names_no_notation(
    syntax: &Syntax,
    declared: &Declared,
    entities: &Entities,
    names: &[Name],
) -> bool
    ensures { result ≡ names_no_notation syntax.now declared.now entities.now.notations names.now }
{
    is_notation(declared) && are_tokens(syntax, declared, names) && !all_notations(entities, names)
}

fn is_notation(declared: &Declared) -> bool
    ensures { result ≡ is_notation declared.now }
{
    match declared {
        Declared::Notation(_) => true,
        _ => false,
    }
}

fn all_notations(entities: &Entities, names: &[Name]) -> bool
    ensures { result ≡ list_all (is_declared_notation entities.now.notations) names.now }
{
    for name in names {
        if entities.notation_number(name).is_none() {
            return false;
        }
    }
    true
}

fn is_in_group(declared: &Declared, name: &Name) -> bool
    ensures { result ≡ is_in_group declared.now name.now }
{
    match declared {
        Declared::Notation(names) => has(names.items(), name.items()),
        Declared::Group(names) => has(names.items(), name.items()),
        _ => true,
    }
}

pub(crate) fn all_in_group(declared: &Declared, names: &[Name]) -> bool
    ensures { result ≡ list_all (is_in_group declared.now) names.now }
{
    for name in names {
        if !is_in_group(declared, name) {
            return false;
        }
    }
    true
}

fn is_data(body: &Body) -> bool
    ensures { result ≡ is_data body.now }
{
    match body {
        Body::Cdata(_) => true,
        Body::Sdata(_) => true,
        Body::ExternalData { .. } => true,
        _ => false,
    }
}

fn is_data_entity(entities: &Entities, name: &Name) -> bool
    ensures { result ≡ is_data_entity entities.now.entities name.now }
{
    match entities.lookup(Space::General, name) {
        Some(number) => is_data(&entities.entity(number).body),
        None => false,
    }
}

fn all_data(entities: &Entities, names: &[Name]) -> bool
    ensures { result ≡ list_all (is_data_entity entities.now.entities) names.now }
{
    for name in names {
        if !is_data_entity(entities, name) {
            return false;
        }
    }
    true
}

pub(crate) fn names_no_data(declared: &Declared, entities: &Entities, names: &[Name]) -> bool
    ensures { result ≡ names_no_data declared.now entities.now.entities names.now }
{
    is_entity(declared) && !all_data(entities, names)
}

pub(crate) fn are_other(
    alloc: Global,
    folding: bool,
    fixed: Option<&Units>,
    names: &[Name],
) -> Result<bool, Memory>
    ensures { IfOk result (λ other. other ≡ are_other folding (option_copied fixed.entry) names.now) }
{
    match fixed {
        Some(units) => {
            let tokens = tokens_in(alloc, folding, units.items())?;
            Ok(!same_names(names, &tokens))
        }
        None => Ok(false),
    }
}

pub(crate) fn is_other(fixed: Option<&Units>, units: &Units) -> bool
    ensures { result ≡ is_other (option_copied fixed.entry) units.now }
{
    match fixed {
        Some(other) => *units != *other,
        None => false,
    }
}
