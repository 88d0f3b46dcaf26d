// A test for each reason against an attribute list.
ghost use Rattle.std.specs.Prelude.{◌≡◌, ◌+◌, ◌||◌, ◌&&◌, not, IfOk, nat_lt, count_by, sum_by};
ghost use Rattle.std.specs.List.{list_any};
ghost use Rattle.sgml_names.specs.Naming.{is_long};
ghost use Rattle.sgml_dtd_attlists.specs.Interpreted.{group_of, default_units};
ghost use Rattle.sgml_dtd_attlists.specs.Rows.{refusal_in, refusals, is_too_long, is_no_token, is_in_no_group, has_long_name, passes_namelen, is_past, passes_litlen, is_id, is_notation, ids_twice, is_left_open, gives_id, count_of, passes_attcnt, has_long};

use crate::interpreting::{default_units, group_of};
use crate::list::AttributeList;
use sgml_attr::{AttrError, Declared, Default, Definition, judge_default};
use sgml_names::{any_long, is_long};
use sgml_syntax::Syntax;
use sgml_text::{Memory, Name};
use std::alloc::Global;

// Why the default of an attribute may not be declared so.
fn refusal_in(
    alloc: Global,
    syntax: &Syntax,
    definition: &Definition,
) -> Result<Option<AttrError>, Memory>
    ensures { IfOk result (λ r. r ≡ refusal_in syntax.now definition.now) }
{
    let Some(units) = default_units(&definition.default) else {
        return Ok(None);
    };
    match judge_default(alloc, syntax, &definition.declared, units) {
        Ok(()) => Ok(None),
        Err(AttrError::Memory) => Err(Memory),
        Err(reason) => Ok(Some(reason)),
    }
}

/// For each definition why its default may not be declared so.
pub(crate) fn refusals(
    alloc: Global,
    syntax: &Syntax,
    definitions: &[Definition],
) -> Result<Vec<Option<AttrError>>, Memory>
    ensures { IfOk result (λ all. all.items ≡ refusals syntax.now definitions.now) }
{
    let mut all = Vec::with_capacity(alloc, definitions.len())?;
    for definition in definitions {
        let refusal = refusal_in(alloc, syntax, definition)?;
        all.push(refusal)?;
    }
    Ok(all)
}

fn is_too_long(refusal: Option<AttrError>) -> bool
    ensures { result ≡ is_too_long refusal }
{
    match refusal {
        Some(AttrError::NameLength) => true,
        _ => false,
    }
}

fn is_no_token(refusal: Option<AttrError>) -> bool
    ensures { result ≡ is_no_token refusal }
{
    match refusal {
        Some(AttrError::NotAToken) => true,
        _ => false,
    }
}

fn is_in_no_group(refusal: Option<AttrError>) -> bool
    ensures { result ≡ is_in_no_group refusal }
{
    match refusal {
        Some(AttrError::NotInGroup) => true,
        _ => false,
    }
}

fn any_too_long(refusals: &[Option<AttrError>]) -> bool
    ensures { result ≡ list_any is_too_long refusals.now }
{
    for refusal in refusals {
        if is_too_long(*refusal) {
            return true;
        }
    }
    false
}

/// Whether a default isn't of its declared value's tokens.
pub(crate) fn any_no_token(refusals: &[Option<AttrError>]) -> bool
    ensures { result ≡ list_any is_no_token refusals.now }
{
    for refusal in refusals {
        if is_no_token(*refusal) {
            return true;
        }
    }
    false
}

/// Whether a token of a default isn't in its group.
pub(crate) fn any_in_no_group(refusals: &[Option<AttrError>]) -> bool
    ensures { result ≡ list_any is_in_no_group refusals.now }
{
    for refusal in refusals {
        if is_in_no_group(*refusal) {
            return true;
        }
    }
    false
}

fn has_long_name(syntax: &Syntax, definition: &Definition) -> bool
    ensures { result ≡ has_long_name syntax.now definition.now }
{
    is_long(syntax, definition.name.items()) || any_long(syntax, group_of(&definition.declared))
}

fn any_long_name(syntax: &Syntax, definitions: &[Definition]) -> bool
    ensures { result ≡ list_any (has_long_name syntax.now) definitions.now }
{
    for definition in definitions {
        if has_long_name(syntax, definition) {
            return true;
        }
    }
    false
}

/// Whether a name or token passes NAMELEN.
pub(crate) fn passes_namelen(
    syntax: &Syntax,
    list: &AttributeList,
    refusals: &[Option<AttrError>],
) -> bool
    ensures { result ≡ has_long syntax.now list.now refusals.now }
{
    any_long(syntax, list.names.items())
        || any_long_name(syntax, list.definitions.items())
        || any_too_long(refusals)
}

fn is_past(limit: u32, definition: &Definition) -> bool
    ensures { result ≡ is_past limit (default_units definition.now.default) }
{
    match default_units(&definition.default) {
        Some(units) => units.items().len() > limit as usize,
        None => false,
    }
}

/// Whether a default value passes LITLEN.
pub(crate) fn passes_litlen(syntax: &Syntax, list: &AttributeList) -> bool
    ensures { result ≡ passes_litlen syntax.now list.now }
{
    any_past(syntax.quantities.litlen, list.definitions.items())
}

fn any_past(limit: u32, definitions: &[Definition]) -> bool
    ensures { result ≡ list_any (λ d. is_past limit (default_units d.default)) definitions.now }
{
    for definition in definitions {
        if is_past(limit, definition) {
            return true;
        }
    }
    false
}

fn is_id(definition: &Definition) -> bool
    ensures { result ≡ is_id definition.now }
{
    match &definition.declared {
        Declared::Id => true,
        _ => false,
    }
}

fn is_notation(definition: &Definition) -> bool
    ensures { result ≡ is_notation definition.now }
{
    match &definition.declared {
        Declared::Notation(_) => true,
        _ => false,
    }
}

fn count_ids(definitions: &[Definition]) -> usize
    ensures { result ≡ count_by is_id definitions.now }
{
    definitions.iter().filter(|d| is_id(d)).count()
}

fn count_notations(definitions: &[Definition]) -> usize
    ensures { result ≡ count_by is_notation definitions.now }
{
    definitions.iter().filter(|d| is_notation(d)).count()
}

/// Whether there are two ID or two NOTATION attributes.
pub(crate) fn ids_twice(list: &AttributeList) -> bool
    ensures { result ≡ ids_twice list.now }
{
    count_ids(list.definitions.items()) > 1 || count_notations(list.definitions.items()) > 1
}

fn is_left_open(default: &Default) -> bool
    ensures { result ≡ is_left_open default.now }
{
    match default {
        Default::Required => true,
        Default::Implied => true,
        _ => false,
    }
}

/// Whether the default of an ID is neither #REQUIRED nor #IMPLIED.
pub(crate) fn gives_id(list: &AttributeList) -> bool
    ensures { result ≡ gives_id list.now }
{
    any_id_given(list.definitions.items())
}

fn any_id_given(definitions: &[Definition]) -> bool
    ensures { result ≡ list_any (λ d. is_id d && not (is_left_open d.default)) definitions.now }
{
    for definition in definitions {
        if is_id(definition) && !is_left_open(&definition.default) {
            return true;
        }
    }
    false
}

/// Whether the names and tokens pass ATTCNT.
pub(crate) fn passes_attcnt(syntax: &Syntax, list: &AttributeList) -> bool
    ensures { result ≡ passes_attcnt syntax.now list.now }
{
    passes(syntax.quantities.attcnt as usize, list.definitions.items())
}

fn passes(limit: usize, definitions: &[Definition]) -> bool
    ensures { result ≡ nat_lt limit (sum_by count_of definitions.now) }
{
    let mut left = limit;
    let mut rest = definitions;
    'definitions: while let [definition, after @ ..] = rest {
        let tokens = group_of(&definition.declared).len();
        if tokens >= left {
            return true;
        }
        left -= tokens + 1;
        rest = after;
    }
    false
}
