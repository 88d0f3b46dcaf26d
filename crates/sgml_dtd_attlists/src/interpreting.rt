// What an attribute list declaration declares.
ghost use Rattle.std.specs.Prelude.{◌≡◌, map, IfOk};
ghost use Rattle.std.specs.Option.{option_copied};
ghost use Rattle.sgml_attr.specs.Literal.{interpreted};
ghost use Rattle.sgml_dtd_attlists.specs.Interpreted.{group_of, declared_in, default_in, definition_in, list_in, default_units};

use crate::list::{AttributeList, Definitions};
use sgml_attr::{AttrError, Declared, Default, Definition, Units, interpret_literal};
use sgml_decl_forms::{AttlistDeclaration, AttributeForm};
use sgml_names::{general_name, general_names};
use sgml_syntax::Syntax;
use sgml_text::{Memory, Name};
use std::alloc::Global;

/// The names or tokens of a declared value's group (11.3.3).
pub(crate) fn group_of(declared: &Declared) -> &[Name]
    ensures { result.now ≡ group_of declared.now }
{
    match declared {
        Declared::Notation(names) => names.items(),
        Declared::Group(names) => names.items(),
        _ => &[],
    }
}

fn declared_in(alloc: Global, syntax: &Syntax, declared: Declared) -> Result<Declared, Memory>
    ensures { IfOk result (λ d. d ≡ declared_in syntax.now declared) }
{
    match declared {
        Declared::Notation(names) => Ok(Declared::Notation(general_names(
            alloc,
            syntax,
            names.items(),
        )?)),
        Declared::Group(names) => Ok(Declared::Group(general_names(alloc, syntax, names.items())?)),
        other => Ok(other),
    }
}

// Without a limit: how long the value is, is judged later.
fn interpreted(alloc: Global, declared: &Declared, units: &Units) -> Result<Units, Memory>
    ensures { IfOk result (λ read. read ≡ interpreted declared.now units.now) }
{
    match interpret_literal(alloc, units.items(), declared, u32::MAX) {
        Ok(read) => Ok(read),
        Err(_) => Err(Memory),
    }
}

fn default_in(alloc: Global, declared: &Declared, default: Default) -> Result<Default, Memory>
    ensures { IfOk result (λ d. d ≡ default_in declared.now default) }
{
    match default {
        Default::Value(units) => Ok(Default::Value(interpreted(alloc, declared, &units)?)),
        Default::Fixed(units) => Ok(Default::Fixed(interpreted(alloc, declared, &units)?)),
        other => Ok(other),
    }
}

fn definition_in(alloc: Global, syntax: &Syntax, form: AttributeForm) -> Result<Definition, Memory>
    ensures { IfOk result (λ d. d ≡ definition_in syntax.now form) }
{
    let AttributeForm {
        name,
        declared,
        default,
    } = form;
    let name = general_name(alloc, syntax, name.items())?;
    let default = default_in(alloc, &declared, default)?;
    let declared = declared_in(alloc, syntax, declared)?;
    Ok(Definition {
        name,
        declared,
        default,
    })
}

fn definitions_in(
    alloc: Global,
    syntax: &Syntax,
    forms: Vec<AttributeForm>,
) -> Result<Definitions, Memory>
    ensures { IfOk result (λ ds. ds ≡ map (definition_in syntax.now) forms.items) }
{
    let mut definitions = Vec::with_capacity(alloc, forms.len())?;
    for form in forms {
        let definition = definition_in(alloc, syntax, form)?;
        definitions.push(definition)?;
    }
    Ok(Definitions::of(definitions))
}

/// The list that a declaration declares.
pub(crate) fn list_in(
    alloc: Global,
    syntax: &Syntax,
    declaration: AttlistDeclaration,
) -> Result<AttributeList, Memory>
    ensures { IfOk result (λ list. list ≡ list_in syntax.now declaration) }
{
    let AttlistDeclaration { names, attributes } = declaration;
    let names = general_names(alloc, syntax, names.items())?;
    let definitions = definitions_in(alloc, syntax, attributes.into_items())?;
    Ok(AttributeList { names, definitions })
}

/// The units of a default that is a value.
pub(crate) fn default_units(default: &Default) -> Option<&Units>
    ensures { option_copied result ≡ default_units default.now }
{
    match default {
        Default::Value(units) => Some(units),
        Default::Fixed(units) => Some(units),
        _ => None,
    }
}
