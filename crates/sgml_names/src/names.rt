// Names as a syntax has them.
ghost use Rattle.std.specs.Prelude.{◌≡◌, ◌<◌, length, IfOk};
ghost use Rattle.std.specs.List.{list_any};
ghost use Rattle.sgml_names.specs.Naming.{cased_character, cased, general_name, general_names, entity_name, is_long};

use sgml_syntax::Syntax;
use sgml_text::{Memory, Name, Names, fold};
use std::alloc::Global;

/// A name of anything but an entity: in upper case where NAMECASE GENERAL is YES (13.4.5).
pub fn general_name(alloc: Global, syntax: &Syntax, bytes: &[u8]) -> Result<Name, Memory>
    requires { 0 < length bytes.now }
    ensures { IfOk result (λ name. name ≡ general_name syntax.now bytes.now) }
{
    cased(alloc, syntax.general_fold, bytes)
}

/// These names, each as `general_name` has it, in the same order (13.4.5).
pub fn general_names(alloc: Global, syntax: &Syntax, names: &[Name]) -> Result<Names, Memory>
    ensures { IfOk result (λ all. all ≡ general_names syntax.now names.now) }
{
    let mut all = Vec::with_capacity(alloc, names.len())?;
    for name in names {
        let cased = general_name(alloc, syntax, name.items())?;
        all.push(cased)?;
    }
    Ok(Names::of(all))
}

/// The name of an entity: in upper case where NAMECASE ENTITY is YES (13.4.5).
pub fn entity_name(alloc: Global, syntax: &Syntax, bytes: &[u8]) -> Result<Name, Memory>
    requires { 0 < length bytes.now }
    ensures { IfOk result (λ name. name ≡ entity_name syntax.now bytes.now) }
{
    cased(alloc, syntax.entity_fold, bytes)
}

fn cased(alloc: Global, folded: bool, bytes: &[u8]) -> Result<Name, Memory>
    requires { 0 < length bytes.now }
    ensures { IfOk result (λ name. name ≡ cased folded bytes.now) }
{
    if folded {
        return fold(alloc, bytes);
    }
    let spelled = bytes.to_vec(alloc)?;
    Ok(Name::of(spelled))
}

/// A character of a name: in upper case where names are folded (13.4.5).
pub fn cased_character(folded: bool, b: u8) -> u8
    ensures { result ≡ cased_character folded b }
{
    if folded { b.to_ascii_uppercase() } else { b }
}

/// Whether these bytes of a name or token are more than NAMELEN (13.4.8). Folding changes no
/// length.
pub fn is_long(syntax: &Syntax, bytes: &[u8]) -> bool
    ensures { result ≡ is_long syntax.now bytes.now }
{
    bytes.len() > syntax.quantities.namelen as usize
}

/// Whether one of these names or tokens is longer than NAMELEN (13.4.8).
pub fn any_long(syntax: &Syntax, names: &[Name]) -> bool
    ensures { result ≡ list_any (is_long syntax.now) names.now }
{
    for name in names {
        if is_long(syntax, name.items()) {
            return true;
        }
    }
    false
}
