// Whether a name is one of several, and whether names repeat.
ghost use Rattle.std.specs.Prelude.{◌≡◌, ◌++◌, ◌∷◌, false, not, IfOk, OnErr, length, take, [], is_some};
ghost use Rattle.std.specs.List.{list_any};
ghost use Rattle.sgml_names.specs.Index.{names_of, found, with_if_new};
ghost use Rattle.sgml_names.specs.Lists.{has, repeats};

use crate::index::NameIndex;
use sgml_text::{Memory, Name};
use std::alloc::Global;

/// Whether the name is one of these.
pub fn has(names: &[Name], name: &[u8]) -> bool
    ensures { result ≡ has names.now name.now }
{
    for other in names {
        if name == other.items() {
            return true;
        }
    }
    false
}

/// Whether one of these names is in the table.
pub fn any_found(table: &NameIndex, names: &[Name]) -> bool
    ensures { result ≡ list_any (λ name. is_some (found table.now name)) names.now }
{
    for name in names {
        if table.number(name.items()).is_some() {
            return true;
        }
    }
    false
}

/// Adds a name to those that were seen, and tells whether it wasn't among them. After an error they
/// are as they were.
pub fn see(seen: &mut NameIndex, name: &[u8]) -> Result<bool, Memory>
    ensures new { IfOk result (λ new. new ≡ not (has (names_of seen.old) name.now)) }
    ensures seen { IfOk result (λ new. names_of seen.new ≡ with_if_new new (names_of seen.old) name.now) }
    ensures front { take (length seen.old) seen.new ≡ seen.old }
    ensures err { OnErr result (seen.new ≡ seen.old) }
{
    if seen.number(name).is_some() {
        return Ok(false);
    }
    seen.add(name, 0)?;
    Ok(true)
}

/// Whether one of these names was seen or stands twice. Where none was and none does, they are now
/// seen; else, and after an error, some of them may be.
pub fn any_seen(seen: &mut NameIndex, names: &[Name]) -> Result<bool, Memory>
    ensures again { IfOk result (λ again. again ≡ repeats (names_of seen.old) names.now) }
    ensures seen { IfOk result (λ again. again ≡ false → names_of seen.new ≡ names_of seen.old ++ names.now) }
    ensures front { take (length seen.old) seen.new ≡ seen.old }
{
    let mut rest = names;
    'names: while let [name, after @ ..] = rest {
        if !see(seen, name.items())? {
            return Ok(true);
        }
        rest = after;
    }
    Ok(false)
}

/// Whether one of these names stands twice. It takes as long as there are names.
pub fn repeats(alloc: Global, names: &[Name]) -> Result<bool, Memory>
    ensures { IfOk result (λ twice. twice ≡ repeats [] names.now) }
{
    let mut seen = NameIndex::new(alloc);
    any_seen(&mut seen, names)
}
