// Uses of short reference maps.
ghost use Rattle.std.specs.Prelude.{◌≡◌, IfOk};
ghost use Rattle.std.specs.Option.{option_copied};
ghost use Rattle.sgml_dtd_maps.specs.Tables.{used_in, targets_in, use_in};

use sgml_decl_forms::{UsedMap, UsemapDeclaration};
use sgml_names::{general_name, general_names};
use sgml_syntax::Syntax;
use sgml_text::{Memory, Name, Names};
use std::alloc::Global;

/// A use of a map, and the element types whose map it is (11.6). Names are folded.
#[derive(Debug, Drop)]
pub struct MapUse {
    pub map: UsedMap,
    pub targets: Names,
}

/// The map of an element type (11.6).
#[derive(Clone, Copy, Debug, PartialEq, Eq)]
pub enum MapOf {
    /// No use names the element type: its map is that of the element that contains it.
    Parent,
    /// No string is mapped.
    Empty,
    /// The map of this number.
    Map(u32),
}

pub(crate) fn used_in(alloc: Global, syntax: &Syntax, map: &UsedMap) -> Result<UsedMap, Memory>
    ensures { IfOk result (λ used. used ≡ used_in syntax.now map.now) }
{
    match map {
        UsedMap::Empty => Ok(UsedMap::Empty),
        UsedMap::Named(name) => Ok(UsedMap::Named(general_name(alloc, syntax, name.items())?)),
    }
}

/// The element types that a use names.
pub(crate) fn targets_in(targets: &Option<Names>) -> &[Name]
    ensures { result.now ≡ targets_in targets.now }
{
    match targets {
        Some(names) => names.items(),
        None => &[],
    }
}

/// The use that a declaration declares.
pub(crate) fn use_in(
    alloc: Global,
    syntax: &Syntax,
    declaration: &UsemapDeclaration,
) -> Result<MapUse, Memory>
    ensures { IfOk result (λ used. used ≡ use_in syntax.now declaration.now) }
{
    let map = used_in(alloc, syntax, &declaration.map)?;
    let targets = general_names(alloc, syntax, targets_in(&declaration.targets))?;
    Ok(MapUse { map, targets })
}
