// The maps of a document type and their uses.
ghost use Rattle.std.specs.Prelude.{◌≡◌, ◌≤◌, ◌++◌, ◌∷◌, ◌||◌, [], None, ℕ, List, false, take, length, nat_lt, is_none, IfErr, OnOk, OnErr};
ghost use Rattle.std.specs.List.{list_any};
ghost use Rattle.sgml_text.specs.Refusals.{IsRefusal};
ghost use Rattle.std.specs.Str.{bytes_eq};
ghost use Rattle.sgml_names.specs.Index.{found};
ghost use Rattle.sgml_names.specs.Lists.{has};
ghost use Rattle.sgml_names.specs.Naming.{is_long};
ghost use Rattle.sgml_shortref.specs.Maps.{number_in};
ghost use Rattle.sgml_dtd_maps.specs.Tables.{map_in, use_in, map_used, map_for, is_undeclared, has_unknown};
ghost use Rattle.sgml_dtd_maps.specs.Rows.{map_passes_namelen, is_long_used, use_passes_namelen, map_reason, use_reason};
ghost use Rattle.sgml_dtd_maps.specs.Numbered.{or_number};

use crate::pairs::pairs_in;
use crate::uses::{MapOf, MapUse, targets_in, use_in};
use sgml_decl_forms::{ShortrefDeclaration, UsedMap, UsemapDeclaration};
use sgml_names::{NameIndex, any_long, general_name, is_long};
use sgml_shortref::Maps;
use sgml_syntax::Syntax;
use sgml_text::{Memory, Name, Reason, RefusalError, Text};
use std::alloc::Global;
use std::marker::Model;

/// The short reference maps of a document type, numbered from 0 in the order of their declarations
/// (11.5), and their uses (11.6).
#[derive(Drop)]
pub struct MapTables {
    alloc: Global,
    maps: Maps,
    of_maps: NameIndex,
    uses: Vec<MapUse>,
    of_targets: NameIndex,
}

impl Model for MapTables {
    ghost use Rattle.sgml_dtd_maps.specs.Tables.{MapTable};
    ghost use Rattle.sgml_dtd_maps.specs.Numbered.{AreNumbered};

    ghost Value = { MapTable };

    ghost view = { λ a. record { maps = a.maps; uses = a.uses.items } };

    ghost invariant = { λ a. AreNumbered a.maps a.uses.items a.of_maps a.of_targets };
}

impl MapTables {
    /// No map, and no use.
    pub fn new(alloc: Global) -> Self
        ensures maps { result.maps ≡ [] }
        ensures uses { result.uses ≡ [] }
    {
        MapTables {
            alloc,
            maps: Maps::new(alloc),
            of_maps: NameIndex::new(alloc),
            uses: Vec::new(alloc),
            of_targets: NameIndex::new(alloc),
        }
    }

    /// Adds the map of a short reference mapping declaration (11.5). Of the reasons against it the
    /// first is told in this order: `NameLength`, `LiteralLimit`, `MapTwice`, `NotShortref`.
    pub fn declare(
        &mut self,
        syntax: &Syntax,
        declaration: ShortrefDeclaration,
    ) -> Result<(), RefusalError>
        ensures none { OnOk result (map_reason syntax.now self.old declaration ≡ None) }
        ensures ok { OnOk result (self.new.maps ≡ self.old.maps ++ map_in syntax.now declaration ∷ []) }
        ensures refused { IfErr result (IsRefusal (map_reason syntax.now self.old declaration)) }
        ensures err { OnErr result (self.new.maps ≡ self.old.maps) }
        ensures uses { self.new.uses ≡ self.old.uses }
    {
        if map_passes_namelen(syntax, &declaration) {
            return Err(RefusalError::Refused(Reason::NameLength));
        }
        if any_past(syntax.quantities.litlen, declaration.pairs.items()) {
            return Err(RefusalError::Refused(Reason::LiteralLimit));
        }
        let name = general_name(self.alloc, syntax, declaration.name.items())?;
        if self.map_number(name.items()).is_some() {
            return Err(RefusalError::Refused(Reason::MapTwice));
        }
        let Some(pairs) = pairs_in(self.alloc, syntax, declaration.pairs.items())? else {
            return Err(RefusalError::Refused(Reason::NotShortref));
        };
        self.insert(name, pairs)?;
        Ok(())
    }

    fn map_number(&self, name: &[u8]) -> Option<u32>
        ensures { result ≡ number_in self.now.maps name.now }
    {
        self.of_maps.number(name)
    }

    // Adds a map whose name no map has.
    fn insert(&mut self, name: Name, pairs: Vec<(u8, Name)>) -> Result<(), Memory>
        requires { number_in self.old.maps name ≡ None }
        ensures ok { OnOk result (self.new.maps ≡ self.old.maps ++ (name, pairs.items) ∷ []) }
        ensures err { OnErr result (self.new.maps ≡ self.old.maps) }
        ensures uses { self.new.uses ≡ self.old.uses }
    {
        let number = self.maps.count();
        if number >= u32::MAX - 1 {
            return Err(Memory);
        }
        self.of_maps.add(name.items(), number)?;
        match self.maps.push(name, pairs) {
            Ok(()) => Ok(()),
            Err(error) => {
                self.of_maps.truncate(number as usize);
                Err(error)
            }
        }
    }

    /// Adds the use of a short reference use declaration (11.6): it is the map of the element types
    /// that it names and that no earlier use names. It is refused for a name that passes NAMELEN
    /// alone; whether the map is declared is told by `has_unknown`.
    pub fn use_map(
        &mut self,
        syntax: &Syntax,
        declaration: UsemapDeclaration,
    ) -> Result<(), RefusalError>
        ensures none { OnOk result (use_reason syntax.now declaration ≡ None) }
        ensures ok { OnOk result (self.new.uses ≡ self.old.uses ++ use_in syntax.now declaration ∷ []) }
        ensures refused { IfErr result (IsRefusal (use_reason syntax.now declaration)) }
        ensures err { OnErr result (self.new.uses ≡ self.old.uses) }
        ensures maps { self.new.maps ≡ self.old.maps }
    {
        if use_passes_namelen(syntax, &declaration) {
            return Err(RefusalError::Refused(Reason::NameLength));
        }
        let used = use_in(self.alloc, syntax, &declaration)?;
        self.insert_use(used)?;
        Ok(())
    }

    fn insert_use(&mut self, used: MapUse) -> Result<(), Memory>
        ensures ok { OnOk result (self.new.uses ≡ self.old.uses ++ used ∷ []) }
        ensures err { OnErr result (self.new.uses ≡ self.old.uses) }
        ensures maps { self.new.maps ≡ self.old.maps }
    {
        if self.uses.len() >= u32::MAX as usize {
            return Err(Memory);
        }
        let number = self.uses.len() as u32;
        self.uses.reserve(1)?;
        let before = self.of_targets.len();
        match add_targets(&mut self.of_targets, used.targets.items(), number) {
            Ok(()) => {
                self.uses.push_reserved(used);
                Ok(())
            }
            Err(error) => {
                self.of_targets.truncate(before);
                Err(error)
            }
        }
    }

    /// The map of an element type. A used map that isn't declared yet maps nothing.
    pub fn map_of(&self, element: &Name) -> MapOf
        ensures { result ≡ map_for self.now element.now }
    {
        match self.of_targets.number(element.items()) {
            Some(n) => self.map_used(&self.uses[n as usize].map),
            None => MapOf::Parent,
        }
    }

    fn map_used(&self, map: &UsedMap) -> MapOf
        ensures { result ≡ map_used self.now.maps map.now }
    {
        match map {
            UsedMap::Empty => MapOf::Empty,
            UsedMap::Named(name) => match self.map_number(name.items()) {
                Some(n) => MapOf::Map(n),
                None => MapOf::Empty,
            },
        }
    }

    /// Whether a map that is used isn't declared (11.6).
    pub fn has_unknown(&self) -> bool
        ensures { result ≡ has_unknown self.now }
    {
        for used in &self.uses {
            if self.is_undeclared(&used.map) {
                return true;
            }
        }
        false
    }

    fn is_undeclared(&self, map: &UsedMap) -> bool
        ensures { result ≡ is_undeclared self.now.maps map.now }
    {
        match map {
            UsedMap::Empty => false,
            UsedMap::Named(name) => self.map_number(name.items()).is_none(),
        }
    }

    /// The maps.
    pub fn maps(&self) -> &Maps
        ensures { result.now ≡ self.now.maps }
    {
        &self.maps
    }
}

fn any_long_entity(syntax: &Syntax, pairs: &[(Text, Name)]) -> bool
    ensures { result ≡ list_any (λ p. is_long syntax.now p.1) pairs.now }
{
    for pair in pairs {
        if is_long(syntax, pair.1.items()) {
            return true;
        }
    }
    false
}

fn map_passes_namelen(syntax: &Syntax, declaration: &ShortrefDeclaration) -> bool
    ensures { result ≡ map_passes_namelen syntax.now declaration.now }
{
    is_long(syntax, declaration.name.items()) || any_long_entity(syntax, declaration.pairs.items())
}

fn any_past(limit: u32, pairs: &[(Text, Name)]) -> bool
    ensures { result ≡ list_any (λ p. nat_lt limit (length p.0)) pairs.now }
{
    for pair in pairs {
        if pair.0.items().len() > limit as usize {
            return true;
        }
    }
    false
}

fn is_long_used(syntax: &Syntax, map: &UsedMap) -> bool
    ensures { result ≡ is_long_used syntax.now map.now }
{
    match map {
        UsedMap::Empty => false,
        UsedMap::Named(name) => is_long(syntax, name.items()),
    }
}

fn use_passes_namelen(syntax: &Syntax, declaration: &UsemapDeclaration) -> bool
    ensures { result ≡ use_passes_namelen syntax.now declaration.now }
{
    is_long_used(syntax, &declaration.map) || any_long(syntax, targets_in(&declaration.targets))
}

// Gives the number to those of these names that have none.
fn add_targets(table: &mut NameIndex, names: &[Name], number: u32) -> Result<(), Memory>
    ensures ok { OnOk result ((q : List ℕ) → found table.new q ≡ or_number (found table.old q) (has names.now q) number) }
    ensures front { take (length table.old) table.new ≡ table.old }
{
    let mut rest = names;
    'names: while let [name, after @ ..] = rest {
        add_target(table, name.items(), number)?;
        rest = after;
    }
    Ok(())
}

fn add_target(table: &mut NameIndex, name: &[u8], number: u32) -> Result<(), Memory>
    ensures ok { OnOk result ((q : List ℕ) → found table.new q ≡ or_number (found table.old q) (bytes_eq q name.now) number) }
    ensures front { take (length table.old) table.new ≡ table.old }
    ensures longer { length table.old ≤ length table.new }
{
    if table.number(name).is_some() {
        return Ok(());
    }
    table.add(name, number)?;
    Ok(())
}
