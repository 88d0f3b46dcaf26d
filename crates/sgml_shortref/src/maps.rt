// Short reference maps by name and by number.
ghost use Rattle.std.specs.Prelude.{◌≡◌, ◌<◌, ◌+◌, ◌^◌, ◌++◌, ◌∷◌, not, List, [], ℕ, OnOk, OnErr, IfOk, IfSome, is_some, length, option_map, option_copied};
ghost use Rattle.sgml_shortref.specs.Maps.{entries_of, number_in, entity_in, mapped_in, added};

use sgml_text::{Memory, Name};
use std::alloc::Global;
use std::marker::Model;

/// A short reference map: its name, and the strings that it maps with their entities.
#[derive(Drop)]
pub struct Map {
    pub name: Name,
    pub pairs: Vec<(u8, Name)>,
}

/// Short reference maps, numbered in the order in which they were added (11.5).
#[derive(Drop)]
pub struct Maps {
    maps: Vec<Map>,
}

impl Model for Maps {
    ghost use Rattle.std.specs.Prelude.{List, ℕ, ◌<◌, ◌^◌, length};
    ghost use Rattle.sgml_shortref.specs.Maps.{entries_of};

    ghost Value = { List (List ℕ × List (ℕ × List ℕ)) };

    ghost view = { λ a. entries_of a.maps.items };

    ghost invariant = { λ a. length a.maps.items < 2 ^ 32 };
}

impl Maps {
    pub fn new(alloc: Global) -> Self
        ensures { result ≡ [] }
    {
        Maps {
            maps: Vec::new(alloc),
        }
    }

    /// Adds a map, and answers whether none of this name was there; else nothing changes. Of pairs
    /// with one string the first holds.
    pub fn add(&mut self, name: Name, pairs: Vec<(u8, Name)>) -> Result<bool, Memory>
        requires { length self.old + 1 < 2 ^ 32 }
        ensures fresh { IfOk result (λ fresh. fresh ≡ not (is_some (number_in self.old name))) }
        ensures ok { OnOk result (self.new ≡ added self.old name pairs.items) }
        ensures err { OnErr result (self.new ≡ self.old) }
    {
        if self.number(&name).is_some() {
            return Ok(false);
        }
        self.push(name, pairs)?;
        Ok(true)
    }

    /// Adds a map without a search, for callers that know its name to be new. Of maps with one name
    /// the first is found by it, and of pairs with one string the first holds.
    pub fn push(&mut self, name: Name, pairs: Vec<(u8, Name)>) -> Result<(), Memory>
        requires { length self.old + 1 < 2 ^ 32 }
        ensures ok { OnOk result (self.new ≡ self.old ++ (name, pairs.items) ∷ []) }
        ensures err { OnErr result (self.new ≡ self.old) }
    {
        self.maps.push(Map { name, pairs })?;
        Ok(())
    }

    /// The number of the map of this name.
    pub fn number(&self, name: &Name) -> Option<u32>
        ensures { result ≡ number_in self.now name.now }
    {
        match number_of(&self.maps, name.items()) {
            Some(n) => Some(n as u32),
            None => None,
        }
    }

    /// The entity that the map of this number gives to a string. None past the maps.
    pub fn mapped(&self, map: u32, string: u8) -> Option<&Name>
        ensures { option_copied result ≡ mapped_in self.now map string }
    {
        match self.maps.get(map as usize) {
            Some(map) => entity_of(&map.pairs, string),
            None => None,
        }
    }

    /// How many maps there are.
    pub fn count(&self) -> u32
        ensures { result ≡ length self.now }
    {
        self.maps.len() as u32
    }
}

fn number_of(maps: &[Map], name: &[u8]) -> Option<usize>
    ensures number { result ≡ number_in (entries_of maps.now) name.now }
    ensures within { IfSome result (λ n. n < length maps.now) }
{
    for (i, map) in maps.iter().enumerate() {
        if map.name.items() == name {
            return Some(i);
        }
    }
    None
}

fn entity_of(pairs: &[(u8, Name)], string: u8) -> Option<&Name>
    ensures { option_copied result ≡ entity_in pairs.now string }
{
    for pair in pairs {
        if pair.0 == string {
            return Some(&pair.1);
        }
    }
    None
}
