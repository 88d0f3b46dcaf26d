// The numbers of entries, found by hashing.
ghost use Rattle.std.specs.Prelude.{◌≡◌, None, List, [], ◌∷◌, ◌++◌, ℕ, OnOk, OnErr};
ghost use Rattle.sgml_catalog.specs.Keys.{found, key_of};

use crate::entry::Sort;
use indexmap::IndexMap;
use sgml_text::Memory;
use std::alloc::Global;
use std::marker::Model;

/// What an entry is found by.
#[derive(Debug, Drop, PartialEq, Eq, Hash)]
pub struct Key {
    pub sort: Sort,
    /// Whether only entries under OVERRIDE YES count.
    pub over: bool,
    pub name: Vec<u8>,
}

/// For each key the number of the first entry that has it.
#[derive(Drop)]
pub struct Index {
    numbers: IndexMap<Key, usize>,
}

impl Model for Index {
    ghost use Rattle.std.specs.Prelude.{List, ℕ, Bool};
    ghost use Rattle.sgml_catalog.specs.declared.entry.Sort.{Sort};
    ghost use Rattle.sgml_catalog.specs.Keys.{keyed};

    ghost Value = { List ((Sort × Bool × List ℕ) × ℕ) };

    ghost view = { λ a. keyed a.numbers.entries };
}

impl Index {
    pub fn new(alloc: Global) -> Index
        ensures { result ≡ [] }
    {
        Index {
            numbers: IndexMap::new(alloc),
        }
    }

    /// The number of the first entry that has the key.
    pub fn number(&self, key: &Key) -> Option<usize>
        ensures { result ≡ found self.now (key_of key.now) }
    {
        self.numbers.get(key).copied()
    }

    /// Notes an entry under a key that no earlier one has.
    pub fn add(&mut self, key: Key, number: usize) -> Result<(), Memory>
        requires { found self.old (key_of key) ≡ None }
        ensures ok { OnOk result (self.new ≡ self.old ++ (key_of key, number) ∷ []) }
        ensures err { OnErr result (self.new ≡ self.old) }
    {
        self.numbers.insert(key, number)?;
        Ok(())
    }
}
