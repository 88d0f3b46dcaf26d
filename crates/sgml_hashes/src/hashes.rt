// Hashes of names.
ghost use Rattle.std.specs.Prelude.{◌≡◌};
ghost use Rattle.sgml_hashes.specs.Hashes.{hash_of};

use crate::rising::is_rising;
use sgml_text::Memory;
use std::alloc::Global;
use std::hash::{FoldHasher, Hasher};
use std::marker::Model;

/// The hashes of names, in the order in which the names were noted.
#[derive(Drop)]
pub struct NameHashes {
    hashes: Vec<u64>,
}

impl Model for NameHashes {
    ghost use Rattle.std.specs.Prelude.{ℕ, List};

    ghost Value = { List ℕ };

    ghost view = { λ a. a.hashes.items };
}

impl NameHashes {
    ghost use Rattle.std.specs.Prelude.{◌≡◌, [], ◌∷◌, ◌++◌, OnOk, OnErr};
    ghost use Rattle.std.specs.Bool.{OnTrue};
    ghost use Rattle.sgml_hashes.specs.Hashes.{hash_of, AllDiffer};

    /// No names.
    pub fn new(alloc: Global) -> Self
        ensures { result ≡ [] }
    {
        NameHashes {
            hashes: Vec::new(alloc),
        }
    }

    /// Notes a name.
    #[inline(always)]
    pub fn note(&mut self, name: &[u8]) -> Result<(), Memory>
        ensures ok { OnOk result (self.new ≡ self.old ++ hash_of name.now ∷ []) }
        ensures err { OnErr result (self.new ≡ self.old) }
    {
        self.hashes.push(hash_of(name))?;
        Ok(())
    }

    /// Whether no two hashes are alike.
    pub fn all_differ(self) -> bool
        ensures { OnTrue result (AllDiffer self) }
    {
        let mut hashes = self.hashes;
        hashes.sort_unstable();
        is_rising(&hashes)
    }
}

#[inline(always)]
#[tactic(auto, unfolding(crate::specs::Hashes::hash_of))]
fn hash_of(name: &[u8]) -> u64
    ensures { result ≡ hash_of name.now }
{
    let mut hasher = FoldHasher::default();
    hasher.write(name);
    hasher.finish()
}
