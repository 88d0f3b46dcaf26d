// Hashes of names.
ghost use Rattle.std.specs.Prelude.{◌≡◌};
ghost use Rattle.sgml_names.specs.Hashing.{quick_hash, strong_hash, hash_by};

use std::hash::{DefaultHasher, FoldHasher, Hasher};

/// How names are hashed: quickly, or so that names with hashes that are alike are only found by trying.
#[derive(Clone, Copy, PartialEq)]
pub enum Hashing {
    Quick,
    Strong,
}

impl Hashing {
    #[inline(always)]
    pub(crate) fn hash(self, name: &[u8]) -> u32
        ensures { result ≡ hash_by self name.now }
    {
        match self {
            Hashing::Quick => quick_hash(name),
            Hashing::Strong => strong_hash(name),
        }
    }
}

#[inline(always)]
#[tactic(auto, unfolding(crate::specs::Hashing::quick_hash))]
fn quick_hash(name: &[u8]) -> u32
    ensures { result ≡ quick_hash name.now }
{
    let mut hasher = FoldHasher::default();
    hasher.write(name);
    (hasher.finish() & 0xFFFF_FFFF) as u32
}

#[inline(never)]
#[tactic(auto, unfolding(crate::specs::Hashing::strong_hash))]
fn strong_hash(name: &[u8]) -> u32
    ensures { result ≡ strong_hash name.now }
{
    let mut hasher = DefaultHasher::new();
    hasher.write(name);
    (hasher.finish() & 0xFFFF_FFFF) as u32
}
