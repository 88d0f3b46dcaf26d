// Bytes that names and texts keep: few of them in place, more of them in memory of their own.
ghost use Rattle.std.specs.Prelude.{◌≡◌, ◌≤◌, ◌<◌, ◌++◌, ◌∷◌, List, ℕ, [], length, IfOk, vec_len, map};
ghost use Rattle.sgml_text.specs.Characters.{upper};
ghost use Rattle.sgml_text.specs.Bytes.{bytes_of};

use crate::characters::upper_case;
use crate::error::Memory;
use std::alloc::Global;
use std::marker::Model;

pub(crate) const ROOM: usize = 23;

/// At most 23 bytes, in place.
#[derive(Debug, Drop)]
pub(crate) struct Few {
    size: u8,
    bytes: [u8; 23],
}

impl Model for Few {
    ghost use Rattle.std.specs.Prelude.{◌≤◌, List, ℕ, take};

    ghost Value = { List ℕ };

    ghost view = { λ few. take few.size few.bytes };

    ghost invariant = { λ few. few.size ≤ 23 };
}

impl Few {
    pub(crate) fn of(bytes: &[u8]) -> Few
        requires { length bytes.now ≤ 23 }
        ensures { result ≡ bytes.now }
    {
        let mut room = [0; 23];
        room[..bytes.len()].copy_from_slice(bytes);
        Few {
            size: bytes.len() as u8,
            bytes: room,
        }
    }

    fn push(&mut self, b: u8)
        requires { length self.old < 23 }
        ensures { self.new ≡ self.old ++ b ∷ [] }
    {
        self.bytes[self.size as usize] = b;
        self.size += 1;
    }

    pub(crate) fn items(&self) -> &[u8]
        ensures { result.now ≡ self.now }
    {
        &self.bytes[..self.size as usize]
    }
}

/// Few bytes, each letter in upper case.
fn folded_few(bytes: &[u8]) -> Few
    requires { length bytes.now ≤ 23 }
    ensures { result ≡ map upper bytes.now }
{
    let mut few = Few::of(&[]);
    for b in bytes {
        few.push(b.to_ascii_uppercase());
    }
    few
}

/// Bytes, in place where they are few.
#[derive(Debug, Drop)]
pub(crate) enum Bytes {
    Short(Few),
    Long(Vec<u8>),
}

pub(crate) fn of(items: Vec<u8>) -> Bytes
    ensures { bytes_of result ≡ items.items }
{
    if items.len() <= ROOM {
        Bytes::Short(Few::of(&items))
    } else {
        Bytes::Long(items)
    }
}

pub(crate) fn copied(alloc: Global, bytes: &[u8]) -> Result<Bytes, Memory>
    ensures { IfOk result (λ l. bytes_of l ≡ bytes.now) }
{
    if bytes.len() <= ROOM {
        return Ok(Bytes::Short(Few::of(bytes)));
    }
    Ok(Bytes::Long(bytes.to_vec(alloc)?))
}

pub(crate) fn folded(alloc: Global, bytes: &[u8]) -> Result<Bytes, Memory>
    ensures { IfOk result (λ l. bytes_of l ≡ map upper bytes.now) }
{
    if bytes.len() <= ROOM {
        return Ok(Bytes::Short(folded_few(bytes)));
    }
    Ok(Bytes::Long(upper_case(alloc, bytes)?))
}

pub(crate) fn items(all: &Bytes) -> &[u8]
    ensures { result.now ≡ bytes_of all.now }
{
    match all {
        Bytes::Short(few) => few.items(),
        Bytes::Long(many) => many,
    }
}
