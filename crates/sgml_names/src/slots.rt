// Hashes with their places, each found by its slot.
ghost use Rattle.std.specs.Prelude.{◌≡◌, ◌<◌, ◌≤◌, ◌-◌, [], ◌∷◌, ◌++◌, IfOk, OnOk, OnErr, length, replicate, slice_index, take};
ghost use Rattle.sgml_names.specs.Index.{table_limit};
ghost use Rattle.sgml_names.specs.Slots.{hashes_of, slot_of, latest, IsChained, Linked};

use crate::index::TABLE_LIMIT;
use sgml_text::Memory;
use std::alloc::Global;
use std::marker::Model;

/// So many slots are there at least.
const FEWEST: usize = 32;

/// Chains are shorter, unless names were chosen so that their hashes are alike.
const LONG: u32 = 32;

/// A hash, the place of the one before it in its slot, counted from 1, and how many there are up to it.
#[derive(Clone, Copy)]
pub struct Link {
    hash: u32,
    earlier: u32,
    depth: u32,
}

/// Hashes in the order in which they were added. Those of one slot are chained, from the last to the first.
#[derive(Drop)]
pub(crate) struct Slots {
    alloc: Global,
    links: Vec<Link>,
    /// For each slot the place of its last hash, counted from 1, or 0.
    last: Vec<u32>,
    /// How long a chain ever was.
    deepest: u32,
}

impl Model for Slots {
    ghost use Rattle.std.specs.Prelude.{List, ℕ};
    ghost use Rattle.sgml_names.specs.Slots.{hashes_of, Linked};

    ghost Value = { List ℕ };

    ghost view = { λ a. hashes_of a.links.items };

    ghost invariant = { λ a. Linked a.links.items a.last.items };
}

impl Slots {
    /// No hashes, with room for so many.
    pub(crate) fn with_room(alloc: Global, room: usize) -> Result<Slots, Memory>
        ensures { IfOk result (λ slots. slots ≡ []) }
    {
        let links = Vec::with_capacity(alloc, room)?;
        let last = vec![in alloc; 0; FEWEST]?;
        Ok(Slots {
            alloc,
            links,
            last,
            deepest: 0,
        })
    }

    /// The last place of this hash.
    #[inline(always)]
    pub(crate) fn latest(&self, hash: u32) -> Option<usize>
        ensures { result ≡ latest hash self.now (length self.now) }
    {
        let start = self.last[slot_of(hash, self.last.len())];
        last_of(&self.links, &self.last, start as usize, hash)
    }

    /// The last place before this one at which the same hash is.
    #[inline(always)]
    pub(crate) fn before(&self, place: usize) -> Option<usize>
        requires { place < length self.now }
        ensures { result ≡ latest (slice_index self.now place) self.now place }
    {
        let link = self.links[place];
        last_of(&self.links, &self.last, link.earlier as usize, link.hash)
    }

    /// Whether a chain is longer than those of a good hash.
    #[inline(always)]
    pub(crate) fn is_crowded(&self) -> bool {
        self.deepest > LONG
    }

    /// Adds a hash.
    pub(crate) fn push(&mut self, hash: u32) -> Result<(), Memory>
        ensures ok { OnOk result (self.new ≡ self.old ++ hash ∷ []) }
        ensures err { OnErr result (self.new ≡ self.old) }
    {
        self.widen()?;
        if self.links.len() >= TABLE_LIMIT {
            return Err(Memory);
        }
        self.links.reserve(1)?;
        let link = enter(&mut self.last, &self.links, hash);
        self.deepest = self.deepest.max(link.depth);
        self.links.push_reserved(link);
        Ok(())
    }

    /// Makes more slots where there aren't more than hashes.
    #[inline(always)]
    fn widen(&mut self) -> Result<(), Memory>
        ensures { self.new ≡ self.old }
    {
        if self.links.len() < self.last.len() {
            return Ok(());
        }
        let slots = self.last.len().saturating_mul(4);
        let mut last = vec![in self.alloc; 0; slots]?;
        relink(&mut last, &mut self.links);
        self.last = last;
        Ok(())
    }

    /// Takes off the hashes from the n-th on.
    pub(crate) fn truncate(&mut self, n: usize)
        ensures { self.new ≡ take n self.old }
    {
        'hashes: while self.links.len() > n {
            self.pop();
        }
    }

    /// Takes off the last hash.
    fn pop(&mut self)
        ensures { self.new ≡ take (length self.old - 1) self.old }
    {
        if let Some(link) = self.links.pop() {
            let slot = slot_of(link.hash, self.last.len());
            self.last[slot] = link.earlier;
        }
    }
}

/// The slot of a hash.
#[inline(always)]
fn slot_of(hash: u32, slots: usize) -> usize
    requires { 0 < slots }
    ensures value { result ≡ slot_of slots hash }
    ensures within { result < slots }
{
    hash as usize & (slots - 1)
}

/// The last place of a hash in a chain of its slot. `last` is read by the clauses alone.
#[inline(always)]
fn last_of(links: &[Link], last: &[u32], start: usize, hash: u32) -> Option<usize>
    requires linked { Linked links.now last.now }
    requires chained { IsChained (length last.now) hash (hashes_of links.now) start }
    ensures { result ≡ latest hash (hashes_of links.now) start }
{
    let mut place = start;
    'chain: while place > 0 {
        let link = links[place - 1];
        if link.hash == hash {
            return Some(place - 1);
        }
        place = link.earlier as usize;
    }
    None
}

/// Enters the hash of the next place at its slot, and gives the link to put there.
#[inline(always)]
fn enter(last: &mut [u32], links: &[Link], hash: u32) -> Link
    requires linked { Linked links.now last.old }
    requires room { length links.now < table_limit }
    ensures linked { Linked (links.now ++ result ∷ []) last.new }
    ensures hash { result.hash ≡ hash }
    ensures slots { length last.new ≡ length last.old }
{
    let slot = slot_of(hash, last.len());
    let earlier = last[slot];
    let depth = match links.get((earlier as usize).wrapping_sub(1)) {
        Some(link) => link.depth.saturating_add(1),
        None => 1,
    };
    last[slot] = (links.len() + 1) as u32;
    Link {
        hash,
        earlier,
        depth,
    }
}

/// Chains the hashes anew, by slots that have none.
fn relink(last: &mut [u32], links: &mut [Link])
    requires some { 0 < length last.old }
    requires empty { last.old ≡ replicate (length last.old) 0 }
    requires room { length links.old ≤ table_limit }
    ensures linked { Linked links.new last.new }
    ensures hashes { hashes_of links.new ≡ hashes_of links.old }
{
    for place in 0..links.len() {
        let hash = links[place].hash;
        links[place] = enter(last, &links[..place], hash);
    }
}
