// Names with their numbers, each name once. A few are looked through; more are found by their hashes, in
// chains of those that share a slot. Where a chain gets long, all are hashed anew by a stronger hash.
ghost use Rattle.std.specs.Prelude.{◌≡◌, ◌<◌, None, List, [], ◌∷◌, ◌++◌, ℕ, IfOk, OnOk, OnErr, length, map, take, option_map};
ghost use Rattle.std.specs.Str.{bytes_eq};
ghost use Rattle.sgml_text.specs.Characters.{is_word, upper};
ghost use Rattle.sgml_names.specs.Index.{found, with_new};
ghost use Rattle.sgml_names.specs.Hashing.{hash_by};
ghost use Rattle.sgml_names.specs.Hashed.{hashes, IsHashed, IsEachOnce};
ghost use Rattle.sgml_names.specs.Naming.{cased};

use crate::entry::Entry;
use crate::hashing::Hashing;
use crate::slots::Slots;
use sgml_text::{Memory, fold, is_word};
use std::alloc::Global;
use std::marker::Model;

/// Tables have fewer rows and names, so that each has a number.
pub const TABLE_LIMIT: usize = 4_294_967_000;

/// So many names are looked through one after another.
const FEW: usize = 8;

/// Names with their numbers, in the order in which they were added.
#[derive(Drop)]
pub struct NameIndex {
    alloc: Global,
    entries: Vec<Entry>,
    hashing: Hashing,
    /// The hashes of the names, once there are more than a few.
    slots: Option<Slots>,
}

impl Model for NameIndex {
    ghost use Rattle.std.specs.Prelude.{List, ℕ};
    ghost use Rattle.sgml_names.specs.Hashed.{IsHashed, IsEachOnce};

    ghost Value = { List (List ℕ × ℕ) };

    ghost view = { λ a. a.entries.items };

    ghost invariant = { λ a. IsEachOnce a.entries.items × IsHashed a.hashing a.slots a.entries.items };
}

impl NameIndex {
    /// A table of no names.
    pub fn new(alloc: Global) -> Self
        ensures { result ≡ [] }
    {
        NameIndex {
            alloc,
            entries: Vec::new(alloc),
            hashing: Hashing::Quick,
            slots: None,
        }
    }

    /// The number of a name.
    #[inline(always)]
    pub fn number(&self, name: &[u8]) -> Option<u32>
        ensures { result ≡ found self.now name.now }
    {
        match &self.slots {
            None => among_few(&self.entries, name),
            Some(slots) => among_many(&self.entries, slots, self.hashing, name),
        }
    }

    /// The number of the name that is spelled so, in upper case where names are folded (13.4.5). It is
    /// `number` of that name, which is made only where there are many names.
    pub fn number_cased(&self, folded: bool, spelled: &[u8]) -> Result<Option<u32>, Memory>
        requires { 0 < length spelled.now }
        ensures { IfOk result (λ number. number ≡ found self.now (cased folded spelled.now)) }
    {
        if !folded {
            return Ok(self.number(spelled));
        }
        if self.slots.is_none() {
            return Ok(folded_among_few(&self.entries, spelled));
        }
        let name = fold(self.alloc, spelled)?;
        Ok(self.number(name.items()))
    }

    /// Adds a name that isn't there.
    pub fn add(&mut self, name: &[u8], number: u32) -> Result<(), Memory>
        requires { found self.old name.now ≡ None }
        ensures ok { OnOk result (self.new ≡ self.old ++ (name.now, number) ∷ []) }
        ensures err { OnErr result (self.new ≡ self.old) }
    {
        let entry = Entry::new(self.alloc, name, number)?;
        self.spread()?;
        self.entries.reserve(room_after(self.entries.len()))?;
        push_hash(&mut self.slots, self.hashing, name)?;
        self.entries.push_reserved(entry);
        Ok(())
    }

    /// Adds a name, unless it is there, and tells the number that it had.
    pub fn add_new(&mut self, name: &[u8], number: u32) -> Result<Option<u32>, Memory>
        ensures earlier { IfOk result (λ earlier. earlier ≡ found self.old name.now) }
        ensures new { OnOk result (self.new ≡ with_new self.old name.now number) }
        ensures err { OnErr result (self.new ≡ self.old) }
    {
        let earlier = self.number(name);
        if earlier.is_some() {
            return Ok(earlier);
        }
        self.add(name, number)?;
        Ok(None)
    }

    /// Makes slots where there are many names, and makes them anew by the strong hash where names were chosen
    /// so that their quick hashes are alike.
    #[inline(always)]
    fn spread(&mut self) -> Result<(), Memory>
        ensures { self.new ≡ self.old }
    {
        match self.due() {
            Some(hashing) => self.spread_by(hashing),
            None => Ok(()),
        }
    }

    /// The hash by which slots are to be made now.
    #[inline(always)]
    fn due(&self) -> Option<Hashing> {
        match &self.slots {
            None if self.entries.len() < FEW => None,
            None => Some(Hashing::Quick),
            Some(slots) if slots.is_crowded() && self.hashing == Hashing::Quick => {
                Some(Hashing::Strong)
            }
            Some(_) => None,
        }
    }

    fn spread_by(&mut self, hashing: Hashing) -> Result<(), Memory>
        ensures { self.new ≡ self.old }
    {
        let slots = slots_of(self.alloc, &self.entries, hashing)?;
        self.hashing = hashing;
        self.slots = Some(slots);
        Ok(())
    }

    /// How many names there are.
    pub fn len(&self) -> usize
        ensures { result ≡ length self.now }
    {
        self.entries.len()
    }

    /// Takes off the names from the n-th on.
    pub fn truncate(&mut self, n: usize)
        ensures { self.new ≡ take n self.old }
    {
        self.entries.truncate(n);
        truncate_hashes(&mut self.slots, n);
    }
}

/// For so many names room is made where there are this many.
#[inline(always)]
fn room_after(count: usize) -> usize
    ensures { 0 < result }
{
    if count == 0 { FEW } else { 1 }
}

/// The number of a name, which is looked for one after another.
#[inline(always)]
fn among_few(entries: &[Entry], name: &[u8]) -> Option<u32>
    ensures { result ≡ found entries.now name.now }
{
    for entry in entries {
        if is_same(name, entry.name()) {
            return Some(entry.number());
        }
    }
    None
}

fn folded_among_few(entries: &[Entry], spelled: &[u8]) -> Option<u32>
    ensures { result ≡ found entries.now (map upper spelled.now) }
{
    for entry in entries {
        if is_spelled(entry.name(), spelled) {
            return Some(entry.number());
        }
    }
    None
}

/// The number of a name, which is looked for among those of its hash.
#[inline(never)]
fn among_many(entries: &[Entry], slots: &Slots, hashing: Hashing, name: &[u8]) -> Option<u32>
    requires once { IsEachOnce entries.now }
    requires hashes { slots.now ≡ hashes hashing entries.now }
    ensures { result ≡ found entries.now name.now }
{
    let mut next = slots.latest(hashing.hash(name));
    'places: while let Some(place) = next {
        let known = &entries[place];
        if is_same(name, known.name()) {
            return Some(known.number());
        }
        next = slots.before(place);
    }
    None
}

/// The hashes of these names.
fn slots_of(alloc: Global, entries: &[Entry], hashing: Hashing) -> Result<Slots, Memory>
    ensures { IfOk result (λ slots. slots ≡ hashes hashing entries.now) }
{
    let mut slots = Slots::with_room(alloc, entries.len().saturating_mul(2))?;
    for entry in entries {
        slots.push(hashing.hash(entry.name()))?;
    }
    Ok(slots)
}

/// Adds the hash of a name where there are slots.
#[inline(always)]
fn push_hash(slots: &mut Option<Slots>, hashing: Hashing, name: &[u8]) -> Result<(), Memory>
    ensures ok { OnOk result (slots.new ≡ option_map (λ known. known ++ hash_by hashing name.now ∷ []) slots.old) }
    ensures err { OnErr result (slots.new ≡ slots.old) }
{
    match slots {
        Some(slots) => slots.push(hashing.hash(name)),
        None => Ok(()),
    }
}

/// Takes off the hashes from the n-th on where there are slots.
fn truncate_hashes(slots: &mut Option<Slots>, n: usize)
    ensures { slots.new ≡ option_map (take n) slots.old }
{
    if let Some(slots) = slots {
        slots.truncate(n);
    }
}

/// Whether two names are the same. Names are short, and most of one length differ early.
fn is_same(a: &[u8], b: &[u8]) -> bool
    ensures { result ≡ bytes_eq a.now b.now }
{
    if a.len() != b.len() {
        return false;
    }
    for i in 0..a.len() {
        if a[i] != b[i] {
            return false;
        }
    }
    true
}

/// Whether a name is spelled so in any letter case. Most names differ in length.
fn is_spelled(name: &[u8], spelled: &[u8]) -> bool
    ensures { result ≡ is_word name.now spelled.now }
{
    name.len() == spelled.len() && is_word(name, spelled)
}
