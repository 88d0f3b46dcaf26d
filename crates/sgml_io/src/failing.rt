// A store that fails in listed calls.
ghost use Rattle.std.specs.Prelude.{◌≡◌, []};
ghost use Rattle.sgml_io.specs.Failing.{is_listed};

use crate::asked::note_asked;
use crate::memory::{MemoryFile, MemoryStore};
use crate::outside::{Store, StoreError};
use std::alloc::Global;

/// A store in memory whose calls of `find` and `read`, counted together from 1, fail where
/// `failing` lists them.
#[derive(Debug, Drop)]
pub struct FailingStore {
    alloc: Global,
    pub store: MemoryStore,
    pub failing: Vec<u64>,
    pub calls: u64,
    pub faults: u64,
}

impl FailingStore {
    pub fn new(alloc: Global, files: Vec<MemoryFile>, failing: Vec<u64>) -> Self
        ensures files { result.store.files ≡ files }
        ensures none { result.store.opened.items ≡ [] }
        ensures absents { result.store.absents ≡ 0 }
        ensures asked { result.store.asked.items ≡ [] }
        ensures failing { result.failing ≡ failing }
        ensures calls { result.calls ≡ 0 }
        ensures faults { result.faults ≡ 0 }
    {
        FailingStore {
            alloc,
            store: MemoryStore::new(alloc, files),
            failing,
            calls: 0,
            faults: 0,
        }
    }
}

impl Store for FailingStore {
    ghost use Rattle.std.specs.Prelude.{◌≡◌, ◌≢◌, ◌≤◌, ◌↔◌, ◌++◌, ℕ, Ok, Err, None, length, min, IfOk, IfSome, OnErr, IsErrOf, IsTrue};
    ghost use Rattle.std.specs.Io.{ReadsAtMost};
    ghost use Rattle.std.specs.Io.KnownBytes.{ReadConsumes};
    ghost use Rattle.sgml_io.specs.Asked.{asked_for};
    ghost use Rattle.sgml_io.specs.Causes.{Rose, HasCause};
    ghost use Rattle.sgml_io.specs.Failing.{next_call, is_listed};
    ghost use Rattle.sgml_io.specs.Files.{Finds};
    ghost use Rattle.sgml_io.specs.InMemory.{files_told, left_in, IsGiven, KeepsAll, OpensOne};
    ghost use Rattle.sgml_io.specs.declared.outside.StoreError.TheVariants.{Fault, Memory};

    ghost files = { λ s. files_told s.store };

    ghost left = { λ s. left_in s.store };

    ghost given = { λ s. IsGiven s.store };

    ghost faults = { λ s. s.faults };

    ghost absents = { λ s. s.store.absents };

    ghost asked = { λ s. s.store.asked.items };

    fn find(&mut self, name: &[u8]) -> Result<Option<u32>, StoreError>
        ensures found { IfOk result (λ found. Finds (files_told self.old.store) name.now (left_in self.new.store) found) }
        ensures opens { IfOk result (λ found. OpensOne self.old.store self.new.store found) }
        ensures absent { IfOk result (λ found. found ≡ None → Rose self.old.store.absents self.new.store.absents) }
        ensures absents { self.old.store.absents ≤ self.new.store.absents }
        ensures err { OnErr result (KeepsAll self.old.store self.new.store) }
        ensures files { files_told self.new.store ≡ files_told self.old.store }
        ensures asked { self.new.store.asked.items ≡ self.old.store.asked.items ++ asked_for name.now result }
        ensures cause { HasCause Fault self.old.faults self.new.faults result }
        // It fails exactly in its listed calls. Where no memory was there it wasn't asked.
        ensures fails { result ≢ Err Memory → (IsErrOf result Fault ↔ IsTrue (is_listed self.old.failing.items (next_call self.old.calls))) }
        ensures calls { self.new.calls ≡ next_call self.old.calls }
        ensures failing { self.new.failing ≡ self.old.failing }
    {
        self.calls = self.calls.saturating_add(1);
        if is_failing(&self.failing, self.calls) {
            note_asked(self.alloc, &mut self.store.asked, name)?;
            self.faults = self.faults.saturating_add(1);
            return Err(StoreError::Fault);
        }
        self.store.find(name)
    }

    fn read(&mut self, id: u32, buf: &mut [u8]) -> Result<usize, StoreError>
        requires { IsGiven self.old.store id }
        ensures bound { ReadsAtMost result buf.new }
        ensures bytes { ReadConsumes (left_in self.old.store id) (left_in self.new.store id) result buf.new }
        ensures others { (other : ℕ) → other ≢ id → left_in self.new.store other ≡ left_in self.old.store other }
        ensures given { (other : ℕ) → IsGiven self.old.store other → IsGiven self.new.store other }
        ensures absents { self.new.store.absents ≡ self.old.store.absents }
        ensures files { files_told self.new.store ≡ files_told self.old.store }
        ensures asked { self.new.store.asked.items ≡ self.old.store.asked.items }
        ensures cause { HasCause Fault self.old.faults self.new.faults result }
        // It fails exactly in its listed calls, and else gives as many bytes as fit and are left.
        ensures fails { IsErrOf result Fault ↔ IsTrue (is_listed self.old.failing.items (next_call self.old.calls)) }
        ensures all { IfOk result (λ count. IfSome (left_in self.old.store id) (λ rest. count ≡ min (length rest) (length buf.old))) }
        ensures calls { self.new.calls ≡ next_call self.old.calls }
        ensures failing { self.new.failing ≡ self.old.failing }
    {
        self.calls = self.calls.saturating_add(1);
        if is_failing(&self.failing, self.calls) {
            self.faults = self.faults.saturating_add(1);
            return Err(StoreError::Fault);
        }
        self.store.read(id, buf)
    }
}

// Whether the list has this call.
fn is_failing(failing: &[u64], call: u64) -> bool
    ensures { result ≡ is_listed failing.now call }
{
    failing.contains(&call)
}
