// A store in memory.
ghost use Rattle.std.specs.Prelude.{◌≡◌, ◌+◌, ◌^◌, ◌<◌, [], length, drop, slice_get, min, IfSome};
ghost use Rattle.sgml_io.specs.Files.{memory_files, left_of, file_bytes, PlaceOf};

use crate::asked::note_asked;
use crate::outside::{Store, StoreError};
use sgml_text::Text;
use std::alloc::Global;

/// A file in memory.
#[derive(Debug, Drop)]
pub struct MemoryFile {
    pub name: Vec<u8>,
    pub bytes: Vec<u8>,
}

/// A file that was found, and how far it was read.
#[derive(Clone, Copy, Debug)]
pub struct Opened {
    pub file: usize,
    pub at: usize,
}

/// A store that has its files in memory, and no faults. Of two files of one name the first counts.
#[derive(Debug, Drop)]
pub struct MemoryStore {
    alloc: Global,
    pub files: Vec<MemoryFile>,
    pub opened: Vec<Opened>,
    pub absents: u64,
    pub asked: Vec<Text>,
}

impl MemoryStore {
    pub fn new(alloc: Global, files: Vec<MemoryFile>) -> Self
        ensures files { result.files ≡ files }
        ensures none { result.opened.items ≡ [] }
        ensures absents { result.absents ≡ 0 }
        ensures asked { result.asked.items ≡ [] }
    {
        MemoryStore {
            alloc,
            files,
            opened: Vec::new(alloc),
            absents: 0,
            asked: Vec::new(alloc),
        }
    }
}

impl Store for MemoryStore {
    ghost use Rattle.std.specs.Prelude.{◌≡◌, ◌≢◌, ◌<◌, ◌≤◌, ℕ, List, Some, Ok, length, slice_get, min, IfOk, IfSome, OnErr};
    ghost use Rattle.std.specs.Io.{ReadsAtMost};
    ghost use Rattle.std.specs.Io.KnownBytes.{ReadConsumes};
    ghost use Rattle.sgml_io.specs.Causes.{HasCause};
    ghost use Rattle.sgml_io.specs.Files.{PlaceOf};
    ghost use Rattle.sgml_io.specs.InMemory.{files_told, left_in, IsGiven};
    ghost use Rattle.sgml_io.specs.declared.outside.StoreError.TheVariants.{Fault};

    ghost files = { files_told };

    ghost left = { left_in };

    ghost given = { IsGiven };

    ghost faults = { λ _. 0 };

    ghost absents = { λ s. s.absents };

    ghost asked = { λ s. s.asked.items };

    fn find(&mut self, name: &[u8]) -> Result<Option<u32>, StoreError> {
        let id = self.opened.len();
        if id >= 4_294_967_295 || self.opened.reserve(1).is_err() {
            return Err(StoreError::Memory);
        }
        note_asked(self.alloc, &mut self.asked, name)?;
        let Some(file) = place_of(&self.files, name) else {
            self.absents = self.absents.saturating_add(1);
            return Ok(None);
        };
        self.opened.push_reserved(Opened { file, at: 0 });
        Ok(Some(id as u32))
    }

    fn read(&mut self, id: u32, buf: &mut [u8]) -> Result<usize, StoreError>
        requires { IsGiven self.old id }
        ensures bound { ReadsAtMost result buf.new }
        ensures bytes { ReadConsumes (left_in self.old id) (left_in self.new id) result buf.new }
        ensures others { (other : ℕ) → other ≢ id → left_in self.new other ≡ left_in self.old other }
        ensures given { (other : ℕ) → IsGiven self.old other → IsGiven self.new other }
        ensures absents { self.new.absents ≡ self.old.absents }
        ensures files { files_told self.new ≡ files_told self.old }
        ensures asked { self.new.asked.items ≡ self.old.asked.items }
        ensures cause { HasCause Fault 0 0 result }
        // It gives as many bytes as fit and are left, and never fails.
        ensures all { IfSome (left_in self.old id) (λ rest. result ≡ Ok (min (length rest) (length buf.old))) }
    {
        let opened = self.opened[id as usize];
        let bytes = rest_of(&self.files, opened);
        let count = bytes.len().min(buf.len());
        buf[..count].copy_from_slice(&bytes[..count]);
        self.opened[id as usize] = Opened {
            file: opened.file,
            at: opened.at + count,
        };
        Ok(count)
    }
}

// Where the first file of this name stands.
fn place_of(files: &[MemoryFile], name: &[u8]) -> Option<usize>
    ensures { PlaceOf files.now name.now result }
{
    let mut i = 0usize;
    while i < files.len() {
        let file = &files[i];
        if file.name.as_slice() == name {
            return Some(i);
        }
        i += 1;
    }
    None
}

// What is left of an open file.
fn rest_of(files: &[MemoryFile], opened: Opened) -> &[u8]
    ensures rest { result.now ≡ drop opened.at (file_bytes (slice_get files.now opened.file)) }
    ensures fits { opened.at + length result.now < 2 ^ 64 }
{
    if opened.file >= files.len() {
        return &[];
    }
    let file = &files[opened.file];
    if opened.at >= file.bytes.len() {
        return &[];
    }
    &file.bytes[opened.at..]
}
