// The texts that were given so far.
ghost use Rattle.std.specs.Prelude.{◌≡◌, [], OnOk, OnErr};
ghost use Rattle.std.specs.Option.{option_map};
ghost use Rattle.sgml_entity.specs.Texts.{text_of, with_more};

use indexmap::IndexMap;
use sgml_text::Memory;
use std::alloc::Global;
use std::marker::Model;

/// The texts of entities, by their numbers: a finite map. Each grows at its end.
#[derive(Drop)]
pub struct Texts {
    alloc: Global,
    texts: IndexMap<u32, Vec<u8>>,
}

impl Model for Texts {
    ghost use Rattle.std.specs.Prelude.{List, ℕ};
    ghost use Rattle.sgml_entity.specs.Texts.{texts_in};

    ghost Value = { List (ℕ × List ℕ) };

    ghost view = { λ a. texts_in a.texts.entries };
}

impl Texts {
    /// No text.
    pub fn new(alloc: Global) -> Self
        ensures { result ≡ [] }
    {
        Texts {
            alloc,
            texts: IndexMap::new(alloc),
        }
    }

    /// Adds bytes to the end of an entity's text, which is empty where there was none.
    pub fn append(&mut self, entity: u32, bytes: &[u8]) -> Result<(), Memory>
        ensures ok { OnOk result (self.new ≡ with_more entity bytes.now self.old) }
        ensures err { OnErr result (self.new ≡ self.old) }
    {
        if let Some(text) = self.texts.get_mut(&entity) {
            text.extend_from_slice(bytes)?;
            return Ok(());
        }
        let text = bytes.to_vec(self.alloc)?;
        self.texts.insert(entity, text)?;
        Ok(())
    }

    /// The text of an entity. None exactly where nothing was added to it, not even no bytes.
    pub fn get(&self, entity: u32) -> Option<&[u8]>
        ensures { option_map (λ text. text.now) result ≡ text_of self.now entity }
    {
        // what was begun first is the document, and what was begun last is mostly being read
        let texts = self.texts.as_slice();
        if let Some((first, text)) = texts.first() {
            if *first == entity {
                return Some(text.as_slice());
            }
        }
        if let Some((last, text)) = texts.last() {
            if *last == entity {
                return Some(text.as_slice());
            }
        }
        self.hashed(entity)
    }

    /// The same, found by hashing.
    #[inline(never)]
    fn hashed(&self, entity: u32) -> Option<&[u8]>
        ensures { option_map (λ text. text.now) result ≡ text_of self.now entity }
    {
        match self.texts.get(&entity) {
            Some(text) => Some(text.as_slice()),
            None => None,
        }
    }
}
