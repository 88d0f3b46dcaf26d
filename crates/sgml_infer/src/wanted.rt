// Element types whose models get tables.
use sgml_dtd::Dtd;
use sgml_dtd_elements::Content;
use sgml_text::Memory;
use std::alloc::Global;
use std::marker::Model;

// So many types can wait for their tables.
const ROOM: usize = 64;

/// Element types of which an element has begun, and whose models have no tables yet. No answer depends
/// on them, so that nothing is shown.
#[derive(Drop)]
pub(crate) struct Wanted {
    // By number: it has a model that neither has tables nor waits for them.
    lacking: Vec<bool>,
    types: Vec<u32>,
}

impl Model for Wanted {
    ghost Value = { Unit {0} };

    ghost view = { λ a. tt };
}

impl Wanted {
    ghost use Rattle.std.specs.Prelude.{◌≡◌};

    /// No type.
    pub(crate) fn new(alloc: Global, dtd: &Dtd) -> Result<Wanted, Memory> {
        let mut lacking = Vec::new(alloc);
        for element in 0..dtd.elements() {
            lacking.push(matches!(dtd.content(element), Content::Model(_)))?;
        }
        Ok(Wanted {
            lacking,
            types: Vec::with_capacity(alloc, ROOM)?,
        })
    }

    /// An element of this type has begun.
    #[inline(always)]
    pub(crate) fn note(&mut self, element: u32) {
        if let Some(lacks) = self.lacking.get(element as usize) {
            if *lacks {
                self.add(element);
            }
        }
    }

    #[inline(never)]
    fn add(&mut self, element: u32) {
        let at = element as usize;
        if self.types.len() < self.types.capacity() && at < self.lacking.len() {
            self.types.push_reserved(element);
            self.lacking[at] = false;
        }
    }

    /// No model waits for its tables.
    #[inline(always)]
    pub(crate) fn is_empty(&self) -> bool {
        self.types.is_empty()
    }

    /// Makes the tables that are waited for, as far as there is memory.
    #[inline(never)]
    pub(crate) fn prepare(&mut self, dtd: &mut Dtd)
        ensures { dtd.new ≡ dtd.old }
    {
        for element in &self.types {
            let _ = dtd.prepare(*element);
        }
        self.types.clear();
    }
}
