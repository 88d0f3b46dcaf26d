// A name with its number.
ghost use Rattle.std.specs.Prelude.{◌≡◌, IfOk};

use sgml_text::{Memory, Text};
use std::alloc::Global;
use std::marker::Model;

/// A name with its number.
#[derive(Drop)]
pub struct Entry {
    name: Text,
    number: u32,
}

impl Model for Entry {
    ghost use Rattle.std.specs.Prelude.{List, ℕ};

    ghost Value = { List ℕ × ℕ };

    ghost view = { λ e. (e.name, e.number) };
}

impl Entry {
    pub(crate) fn new(alloc: Global, name: &[u8], number: u32) -> Result<Entry, Memory>
        ensures { IfOk result (λ entry. entry ≡ (name.now, number)) }
    {
        let name = Text::copied(alloc, name)?;
        Ok(Entry { name, number })
    }

    #[inline(always)]
    pub(crate) fn name(&self) -> &[u8]
        ensures { result.now ≡ self.now.0 }
    {
        self.name.items()
    }

    #[inline(always)]
    pub(crate) fn number(&self) -> u32
        ensures { result ≡ self.now.1 }
    {
        self.number
    }
}
