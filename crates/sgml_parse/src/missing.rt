// Why texts that were supplied aren't there.
ghost use Rattle.std.specs.Prelude.{◌≡◌, [], Some, OnOk, OnErr};
ghost use Rattle.sgml_parse.specs.Missing.{why_missing, with_missing};

use indexmap::IndexMap;
use sgml_text::{Memory, Reason};
use std::alloc::Global;
use std::marker::Model;

/// Why texts aren't there, by the numbers of their entities: a finite map.
#[derive(Drop)]
pub(crate) struct Missing {
    reasons: IndexMap<u32, Reason>,
}

impl Model for Missing {
    ghost use Rattle.std.specs.Prelude.{List, ℕ};
    ghost use Rattle.sgml_text.specs.declared.reason.Reason.{Reason as Reason_};

    ghost Value = { List (ℕ × Reason_) };

    ghost view = { λ a. a.reasons.entries };
}

impl Missing {
    /// None.
    pub(crate) fn new(alloc: Global) -> Self
        ensures { result ≡ [] }
    {
        Missing {
            reasons: IndexMap::new(alloc),
        }
    }

    /// The text of this entity isn't there.
    pub(crate) fn note(&mut self, entity: u32, why: Reason) -> Result<(), Memory>
        ensures ok { OnOk result (self.new ≡ with_missing entity (Some why) self.old) }
        ensures err { OnErr result (self.new ≡ self.old) }
    {
        self.reasons.insert(entity, why)?;
        Ok(())
    }

    /// Why the text of this entity isn't there.
    pub(crate) fn why(&self, entity: u32) -> Option<Reason>
        ensures { result ≡ why_missing self.now entity }
    {
        match self.reasons.get(&entity) {
            Some(why) => Some(*why),
            None => None,
        }
    }
}
