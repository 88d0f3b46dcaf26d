// States of automata.
ghost use Rattle.std.specs.Prelude.{◌≡◌, IfOk};
ghost use Rattle.sgml_automaton.specs.Automaton.{bits_in, IsCopy};

use sgml_text::Memory;
use std::alloc::Global;

/// What is left of a model: the last token, none at the start, and one bit for each member of an
/// AND group, set once the member is over.
#[derive(Drop)]
pub struct ModelState {
    pub(crate) last: Option<u32>,
    pub(crate) bits: Vec<bool>,
}

impl ModelState {
    /// A state with room for so many AND members. It is of no automaton before a `reset`.
    pub fn new(alloc: Global, room: u32) -> Result<ModelState, Memory>
        ensures { IfOk result (λ state. bits_in state ≡ room) }
    {
        Ok(ModelState {
            last: None,
            bits: vec![in alloc; false; room as usize]?,
        })
    }

    /// A state that stands for the same, with the same room.
    pub fn copy(&self, alloc: Global) -> Result<ModelState, Memory>
        ensures { IfOk result (λ new. IsCopy new self.now) }
    {
        Ok(ModelState {
            last: self.last,
            bits: Vec::from_slice(alloc, &self.bits)?,
        })
    }
}
