// What may stand in an element.
use sgml_automaton::Automaton;
use sgml_text::{Memory, Names};
use std::alloc::Global;

/// What may stand in an element (11.2.3, 11.2.4).
#[derive(Drop)]
pub enum Content {
    /// Nothing.
    Empty,
    /// Characters.
    Cdata,
    /// Characters and references.
    Rcdata,
    /// `#PCDATA` and every declared element type, in any number and order.
    Any,
    /// What the model takes.
    Model(Automaton),
}

impl Content {
    ghost use Rattle.std.specs.Prelude.{◌≡◌};
    ghost use Rattle.sgml_dtd_elements.specs.Kept.{form_of, IsRead};

    // Makes the tables of the model, unless they were made.
    pub(crate) fn prepare(&mut self, alloc: Global) -> Result<(), Memory>
        ensures form { form_of self.new ≡ form_of self.old }
        ensures read { IsRead self.old → IsRead self.new }
    {
        match self {
            Content::Model(automaton) => automaton.prepare(alloc),
            _ => Ok(()),
        }
    }
}

/// The element types that may stand anywhere in an element besides its content, and those that may
/// not stand in it at all (11.2.5).
#[derive(Drop)]
pub struct Exceptions {
    pub included: Names,
    pub excluded: Names,
}
