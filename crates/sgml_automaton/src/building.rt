// Building automata.
ghost use Rattle.std.specs.Prelude.{◌≡◌, IfOk, IfErr};
ghost use Rattle.sgml_model.specs.Model.{model_of};
ghost use Rattle.sgml_ambiguity.specs.Ambiguity.{IsUnambiguous};
ghost use Rattle.sgml_automaton.specs.Automaton.{whole_of};
ghost use Rattle.sgml_automaton.specs.Built.{Refuses};

use crate::automaton::Automaton;
use crate::planning::no_tables;
use crate::room::counted_room;
use sgml_ambiguity::{Ambiguity, ambiguity_of};
use sgml_model::Model;
use sgml_text::{Memory, Name};
use std::alloc::Global;

/// Why a model has no automaton.
#[derive(Debug, Drop)]
pub enum BuildError {
    /// No memory was there, or there are more AND members than a u32 counts.
    Memory,
    /// These two tokens of one name, or two `#PCDATA` for None, can both come (ISO 8879,
    /// 11.2.4.3).
    Ambiguous {
        first: u32,
        second: u32,
        name: Option<Name>,
    },
}

/// The automaton of a model, which must not be ambiguous. It has no tables yet.
pub fn build(alloc: Global, model: Model) -> Result<Automaton, BuildError>
    ensures model { IfOk result (λ a. whole_of a ≡ model_of model) }
    ensures unambiguous { IfOk result (λ a. IsUnambiguous (model_of model)) }
    ensures ambiguous { IfErr result (λ e. Refuses (model_of model) e) }
{
    match ambiguity_of(alloc, &model) {
        Ok(None) => {}
        Ok(
            Some(
                Ambiguity {
                    first,
                    second,
                    name,
                },
            ),
        ) => {
            return Err(BuildError::Ambiguous {
                first,
                second,
                name,
            });
        }
        Err(Memory) => return Err(BuildError::Memory),
    }
    match counted_room(model.term()) {
        None => Err(BuildError::Memory),
        Some(room) => Ok(Automaton {
            model,
            room,
            index: no_tables(alloc),
        }),
    }
}
