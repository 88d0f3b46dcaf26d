// What is left of a content model: the slow form, which the automaton equals.
ghost use Rattle.std.specs.Prelude.{◌≡◌, option_map, IfOk};
ghost use Rattle.std.specs.Option.{option_copied};
ghost use Rattle.sgml_model.specs.Term.{done, required};
ghost use Rattle.sgml_model.specs.Left.{IsLeft};
ghost use Rattle.sgml_model.specs.Choice.{left_by};
ghost use Rattle.sgml_model.specs.Model.{model_of, left_of};

use crate::model::Model;
use crate::term::Term;
use sgml_text::{Memory, Name};
use std::alloc::Global;

/// What is left of a content model after some tokens.
#[derive(Drop)]
pub struct Residual {
    term: Term,
}

impl Residual {
    /// The whole model.
    pub fn start(alloc: Global, model: &Model) -> Result<Residual, Memory>
        ensures { IfOk result (λ r. left_of r ≡ model_of model.now) }
    {
        Ok(Residual {
            term: model.term().copy(alloc)?,
        })
    }

    /// The term left by some token of the name that can come, or of `#PCDATA` for None; None
    /// exactly where no such token can.
    pub fn take(&self, alloc: Global, name: Option<&Name>) -> Result<Option<Residual>, Memory>
        ensures left { IfOk result (λ o. IsLeft (left_of self.now) (option_copied name.entry) (option_map left_of o)) }

        // of several such tokens, the first in the model's order
        ensures first { IfOk result (λ o. option_map left_of o ≡ left_by (left_of self.now) (option_copied name.entry)) }
    {
        match self.term.left_by(alloc, name)? {
            None => Ok(None),
            Some(term) => Ok(Some(Residual { term })),
        }
    }

    /// Nothing more need come.
    pub fn finished(&self) -> bool
        ensures { result ≡ done (left_of self.now) }
    {
        self.term.finished()
    }

    /// The element that must come next, where there is one (ISO 8879, 4; profile for AND).
    pub fn required(&self) -> Option<&Name>
        ensures { option_copied result ≡ required (left_of self.now) }
    {
        self.term.required()
    }
}
