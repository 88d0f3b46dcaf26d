// Content models.
ghost use Rattle.sgml_model.specs.View.{view};
ghost use Rattle.sgml_model.specs.Group.{IsModel, IsNumbered};
ghost use Rattle.sgml_model.specs.Unique.{IsModel-prop, IsNumbered-prop};

use crate::term::Term;

/// A content model. Its primitive tokens are numbered from 0 in order.
#[derive(Drop)]
pub struct Model {
    term: Term,
    pub ghost well_formed: { IsModel (view term) } by { IsModel-prop (view term) },
    pub ghost in_order: { IsNumbered (view term) } by { IsNumbered-prop (view term) },
}

impl Model {
    ghost use Rattle.std.specs.Prelude.{◌≡◌};
    ghost use Rattle.sgml_model.specs.Model.{model_of};

    /// The model of a term.
    pub fn of(term: Term) -> Model
        requires well_formed { IsModel (view term) }
        requires in_order { IsNumbered (view term) }
        ensures { model_of result ≡ view term }
    {
        Model { term }
    }

    /// The term.
    pub fn term(&self) -> &Term
        ensures term { view result.now ≡ model_of self.now }
        ensures well_formed { IsModel (model_of self.now) }
        ensures in_order { IsNumbered (model_of self.now) }
    {
        &self.term
    }

    /// Gives the term back.
    pub fn into_term(self) -> Term
        ensures term { view result ≡ model_of self }
        ensures well_formed { IsModel (model_of self) }
        ensures in_order { IsNumbered (model_of self) }
    {
        let Model { term } = self;
        term
    }
}
