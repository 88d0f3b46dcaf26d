// Where reading is.
ghost use Rattle.std.specs.Prelude.{◌≡◌, false, Some, IsSome};
ghost use Rattle.sgml_prolog_steps.specs.Standing.{LiesUnder};
ghost use Rattle.sgml_parse.specs.There.{reading_of};
ghost use Rattle.sgml_parse.specs.Parsing.{is_lost, place_in, doctype_in, kept_in};

use sgml_dtd::Dtd;
use sgml_instance::Instance;
use sgml_prolog::Prolog;
use sgml_prolog_steps::Kept;
use sgml_text::Place;

/// The reader of the part of the document that is being read.
#[derive(Drop)]
pub(crate) enum Reading {
    Prolog(Box<Prolog>),
    Instance(Box<Instance>),
    /// No memory was there where the instance began.
    Lost,
}

impl Reading {
    /// The place of the first piece that wasn't read.
    pub(crate) fn place(&self) -> Place
        ensures { result ≡ place_in (reading_of self.now) }
    {
        match self {
            Reading::Prolog(prolog) => prolog.place(),
            Reading::Instance(instance) => instance.place(),
            Reading::Lost => Place { entity: 0, at: 0 },
        }
    }

    /// What is kept so far.
    pub(crate) fn kept(&self) -> &Kept
        requires { is_lost (reading_of self.now) ≡ false }
        ensures kept { kept_in (reading_of self.now) ≡ Some result.now }
        ensures named { IsSome result.now.subset → IsSome result.now.doctype.name }
        ensures document { LiesUnder result.now.stack.places }
    {
        match self {
            Reading::Prolog(prolog) => prolog.kept(),
            Reading::Instance(instance) => instance.kept(),
            Reading::Lost => unreachable!(),
        }
    }

    /// The tables of the document type so far.
    pub(crate) fn dtd(&self) -> &Dtd
        requires { is_lost (reading_of self.now) ≡ false }
        ensures { result.now ≡ doctype_in (reading_of self.now) }
    {
        match self {
            Reading::Prolog(prolog) => prolog.dtd(),
            Reading::Instance(instance) => instance.dtd(),
            Reading::Lost => unreachable!(),
        }
    }
}
