// Where the external subset is.
ghost use Rattle.std.specs.Prelude.{◌≡◌};

use sgml_entity::External;
use sgml_text::Text;
use std::marker::Model;

/// Where the external subset is: its identifier, and the name of the file in which that stands (11.1).
#[derive(Drop)]
pub struct ExternalSubset {
    external: External,
    base: Text,
}

impl Model for ExternalSubset {
    ghost use Rattle.sgml_theory_standing.specs.theory_reading.Facets.{ExternalSubset as Subset};

    ghost Value = { Subset };

    ghost view = { λ a. record { external = a.external; base = a.base } };
}

impl ExternalSubset {
    pub fn new(external: External, base: Text) -> Self
        ensures { result ≡ record { external = external; base = base } }
    {
        ExternalSubset { external, base }
    }

    /// The identifier.
    pub fn external(&self) -> &External
        ensures { result.now ≡ self.now.external }
    {
        &self.external
    }

    /// The name of the file in which it stands.
    pub fn base(&self) -> &Text
        ensures { result.now ≡ self.now.base }
    {
        &self.base
    }
}
