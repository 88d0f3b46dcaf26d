// One attribute list.
ghost use Rattle.std.specs.Prelude.{◌≡◌};

use sgml_attr::Definition;
use sgml_text::Names;
use std::marker::Model;

/// The definitions of an attribute list.
#[derive(Debug, Drop)]
pub struct Definitions {
    definitions: Vec<Definition>,
}

impl Model for Definitions {
    ghost use Rattle.std.specs.Prelude.{List};
    ghost use Rattle.sgml_attr.specs.declared.definition.Definition.{Definition};

    ghost Value = { List Definition };

    ghost view = { λ a. a.definitions.items };
}

impl Definitions {
    /// The list of these definitions.
    pub fn of(items: Vec<Definition>) -> Self
        ensures { result ≡ items.items }
    {
        Definitions { definitions: items }
    }

    /// The definitions.
    pub fn items(&self) -> &[Definition]
        ensures { result.now ≡ self.now }
    {
        &self.definitions
    }
}

/// The element types of an attribute list, and its definitions (11.3). Names are folded, and default
/// values are interpreted.
#[derive(Debug, Drop)]
pub struct AttributeList {
    pub names: Names,
    pub definitions: Definitions,
}
