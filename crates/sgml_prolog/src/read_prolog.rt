// A prolog that was read to its end.
ghost use Rattle.std.specs.Prelude.{◌≡◌};

use sgml_dtd::Dtd;
use sgml_entity::InputStack;
use sgml_syntax::Syntax;

/// What a whole prolog says: the tables of its document type, and the stack, on which the document stands
/// alone, directly after its document type declaration.
#[derive(Drop)]
pub struct ReadProlog {
    pub dtd: Dtd,
    pub stack: InputStack,
}

impl ReadProlog {
    /// The syntax of the document, by which its tables were made.
    pub fn syntax(&self) -> &Syntax
        ensures { result.now ≡ self.now.dtd.syntax }
    {
        self.dtd.syntax()
    }
}
