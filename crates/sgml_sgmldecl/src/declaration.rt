// Reading an SGML declaration.
ghost use Rattle.std.specs.Prelude.{◌≡◌, ◌≤◌, ◌⊎◌, ℕ, Err, length, take};
ghost use Rattle.sgml_sgmldecl.specs.declared.feature.DeclError.TheVariants as errors;
ghost use Rattle.sgml_sgmldecl.specs.declared.heard.Heard.{Heard};
ghost use Rattle.sgml_sgmldecl.specs.Declaring.{Declares, Answers};
ghost use Rattle.sgml_sgmldecl.specs.Refusing.{answer};

use crate::feature::DeclError;
use crate::reading::read;
use crate::settling::settle;
use sgml_syntax::Syntax;
use std::alloc::Global;

/// Reads the SGML declaration at the front of a text: its syntax, and how many bytes it has, its `>` among them
/// (clause 13). Of several reasons to refuse it the first holds in the order: no declaration, DATATAG, RANK, LINK,
/// CONCUR, SUBDOC, a quantity, what else is out of scope.
pub fn read_sgml_declaration(alloc: Global, text: &[u8]) -> Result<(Syntax, usize), DeclError>
    ensures answers { Answers text.now result }
    ensures only { (n : ℕ) (told : Heard) → n ≤ length text.now → Declares (take n text.now) told
        → (result ≡ answer told n) ⊎ (result ≡ Err errors.Memory) }
{
    match read(alloc, text) {
        Ok((heard, used)) => settle(alloc, heard, used),
        Err(error) => Err(error),
    }
}
