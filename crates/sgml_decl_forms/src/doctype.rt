// The head of a document type declaration.
ghost use Rattle.std.specs.Prelude.{◌≡◌, IfOk};
ghost use Rattle.sgml_decl_forms.specs.Doctypes.{subset_at, or_none, doctype_at};
ghost use Rattle.sgml_decl_forms.specs.Externals.{external_at};

use crate::external::read_external;
use crate::words::named;
use sgml_decl_lexemes::Lexeme;
use sgml_decl_lexemes::entity::External;
use sgml_delim::Delim;
use sgml_text::{Memory, Name};
use std::alloc::Global;

/// What the head of a document type declaration says (11.1): the type's name as it is spelled, the
/// external subset, and whether an internal one begins.
#[derive(Debug, Drop)]
pub struct DoctypeHead {
    pub name: Name,
    pub external: Option<External>,
    pub subset: bool,
}

fn read_subset(lexemes: &[Lexeme]) -> Option<bool>
    ensures { result ≡ subset_at lexemes.now }
{
    match lexemes {
        [] => Some(false),
        [Lexeme::Sign(Delim::Dso)] => Some(true),
        _ => None,
    }
}

fn read_optional_external<'a>(
    alloc: Global,
    lexemes: &'a [Lexeme],
) -> Result<(Option<External>, &'a [Lexeme]), Memory>
    ensures { IfOk result (λ x. (x.0, x.1.now) ≡ or_none lexemes.now (external_at lexemes.now)) }
{
    match read_external(alloc, lexemes)? {
        Some((external, rest)) => Ok((Some(external), rest)),
        None => Ok((None, lexemes)),
    }
}

/// The head of a document type declaration, after its keyword.
#[tactic(auto, unfolding(crate::specs::Doctypes::doctype_at))]
pub(crate) fn read_doctype(alloc: Global, lexemes: &[Lexeme]) -> Result<Option<DoctypeHead>, Memory>
    ensures { IfOk result (λ r. r ≡ doctype_at lexemes.now) }
{
    let Some((name, rest)) = named(lexemes) else {
        return Ok(None);
    };
    let (external, rest) = read_optional_external(alloc, rest)?;
    let Some(subset) = read_subset(rest) else {
        return Ok(None);
    };
    let name = name.copy(alloc)?;
    Ok(Some(DoctypeHead {
        name,
        external,
        subset,
    }))
}
