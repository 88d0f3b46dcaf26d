// An SGML declaration where it has no place.
ghost use Rattle.std.specs.Prelude.{◌≡◌, ◌<◌, ◌≤◌, length, take, codes, IfOk};
ghost use Rattle.sgml_declared.specs.theory_spelling.SgmlDeclared.{has_keyword, sgml_piece, misplaced};
ghost use Rattle.sgml_prolog_steps.specs.Found.{rest_in};
ghost use Rattle.sgml_prolog_steps.specs.Misplaced.{sgml_reason};

use crate::kept::Kept;
use crate::keyword::keyword_of;
use sgml_decl_lexemes::unread;
use sgml_entity::Texts;
use sgml_sgmldecl::{DeclError, read_sgml_declaration};
use sgml_text::{Memory, NameSet, Reason, is_word};
use std::alloc::Global;

/// Why the declaration of so many bytes has no place, where it is an SGML declaration (13).
pub fn sgml_reason(
    alloc: Global,
    kept: &Kept,
    texts: &Texts,
    n: u64,
) -> Result<Option<Reason>, Memory>
    requires stacked { 0 < length kept.now.stack.places }
    requires within { n ≤ length (rest_in kept.now texts.now) }
    ensures { IfOk result (λ r. r ≡ sgml_reason kept.now.doctype.syntax.names (take n (rest_in kept.now texts.now))) }
{
    let rest = unread(kept.dtd.entities(), texts, &kept.stack);
    reason_of(alloc, &kept.dtd.syntax().names, &rest[..n as usize])
}

fn reason_of(alloc: Global, names: &NameSet, own: &[u8]) -> Result<Option<Reason>, Memory>
    ensures { IfOk result (λ r. r ≡ sgml_reason names.now own.now) }
{
    if has_sgml_keyword(names, own) {
        let reason = misplaced(alloc, own)?;
        Ok(Some(reason))
    } else {
        Ok(None)
    }
}

fn has_sgml_keyword(names: &NameSet, own: &[u8]) -> bool
    ensures { result ≡ has_keyword names.now (codes "SGML") own.now }
{
    is_word(b"SGML", keyword_of(names, own))
}

// Why an SGML declaration has no place.
fn misplaced(alloc: Global, own: &[u8]) -> Result<Reason, Memory>
    ensures { IfOk result (λ r. r ≡ misplaced (sgml_piece own.now)) }
{
    match read_sgml_declaration(alloc, own) {
        Ok(_) => Ok(Reason::DeclarationPlace),
        Err(DeclError::FeatureOut { which: _, at: _ }) => Ok(Reason::DeclarationPlace),
        Err(
            DeclError::QuantityOut {
                name: _,
                number: _,
                at: _,
            },
        ) => Ok(Reason::DeclarationPlace),
        Err(DeclError::BadDeclaration { at: _ }) => Ok(Reason::DeclarationSyntax),
        Err(DeclError::Memory) => Err(Memory),
    }
}
