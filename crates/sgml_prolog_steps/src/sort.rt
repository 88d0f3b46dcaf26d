// What a token is where it stands.
ghost use Rattle.std.specs.Prelude.{◌≡◌, if◌then◌else◌};
ghost use Rattle.sgml_prolog_steps.specs.declared.sort.Sort.TheVariants.{Skipped, Misfit};
ghost use Rattle.sgml_prolog_steps.specs.Sorts.{sort_before, sort_inside, sort_in, is_ignored};

use crate::kept::Kept;
use crate::stage::is_before;
use sgml_marked::Status;
use sgml_markup::TokenKind;

/// What a token is where it stands.
#[derive(Clone, Copy, Debug)]
pub enum Sort {
    Separators,
    /// Characters of an ignored section.
    Skipped,
    Instruction,
    Comment,
    /// A reference to a parameter entity.
    Reference,
    SectionStart,
    SectionEnd,
    /// A declaration in the document type.
    Declaration,
    SubsetEnd,
    /// A declaration before the document type.
    Head,
    /// It has no place there.
    Misfit,
}

/// What a token of this kind is here.
pub fn sort_in(kept: &Kept, kind: TokenKind) -> Sort
    ensures { result ≡ sort_in kept.now kind }
{
    if is_before(kept.stage) {
        sort_before(kind)
    } else {
        sort_inside(is_ignored(kept.sections.innermost()), kind)
    }
}

/// Whether the innermost section is ignored.
pub fn is_ignored(innermost: Option<Status>) -> bool
    ensures { result ≡ is_ignored innermost }
{
    match innermost {
        Some(Status::Ignore) => true,
        Some(Status::Cdata) => false,
        Some(Status::Rcdata) => false,
        Some(Status::Include) => false,
        None => false,
    }
}

fn sort_before(kind: TokenKind) -> Sort
    ensures { result ≡ sort_before kind }
{
    match kind {
        TokenKind::Separators => Sort::Separators,
        TokenKind::Pi => Sort::Instruction,
        TokenKind::Comment => Sort::Comment,
        TokenKind::Declaration => Sort::Head,
        _ => Sort::Misfit,
    }
}

fn sort_inside(ignored: bool, kind: TokenKind) -> Sort
    ensures { result ≡ sort_inside ignored kind }
{
    match kind {
        TokenKind::Chars => characters(ignored),
        TokenKind::Separators => Sort::Separators,
        TokenKind::Pi => Sort::Instruction,
        TokenKind::Comment => Sort::Comment,
        TokenKind::ParameterRef => Sort::Reference,
        TokenKind::SectionStart => Sort::SectionStart,
        TokenKind::SectionEnd => Sort::SectionEnd,
        TokenKind::Declaration => Sort::Declaration,
        TokenKind::SubsetEnd => Sort::SubsetEnd,
        _ => Sort::Misfit,
    }
}

fn characters(ignored: bool) -> Sort
    ensures { result ≡ (if ignored then Skipped else Misfit) }
{
    if ignored { Sort::Skipped } else { Sort::Misfit }
}
