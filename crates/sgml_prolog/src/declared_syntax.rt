// The syntax that an SGML declaration declares.
ghost use Rattle.std.specs.Prelude.{◌≡◌, ◌≤◌, IfOk, length};
ghost use Rattle.sgml_declared.specs.theory_spelling.SgmlDeclared.{feature_reason};
ghost use Rattle.sgml_prolog.specs.Sgml.{IsSyntaxRead, IsSgmlRead, refusal_by};

use sgml_sgmldecl::{DeclError, Feature, read_sgml_declaration};
use sgml_syntax::Syntax;
use sgml_text::{Reason, RefusalError, all_sgml};
use std::alloc::Global;

/// Its syntax, and how many bytes it has (13). A byte of it that is no SGML character is refused last.
pub fn read_sgml(alloc: Global, own: &[u8]) -> Result<(Syntax, usize), RefusalError>
    ensures { IsSgmlRead own.now result }
{
    let (syntax, used) = match read_syntax(alloc, own) {
        Ok(read) => read,
        Err(error) => return Err(error),
    };
    if all_sgml(&own[..used]) {
        Ok((syntax, used))
    } else {
        Err(RefusalError::Refused(Reason::NonSgml))
    }
}

fn read_syntax(alloc: Global, own: &[u8]) -> Result<(Syntax, usize), RefusalError>
    ensures read { IsSyntaxRead own.now result }
    ensures within { IfOk result (λ x. x.1 ≤ length own.now) }
{
    match read_sgml_declaration(alloc, own) {
        Ok((syntax, used)) => Ok((syntax, used)),
        Err(error) => Err(refusal_by(error)),
    }
}

fn refusal_by(error: DeclError) -> RefusalError
    ensures { result ≡ refusal_by error }
{
    match error {
        DeclError::BadDeclaration { .. } => RefusalError::Refused(Reason::BadDeclaration),
        DeclError::FeatureOut { which, .. } => RefusalError::Refused(feature_reason(which)),
        DeclError::QuantityOut { .. } => RefusalError::Refused(Reason::QuantityOut),
        DeclError::Memory => RefusalError::Memory,
    }
}

fn feature_reason(feature: Feature) -> Reason
    ensures { result ≡ feature_reason feature }
{
    match feature {
        Feature::Datatag => Reason::DatatagOut,
        Feature::Rank => Reason::RankOut,
        Feature::Link => Reason::LinkOut,
        Feature::Concur => Reason::ConcurOut,
        Feature::Subdoc => Reason::SubdocOut,
        Feature::Other => Reason::OtherOut,
    }
}
