// What has no place where it stands, or was refused there.
ghost use Rattle.std.specs.Prelude.{◌≡◌, false, if◌then◌else◌};
ghost use Rattle.sgml_text.specs.declared.reason.Reason.TheVariants.{NoDoctype, DeclarationSyntax};
ghost use Rattle.sgml_declared.specs.theory_standing.Prologs.{is_over};
ghost use Rattle.sgml_prolog_steps.specs.Standing.{IsKept};
ghost use Rattle.sgml_prolog_steps.specs.Sorts.{sort_in};
ghost use Rattle.sgml_prolog_steps.specs.Steps.{Takes};
ghost use Rattle.sgml_prolog_steps.specs.declared.sort.Sort.TheVariants as sort;

use crate::kept::Kept;
use crate::stage::is_before;
use crate::stepping::{Stop, Turn};
use sgml_entity::Texts;
use sgml_scan::Token;
use sgml_text::Reason;

/// A token that has no place where it stands.
pub fn refuse_misfit(kept: &Kept, texts: &Texts, token: Token) -> Result<Turn, Stop>
    requires kept { IsKept kept.now }
    requires going_on { is_over kept.now ≡ false }
    requires sort { sort_in kept.now token.kind ≡ sort.Misfit }
    ensures { Takes texts.now token kept.now kept.now result }
{
    Err(Stop::Refused(reason_of_misfit(is_before(kept.stage))))
}

fn reason_of_misfit(before: bool) -> Reason
    ensures { result ≡ (if before then NoDoctype else DeclarationSyntax) }
{
    if before {
        Reason::NoDoctype
    } else {
        Reason::DeclarationSyntax
    }
}
