// What has no place in the instance.
ghost use Rattle.std.specs.Prelude.{◌≡◌, ℕ, List, [], true};
ghost use Rattle.sgml_theory_reading.specs.Names.{Text};
ghost use Rattle.sgml_content_steps.specs.Laws.{is_misplaced};
ghost use Rattle.sgml_content_steps.specs.Content.{IsContent};
ghost use Rattle.sgml_content_steps.specs.Steps.{Takes};

use sgml_content_steps::Content;
use sgml_prolog_steps::Stop;
use sgml_scan::Token;
use sgml_text::Reason;

/// Refuses a token that has its place in a document type alone (9.6.1).
pub fn take_misplaced(content: &Content, token: Token) -> Result<(), Stop>
    requires content { IsContent content.now }
    requires kind { is_misplaced token.kind ≡ true }
    ensures { (texts : List (ℕ × Text)) → Takes texts token content.now content.now [] result }
{
    Err(Stop::Refused(Reason::DeclarationSyntax))
}
