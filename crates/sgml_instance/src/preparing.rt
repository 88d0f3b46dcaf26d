// Tables of models.
ghost use Rattle.std.specs.Prelude.{◌≡◌};

use sgml_content_tags::content_steps::Content;

/// Makes the tables of the models of which elements have begun.
#[inline(always)]
pub(crate) fn prepare_models(content: &mut Content)
    ensures { content.new ≡ content.old }
{
    content.tree.prepare_models(&mut content.kept.dtd);
}
