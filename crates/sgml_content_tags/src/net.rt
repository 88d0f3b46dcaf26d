// The open element that NET ends.
ghost use Rattle.std.specs.Prelude.{◌≡◌, IfSome};
ghost use Rattle.std.specs.Option.{option_map};
ghost use Rattle.sgml_theory_spelling.specs.theory_reading.ShortTags.{net_type};
ghost use Rattle.sgml_infer.specs.Tables.{name_at, IsNumber};
ghost use Rattle.sgml_content_steps.specs.Content.{IsContent, context_of};

use sgml_content_steps::Content;

/// The type of the open element that NET ends (7.5.1.3).
pub(crate) fn enabling(content: &Content) -> Option<u32>
    requires { IsContent content.now }
    ensures named { option_map (name_at content.now.kept.doctype) result ≡ net_type (context_of content.now) }
    ensures number { IfSome result (IsNumber content.now.kept.doctype) }
{
    match content.tree.net_level() {
        Some(level) => Some(content.tree.path(level)),
        None => None,
    }
}
