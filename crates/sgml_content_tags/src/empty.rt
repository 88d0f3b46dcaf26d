// The element type that an empty start-tag has.
ghost use Rattle.std.specs.Prelude.{◌≡◌, Option, IfSome, if◌then◌else◌};
ghost use Rattle.std.specs.Option.{option_map, option_and_then};
ghost use Rattle.sgml_dtd.specs.dtd_elements.Types.{number_of};
ghost use Rattle.sgml_infer.specs.Tables.{name_at, IsNumber};
ghost use Rattle.sgml_content_steps.specs.Content.{IsContent};
ghost use Rattle.sgml_content_tags.specs.Named.{number_empty, type_before};

use sgml_content_steps::{Content, innermost};
use sgml_dtd::Dtd;

/// The number of the type that an empty start-tag has (7.4.1.1), where it is declared.
pub(crate) fn empty_start(content: &Content) -> Option<u32>
    requires { IsContent content.now }
    ensures { result ≡ number_empty content.now }
{
    match before(content) {
        Some(number) => Some(number),
        None => of_doctype(&content.kept.dtd),
    }
}

// That of the innermost open element, or where OMITTAG is NO of the one that ended last.
fn before(content: &Content) -> Option<u32>
    requires { IsContent content.now }
    ensures named { option_map (name_at content.now.kept.doctype) result ≡ type_before content.now }
    ensures number { IfSome result (IsNumber content.now.kept.doctype) }
{
    if content.kept.dtd.syntax().omittag {
        innermost(content)
    } else {
        content.inside.ended()
    }
}

// That of the document element (7.1).
fn of_doctype(dtd: &Dtd) -> Option<u32>
    ensures { result ≡ option_and_then (number_of dtd.now.elements) dtd.now.name }
{
    if dtd.has_doctype() {
        dtd.element(dtd.doctype())
    } else {
        None
    }
}
