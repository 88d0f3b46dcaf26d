// What stands inside the innermost element.
ghost use Rattle.std.specs.Prelude.{◌≡◌, ◌&&◌, Some, false};
ghost use Rattle.sgml_dtd_elements.specs.sgml_decl_forms.declared.element.ContentForm.{ContentForm};
ghost use Rattle.sgml_dtd_elements.specs.Types.{IsContentOf};
ghost use Rattle.sgml_said.specs.Told.{definitions_at};
ghost use Rattle.sgml_full.specs.Full.{is_given, is_conref, refers, inside_of};
ghost use Rattle.sgml_full.specs.Events.{inside_at, after_data};

use sgml_attr::{AttrValue, Default, Definition};
use sgml_dtd::Dtd;
use sgml_dtd_elements::Content;
use sgml_events::Stretch;
use sgml_said::{defined_values, definitions, element_name};

/// What stands inside an element whose start-tag was written.
#[derive(Clone, Copy, Debug, PartialEq, Eq)]
pub enum Inside {
    /// Tags, references and data.
    Mixed,
    /// Nothing, and it has no end-tag (7.3).
    Nothing,
    /// CDATA content of which nothing was written (11.2.3).
    Characters,
    /// CDATA content of which lines were written.
    Lines,
}

fn is_given(value: &AttrValue) -> bool
    ensures { result ≡ is_given value.now }
{
    match value {
        AttrValue::Implied => false,
        AttrValue::Cdata(_) => true,
        AttrValue::Notation(_) => true,
        AttrValue::Entities(_) => true,
        AttrValue::Tokens(_) => true,
    }
}

fn is_conref(default: &Default) -> bool
    ensures { result ≡ is_conref default.now }
{
    match default {
        Default::Conref => true,
        Default::Value(_) => false,
        Default::Fixed(_) => false,
        Default::Required => false,
        Default::Current => false,
        Default::Implied => false,
    }
}

fn is_reference(definition: &Definition, value: &AttrValue) -> bool
    ensures { result ≡ (is_conref definition.now.default && is_given value.now) }
{
    is_conref(&definition.default) && is_given(value)
}

// Whether a content reference is given.
#[tactic(auto, using(crate::proofs::Specified::refers_none))]
fn refers(definitions: &[Definition], values: &[AttrValue]) -> bool
    ensures { result ≡ refers definitions.now values.now }
{
    for i in 0..defined_values(definitions, values) {
        if is_reference(&definitions[i], &values[i]) {
            return true;
        }
    }
    false
}

// What a content lets stand in an element.
fn content_inside(content: &Content) -> Inside
    ensures { (form : ContentForm) → IsContentOf form content.now → result ≡ inside_of false (Some form) }
{
    match content {
        Content::Empty => Inside::Nothing,
        Content::Cdata => Inside::Characters,
        Content::Rcdata => Inside::Mixed,
        Content::Any => Inside::Mixed,
        Content::Model(_) => Inside::Mixed,
    }
}

// What the content of an element type lets stand in it.
fn inside_of(dtd: &Dtd, element: u32, refers: bool) -> Inside
    ensures { result ≡ inside_at dtd.now element refers }
{
    if refers {
        return Inside::Nothing;
    }
    if element >= dtd.elements() || element_name(dtd, element).is_empty() {
        return Inside::Mixed;
    }
    content_inside(dtd.content(element))
}

/// What stands inside an element after its start-tag.
pub(crate) fn inside_after(dtd: &Dtd, element: u32, values: &[AttrValue]) -> Inside
    ensures { result ≡ inside_at dtd.now element (refers (definitions_at dtd.now element) values.now) }
{
    inside_of(dtd, element, refers(definitions(dtd, element), values))
}

/// What stands inside it after data.
pub(crate) fn after_data(inside: Inside, stretch: &Stretch) -> Inside
    ensures { result ≡ after_data inside stretch.now }
{
    match inside {
        Inside::Characters => {
            if stretch.is_empty() {
                Inside::Characters
            } else {
                Inside::Lines
            }
        }
        Inside::Mixed => Inside::Mixed,
        Inside::Nothing => Inside::Nothing,
        Inside::Lines => Inside::Lines,
    }
}
