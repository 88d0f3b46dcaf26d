// Values beside the definitions of their attributes.
ghost use Rattle.std.specs.Prelude.{◌≡◌, ◌≤◌, [], length, drop};
ghost use Rattle.sgml_said.specs.Told.{attributes_with, definitions_at, start_attributes, attributes_of};

use crate::tables::definitions;
use sgml_attr::{AttrValue, Definition};
use sgml_dtd::Dtd;
use sgml_events::Event;

/// How many values have a definition, and definitions a value: all of them in a start that was read.
#[tactic(auto, using(crate::proofs::Paired::no_values, crate::proofs::Paired::no_definitions))]
pub fn defined_values(definitions: &[Definition], values: &[AttrValue]) -> usize
    ensures definitions { result ≤ length definitions.now }
    ensures values { result ≤ length values.now }
    ensures all { attributes_with (drop result definitions.now) (drop result values.now) ≡ [] }
{
    if definitions.len() < values.len() {
        return definitions.len();
    }
    values.len()
}

/// The definitions of the values of a start. They are looked for only where it has values.
#[inline(always)]
pub fn start_definitions<'a>(dtd: &'a Dtd, event: &Event) -> &'a [Definition]
    ensures { start_attributes result.now event.now ≡ attributes_of dtd.now event.now }
{
    match event {
        Event::Start {
            element,
            values,
            ..
        } => value_definitions(dtd, *element, values.items()),
        _ => &[],
    }
}

fn value_definitions<'a>(dtd: &'a Dtd, element: u32, values: &[AttrValue]) -> &'a [Definition]
    ensures { attributes_with result.now values.now ≡ attributes_with (definitions_at dtd.now element) values.now }
{
    match values {
        [] => &[],
        _ => definitions(dtd, element),
    }
}
