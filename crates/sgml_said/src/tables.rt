// What a document type says of numbers.
ghost use Rattle.std.specs.Prelude.{◌≡◌, ◌<◌};
ghost use Rattle.sgml_theory_reading.specs.Types.{body_of, name_of_entity};
ghost use Rattle.sgml_theory_reading.specs.Lines.{sdata_of};
ghost use Rattle.sgml_said.specs.Told.{name_at, definitions_at};

use sgml_attr::Definition;
use sgml_dtd::Dtd;
use sgml_entity::{Body, Entity};

/// The name of an element type.
pub fn element_name(dtd: &Dtd, number: u32) -> &[u8]
    ensures { result.now ≡ name_at dtd.now number }
{
    if number < dtd.elements() {
        return dtd.element_name(number).items();
    }
    &[]
}

/// The attribute definitions of an element type.
pub fn definitions(dtd: &Dtd, number: u32) -> &[Definition]
    ensures { result.now ≡ definitions_at dtd.now number }
{
    if number < dtd.elements() {
        return dtd.definitions(number);
    }
    &[]
}

/// The name of an entity.
#[tactic(auto, unfolding(sgml_theory_reading::specs::Types::entity))]
pub fn entity_name(dtd: &Dtd, number: u32) -> &[u8]
    ensures { result.now ≡ name_of_entity dtd.now number }
{
    match dtd.entities().get(number) {
        Some(entity) => entity.name.items(),
        None => &[],
    }
}

/// The text of an SDATA entity.
#[tactic(auto, unfolding(sgml_theory_reading::specs::Types::entity))]
pub fn sdata_text(dtd: &Dtd, number: u32) -> &[u8]
    ensures { result.now ≡ sdata_of (body_of dtd.now number) }
{
    match dtd.entities().get(number) {
        Some(entity) => sdata_in(entity),
        None => &[],
    }
}

fn sdata_in(entity: &Entity) -> &[u8]
    ensures { result.now ≡ sdata_of (Some entity.now.body) }
{
    match &entity.body {
        Body::Sdata(text) => text.items(),
        _ => &[],
    }
}
