// The entity that the map in force gives to a short reference string.
ghost use Rattle.std.specs.Prelude.{◌≡◌, is_some};
ghost use Rattle.std.specs.Option.{option_copied};
ghost use Rattle.sgml_declared.specs.theory_spelling.Content.{entity_of_string};
ghost use Rattle.sgml_inside.specs.Inside.{map_in};
ghost use Rattle.sgml_content_references.specs.Strings.{mapped_in, mapped_to, starts_record};

use sgml_content_steps::Content;
use sgml_dtd::Dtd;
use sgml_dtd_maps::MapOf;
use sgml_entity::Space;
use sgml_prolog_steps::Kept;
use sgml_text::Name;

/// What the map in force makes of a string.
#[derive(Clone, Copy, Debug, PartialEq, Eq)]
pub enum Mapped {
    /// It stands for its bytes.
    Nothing,
    /// Its entity isn't declared.
    Undeclared,
    /// The entity of this number.
    To(u32),
}

/// What the map in force makes of the string of this number (9.4.6, 11.6).
pub(crate) fn mapped_string(content: &Content, string: u8) -> Mapped
    ensures { result ≡ mapped_in content.now string }
{
    mapped_by(&content.kept, content.inside.map(), string)
}

/// Whether the map in force gives an entity to the string of this number.
#[inline(always)]
pub(crate) fn is_mapped(content: &Content, string: u8) -> bool
    ensures { result ≡ is_some (entity_of_string content.now.kept.doctype (map_in content.now.inside.elements) string) }
{
    name_of(&content.kept.dtd, content.inside.map(), string).is_some()
}

fn mapped_by(kept: &Kept, map: MapOf, string: u8) -> Mapped
    ensures { result ≡ mapped_to kept.now.doctype (entity_of_string kept.now.doctype map string) }
{
    mapped_to(&kept.dtd, map, string)
}

fn mapped_to(dtd: &Dtd, map: MapOf, string: u8) -> Mapped
    ensures { result ≡ mapped_to dtd.now (entity_of_string dtd.now map string) }
{
    match name_of(dtd, map, string) {
        Some(name) => match dtd.entities().lookup(Space::General, name) {
            Some(number) => Mapped::To(number),
            None => Mapped::Undeclared,
        },
        None => Mapped::Nothing,
    }
}

#[tactic(auto, unfolding(sgml_theory_reading::specs::Types::map_entries))]
fn name_of(dtd: &Dtd, map: MapOf, string: u8) -> Option<&Name>
    ensures { option_copied result ≡ entity_of_string dtd.now map string }
{
    match map {
        MapOf::Map(number) => dtd.maps().mapped(number, string),
        MapOf::Empty => None,
        MapOf::Parent => None,
    }
}

/// Whether a string begins with a record start (7.6.1).
pub(crate) fn starts_record(own: &[u8]) -> bool
    ensures { result ≡ starts_record own.now }
{
    match own {
        [] => false,
        [b, ..] => *b == b'\n',
    }
}
