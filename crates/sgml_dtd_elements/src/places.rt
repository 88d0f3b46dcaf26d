// The places in which element types are named.
ghost use Rattle.std.specs.Prelude.{◌≡◌, ◌+◌, ◌<◌, ◌≤◌, ◌++◌, length, vec_len};
ghost use Rattle.std.specs.Vec.{vec_capacity};
ghost use Rattle.sgml_names.specs.Index.{table_limit};
ghost use Rattle.sgml_dtd_elements.specs.Naming.{places_in};

use crate::row::Place;
use sgml_text::Name;

// Adds the places of the names of a declaration, for which there is room.
pub(crate) fn push_places(places: &mut Vec<Place>, declaration: u32, names: &[Name])
    requires room { vec_len places.old + length names.now ≤ vec_capacity places.old }
    requires few { length names.now < table_limit }
    ensures { places.new.items ≡ places.old.items ++ places_in declaration 0 names.now }
{
    let mut at = 0;
    let mut rest = names;
    'names: while let [_, after @ ..] = rest {
        places.push_reserved(Place { declaration, at });
        at += 1;
        rest = after;
    }
}
