// How what is kept stands for parts of the state.
ghost use Rattle.sgml_inside.specs.Laws.{NotedIsAfter, OpenedIsAfter, EndedIsAfter, SetIsAfter, InForceIsFound, InForceStays};

/// A law: what each call makes of the record ends and the settings of maps is what a piece with that item,
/// and with that effect on the open elements, makes of them in the state.
pub fn inside_is_of_the_state()
    ensures noted { NotedIsAfter }
    ensures opened { OpenedIsAfter }
    ensures ended { EndedIsAfter }
    ensures set { SetIsAfter }
{}

/// A law: the map that is kept is the one in force, as long as each call stands for a piece.
pub fn map_is_in_force()
    ensures found { InForceIsFound }
    ensures stays { InForceStays }
{}
