// What holds of lists of names, as laws of the definitions.
ghost use Rattle.std.specs.Prelude.{◌≡◌, ℕ, true, List, []};
ghost use Rattle.sgml_names.specs.Index.{found};
ghost use Rattle.sgml_names.specs.Lists.{repeats, number_from, numbered, StandsTwice};

/// A law: a name repeats another exactly where it stands at two places.
pub fn a_name_that_repeats_stands_twice()
    ensures stands { (names : List (List ℕ)) → repeats [] names ≡ true → StandsTwice names }
    ensures repeats { (names : List (List ℕ)) → StandsTwice names → repeats [] names ≡ true }
{}

/// A law: among numbered names a name has the number of the first that is the same.
pub fn the_first_of_a_name_is_found()
    ensures { (n : ℕ) (names : List (List ℕ)) (name : List ℕ) →
        found (numbered n names) name ≡ number_from n names name }
{}
