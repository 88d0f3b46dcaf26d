// What the standard says of values, as laws of the definitions.
ghost use Rattle.std.specs.Prelude.{◌≡◌, ℕ, List, Option};
ghost use Rattle.sgml_text.specs.declared.unit.Unit.{Unit as AnyUnit};
ghost use Rattle.sgml_attr.specs.Parts.{AreParts, parts};
ghost use Rattle.sgml_attr.specs.Literal.{joined};
ghost use Rattle.sgml_attr.specs.Matching.{AreMatched};

/// The parts of a value are what stands between its SPACEs, nothing else is, and a literal that is
/// read as such a value keeps its parts.
pub fn parts_stand_between_spaces()
    ensures are { (units : List AnyUnit) → AreParts (parts units) units }
    ensures only { (ps : List (List AnyUnit)) (units : List AnyUnit) → AreParts ps units → parts units ≡ ps }
    ensures kept { (units : List AnyUnit) → parts (joined (parts units)) ≡ parts units }
{}

/// No two matchings fit the same specifications.
pub fn one_matching_fits()
    ensures { (n : ℕ) (named a b : List (Option ℕ)) → AreMatched n named a → AreMatched n named b → a ≡ b }
{}
