// What holds of each list of element declarations.
ghost use Rattle.sgml_dtd_elements.specs.Laws.{FoundIsDeclared};

/// A law: what is found by a name is what the one declaration that names it says (11.2.1).
pub fn found_is_declared()
    ensures { FoundIsDeclared }
{}
