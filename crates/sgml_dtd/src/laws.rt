// What holds of each list of declarations.
ghost use Rattle.sgml_dtd.specs.Laws.{WhatIsFoundWasDeclared};

/// A law: what is found is what was declared, and of entities of one name in one space what was
/// declared first (10.5, 11.1 to 11.6).
pub fn what_is_found_was_declared()
    ensures { WhatIsFoundWasDeclared }
{}
