// What holds of all positions.
ghost use Rattle.sgml_automaton.specs.Laws.{LastTokenAndBits, LastTokenAlone};

/// A law: a term that is reached is that of its last token and of some bits.
pub fn last_token_and_bits()
    ensures { LastTokenAndBits }
{}

/// A law: where no group is an AND group, the last token alone determines the term.
pub fn last_token_alone()
    ensures { LastTokenAlone }
{}
