// Laws of conversion.
ghost use Rattle.sgml_conversion.specs.Lines.{LinesAreThoseOfEvents, PutIsFront};
ghost use Rattle.sgml_conversion.specs.Laws.{EachInputHasAFullEnd, EachInputHasAnEnd, OneAnswer, OneFullAnswer};

/// A law: the lines of what was read are those of the events that say it, and what a writer of them has put at any moment is
/// a front of them.
pub fn lines_are_those_of_events()
    ensures whole { LinesAreThoseOfEvents }
    ensures front { PutIsFront }
{}

/// A law: an input has one answer, and one text of its lines; and one answer, and one full document, where it is written
/// with all its tags.
pub fn one_answer()
    ensures lines { OneAnswer }
    ensures full { OneFullAnswer }
{}

/// A law: each input is read to its end or to where reading stops, and a refusal has a position; and each has an answer where
/// it is written with all its tags.
pub fn each_input_has_an_end()
    ensures read { EachInputHasAnEnd }
    ensures full { EachInputHasAFullEnd }
{}
