// How a parser goes on to stand for what was read.
ghost use Rattle.sgml_parse.specs.Laws.{ParserBegins, DocumentIsFed, DocumentEnds, TextIsSupplied, GoneIsRefused, AnswerIsTold, PrologAnswers, InstanceBeginsAfter, InstanceAnswers};

/// A law: before the first byte a parser stands for nothing read of every document; and what it stood for with more to
/// come it stands for after it was fed that, after the document was told to be whole, and after it was given what the store
/// has under the name that was wanted.
pub fn parser_is_given()
    ensures begins { ParserBegins }
    ensures fed { DocumentIsFed }
    ensures ended { DocumentEnds }
    ensures supplied { TextIsSupplied }
{}

/// A law: what the readers of the prolog and of the instance answer is what a parser answers, in order; the instance begins
/// where the prolog has been read; and a text that isn't there is refused at its place.
pub fn answers_are_told()
    ensures prolog { PrologAnswers }
    ensures instance { InstanceAnswers }
    ensures over { InstanceBeginsAfter }
    ensures told { AnswerIsTold }
    ensures gone { GoneIsRefused }
{}
