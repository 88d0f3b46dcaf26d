// What holds of all content models.
ghost use Rattle.sgml_model.specs.Laws.{ReadIsSpelled, RequiredIsTaken, WordsAreOfTheModel};

/// A law: an element that is required can come.
pub fn required_is_taken()
    ensures { RequiredIsTaken }
{}

/// A law: each token of a word stands in the model.
pub fn words_are_of_the_model()
    ensures { WordsAreOfTheModel }
{}

/// A law: what is read is spelled by its tokens, and is a content model.
pub fn read_is_spelled()
    ensures { ReadIsSpelled }
{}
