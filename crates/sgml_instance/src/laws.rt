// How reading goes from step to step of content.
ghost use Rattle.sgml_instance.specs.Laws.{BeginsWithNothing, StepIsOn, NothingGoes, StepGoesOn, EndGoesOn, EventIsTold, EndIsTold, MoreIsAnswered, RefusalIsAnswered, WantIsAnswered, MoreTextsReadOn};

/// A law: what is kept before the instance stands for what was read of the prolog.
pub fn instance_begins()
    ensures { BeginsWithNothing }
{}

/// A law: whatever steps there are, one after another, what they take is read, and their events are those of what was
/// read; what waits is told one event after another; and where nothing is taken, what is answered is why.
pub fn steps_are_read()
    ensures step { StepIsOn }
    ensures nothing { NothingGoes }
    ensures goes_on { StepGoesOn }
    ensures ends { EndGoesOn }
    ensures event { EventIsTold }
    ensures end { EndIsTold }
    ensures more { MoreIsAnswered }
    ensures refused { RefusalIsAnswered }
    ensures wanted { WantIsAnswered }
{}

/// A law: more of the document, and texts of entities that aren't being read, leave what a reader stands for as it is.
pub fn more_texts_read_on()
    ensures { MoreTextsReadOn }
{}
