// What steps come to.
ghost use Rattle.sgml_prolog.specs.Reading.{MoreTextsReadOn, WantedTextIsGain, WantedTextReadsOn};
ghost use Rattle.sgml_prolog.specs.Going.{NothingGoes, SilentGoesOn, OverIsDone, MoreIsMore, InstructionIsTold, RefusalIsTold, WantIsTold};

/// A law: a reader that goes from step to step, as long as nothing is told, has read the pieces of these
/// steps; what it answers where it ends is what reads of the input, or why reading stops.
pub fn steps_are_read()
    ensures nothing { NothingGoes }
    ensures silent { SilentGoesOn }
    ensures over { OverIsDone }
    ensures more { MoreIsMore }
    ensures told { InstructionIsTold }
    ensures refused { RefusalIsTold }
    ensures wanted { WantIsTold }
{}

/// A law: more of the document, and texts that were wanted, each the one in its file, leave a reader standing
/// for what it stood for, whatever it is.
pub fn more_texts_read_on()
    ensures { MoreTextsReadOn }
{}

/// A law: so does the text that was wanted, if it is the one in the file that was told.
pub fn wanted_text_reads_on()
    ensures gain { WantedTextIsGain }
    ensures reads { WantedTextReadsOn }
{}
