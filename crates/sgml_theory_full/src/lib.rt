//! That a full document is read again: its text is a list of spellings of pieces, and each is that piece whatever
//! follows it.
//!
//! Definitions and laws, without code: a law that stands on those of another library names them.
#![tactic(auto)]

ghost use Rattle.sgml_theory_full.specs.Conforming.{WrittenEventsAreRead, WrittenInstancesAreRead};
ghost use Rattle.sgml_theory_full.specs.Following.{ReadMayBeWritten};
ghost use Rattle.sgml_theory_full.specs.Instances.{InstancesAreReadAgain};
ghost use Rattle.sgml_theory_full.specs.Raw.{RawCharactersAreSpelled, LineEndsAreSpelled};
ghost use Rattle.sgml_theory_full.specs.Worked.{IsWrittenAgain};
ghost use Rattle.sgml_theory_full.specs.WorkedStrings.{StringsAreWritten};
ghost use Rattle.sgml_theory_full.specs.Written.{WrittenReads};
ghost use Rattle.sgml_theory_full.specs.Laws.{FullDocumentIsSpellings, CharactersAreSpelled, ReferencesAreSpelled, StartTagsAreSpelled, EndTagsAreSpelled, InstructionsAreSpelled};

use sgml_theory_values::{full_documents_spell_values, starts_are_read_back};

/// The text of a full document, after its prolog, is the spellings of the pieces of its events, and a record end.
pub fn full_document_is_spellings()
    ensures { FullDocumentIsSpellings }
{}

/// A character that stands for itself, or a reference to it by its number, is that one character of data, whatever
/// follows it.
pub fn characters_are_spelled()
    ensures { CharactersAreSpelled }
{}

/// A reference by the name of an entity is one piece, whatever follows it.
pub fn references_are_spelled()
    ensures { ReferencesAreSpelled }
{}

/// A start-tag with each value in its literal, and an end-tag, are those tags, whatever follows them; and each literal
/// is read to the units of its value.
pub fn tags_are_spelled()
    ensures starts { StartTagsAreSpelled }
    ensures ends { EndTagsAreSpelled }
{}

/// An instruction whose record ends are pairs is that instruction, whatever follows it.
pub fn instructions_are_spelled()
    ensures { InstructionsAreSpelled }
{}

/// Where the document alone is open, and isn't cut, spellings that are their pieces and may stand there are read as
/// those pieces, and no tag is left out.
pub fn written_reads()
    ensures { WrittenReads }
{}

/// Events that may be written one after another, from the end of a prolog on, are read from what is written of them:
/// these events are told, and no tag is left out.
pub fn written_events_are_read()
    ensures { WrittenEventsAreRead }
{}

/// An instance whose events may be written one after another is read from what is written of them, and a record end, to
/// the end of the document: these events are told, and no tag is left out.
pub fn written_instances_are_read()
    ensures { WrittenInstancesAreRead }
{}

/// The events of what was read may be written again, with each tag, and each record end that is data at its place.
pub fn read_may_be_written()
    ensures { ReadMayBeWritten }
{
    starts_are_read_back();
    full_documents_spell_values();
}

/// An instance that was read to its end is read again from what is written of its events where it stood: these events
/// are told, and no tag is left out.
pub fn instances_are_read_again()
    ensures { InstancesAreReadAgain }
{
    starts_are_read_back();
    full_documents_spell_values();
    written_instances_are_read();
    read_may_be_written();
}

/// In CDATA content a character of data is that character, where what follows makes no end-tag of it; and so are a
/// record end and the start of a record, whatever follows.
pub fn raw_data_is_spelled()
    ensures characters { RawCharactersAreSpelled }
    ensures lines { LineEndsAreSpelled }
{}

/// Of a small instance, in which tags were left out and a record end waits, all that these laws need holds, and its events
/// may be written.
pub fn worked_instance_holds()
    ensures { IsWrittenAgain }
{
    read_may_be_written();
}

/// So it does of one with a short reference map in force, by which a string is mapped to data and the record end stands for
/// itself.
pub fn worked_strings_hold()
    ensures { StringsAreWritten }
{
    read_may_be_written();
}

pub use sgml_theory_values as theory_values;
