//! That the names of a document type that was read are words of lines, and so the lines of what was read are a file
//! of lines.
//!
//! Definitions and laws, without code.
#![tactic(auto)]

ghost use Rattle.sgml_theory_words.specs.Words.{DocumentTypesHaveWords, LinesAreAFile};

/// Of a document type that was read, the names of its element types, attributes and entities, and those of the
/// notations of its external data, are words: a name begins with a name start character and goes on with name
/// characters (9.3).
pub fn document_types_have_words()
    ensures { DocumentTypesHaveWords }
{}

/// The bytes of the lines of what was read of any input are one file of lines, and whatever reads it as lines reads
/// these lines.
pub fn lines_are_a_file()
    ensures { LinesAreAFile }
{}
