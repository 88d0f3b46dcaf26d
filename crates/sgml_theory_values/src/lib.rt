//! That values are read back: a start whose attributes are specified with the values that they have has these values
//! again (ISO 8879 7.9, 11.3).
//!
//! Definitions and laws, without code. It stands on the values of starts and on the full document, and the laws of
//! full documents that are read again use it.
#![tactic(auto)]

ghost use Rattle.sgml_theory_values.specs.Laws.{SpelledIsGiven, ValuesAreGiven, WrittenStartsHaveTheirValues, CurrentValuesStay, EndsAtOnceStay, CurrentsStillHold, FullDocumentsSpellValues, ReferencesStay, EndsAreWritten};
ghost use Rattle.sgml_theory_values.specs.Read.{WhatIsReadHolds, ReadStartsHaveValues, ReadStartsAreReadBack};
ghost use Rattle.sgml_theory_values.specs.Worked.{WorkedStart};

/// A literal that is read as the units of a value gives it, where some literal does: tokens and names have been
/// folded, and have one space between each two (7.9.3, 7.9.4). It passes LITLEN no more than that one does.
pub fn values_are_given_again()
    ensures { SpelledIsGiven }
{}

/// Each attribute of a start that has values has one that a literal gives, or none where its default is none. The
/// start, with each of these values specified, has no reason against it and has these values, in each state with the
/// same document type. The same current values stand after it, and it ends at once where the first one does. After a
/// start that has values, what these laws need of current values holds again.
pub fn starts_are_read_back()
    ensures given { ValuesAreGiven }
    ensures values { WrittenStartsHaveTheirValues }
    ensures currents { CurrentValuesStay }
    ensures ends { EndsAtOnceStay }
    ensures hold { CurrentsStillHold }
{}

/// A full document writes each value in a literal that is read as its units. In it an element refers where one of the
/// first specifications is a content reference, and has no end-tag where its start ends at once (7.3, 7.5, 11.3.4).
pub fn full_documents_spell_values()
    ensures spell { FullDocumentsSpellValues }
    ensures refer { ReferencesStay }
    ensures ends { EndsAreWritten }
{}

/// Where documents are read, what these laws need holds of definitions and of current values, and each start, also one
/// without a tag, has values where it stands. Written as a full document writes it, it has them again.
pub fn read_starts_are_read_back()
    ensures hold { WhatIsReadHolds }
    ensures values { ReadStartsHaveValues }
    ensures again { ReadStartsAreReadBack }
{}

/// These laws hold of something: of a start with character data in which a character stands by its number, with a list
/// of names in any letter case, and with an attribute that isn't specified. Written again, it has the same values.
pub fn worked_start_is_read_back()
    ensures { WorkedStart }
{}
