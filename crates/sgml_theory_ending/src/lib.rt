//! That reading comes to an end, whatever the input is, and what each input comes to.
//!
//! Definitions and laws, without code.
#![tactic(auto)]

ghost use Rattle.sgml_theory_ending.specs.Laws.{LessIsLeft, ReadingEnds, NoMoreReads, EachInputIsRead, OutcomesCome, FaultsHavePlaces, PlacesAreThere, EachInputHasAnOutcome, NoOtherOutcome, RecordsBegin, NoneIsAbsentAtFirst};

/// With each move less is left to read, of the texts on the stack and of what may still be opened.
pub fn less_is_left()
    ensures { LessIsLeft }
{}

/// Reading comes to the document's end, or to where it stops for a reason, from the start of an input and from
/// whatever was read of it. Its moves are bounded by the length of the document and of the texts that may be
/// opened, and so is what is computed piece by piece.
pub fn reading_ends()
    ensures reading { ReadingEnds }
    ensures input { EachInputIsRead }
    ensures longest { NoMoreReads }
    ensures computed { OutcomesCome }
{}

/// After what reads, each place on the stack, and that of each start, is in a text that has a name: the
/// document, the external subset where it has a file, or an entity that is declared. A start whose
/// identifiers are at fault has a place.
pub fn places_are_there()
    ensures places { PlacesAreThere }
    ensures faults { FaultsHavePlaces }
{}

/// Each input has one outcome, and no other: it is read to the document's end and its identifiers agree, or
/// it is refused for a reason at a place in one of its texts.
pub fn each_input_has_one_outcome()
    ensures one { EachInputHasAnOutcome }
    ensures no_other { NoOtherOutcome }
{}

/// A document in records begins with RS, where no reference stands, so that no refusal at its first byte is
/// for a text that is absent.
pub fn none_is_absent_at_first()
    ensures records { RecordsBegin }
    ensures refused { NoneIsAbsentAtFirst }
{}
