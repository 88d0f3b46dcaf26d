//! That what was read may be written again: what holds of each piece where it is read (ISO 8879 7.3 to 7.6, 9.4, 9.6).
//!
//! Definitions and laws, without code. It stands on tags that are written in their places, on values that are written
//! again and on full documents, and says that what was read satisfies what these ask of it.
#![tactic(auto)]

ghost use Rattle.sgml_theory_again.specs.Holding.{ReadHolds, ReadToEndHolds, ReadIsRaw, ReadToEndIsRaw};
ghost use Rattle.sgml_theory_again.specs.Laws.{AllowedDataHasText, StartsStandInContent, ReadPiecesStand, RecordEndsAreNoted, RecordEndsStayLive, StringsAreNoted, SpelledIsOfInstance, StringsAreMapped, ReadIsOfInstance, InstanceGoesOn, ReadStandsInInstance, ReferredIsFound, ReadHasNames, ReferredIsEntity};

use sgml_theory_full::theory_values::read_starts_are_read_back;

/// Data is allowed only where #PCDATA is in the content of the innermost element, and a start only where tags are
/// recognised.
pub fn what_is_allowed_has_its_place()
    ensures text { AllowedDataHasText }
    ensures starts { StartsStandInContent }
{}

/// Each piece of a move that reads, with the tags that were left out, stands where it is read: a start fits, fewer than
/// TAGLVL elements are open, and it is noted whether it is a proper one and ends at once; an end is of the innermost
/// element, which may end there; data is allowed. A record end is live where what stands before it says so, if one that
/// is live where it comes, before the tags that are left out, is live, too, in the element in which it then stands. It is
/// where no tag is left out before it, and where the last one is the end-tag of a proper subelement. In the same way a
/// short reference string that stands for itself is what is noted of it.
pub fn read_pieces_stand()
    ensures stand { ReadPiecesStand }
    ensures record_ends { RecordEndsAreNoted }
    ensures stay_live { RecordEndsStayLive }
    ensures strings { StringsAreNoted }
{}

/// In the instance what is read declares nothing, external data, instructions and short references stand where tags are
/// recognised, and each entity that is referred to, or that a string is mapped to, is found by its name; short references
/// are recognised only where a map is in force. The instance goes on: all pieces that are read from there on stand in it,
/// if each record end that is live where it comes is live, too, in the element in which it then stands, also one at the
/// head of a string that stands for itself.
pub fn read_is_of_instance()
    ensures spelled { SpelledIsOfInstance }
    ensures strings { StringsAreMapped }
    ensures read { ReadIsOfInstance }
    ensures goes_on { InstanceGoesOn }
    ensures all { ReadStandsInInstance }
    ensures found { ReferredIsFound }
{}

/// After whatever was read, each declared element type, each attribute and each entity has a name (9.3), which is folded
/// where its kind of names is (13.4.5), of at most NAMELEN characters (13.4.8). So an entity that is referred to may
/// be referred to again by its name.
pub fn read_has_names()
    ensures names { ReadHasNames }
    ensures entities { ReferredIsEntity }
{}

/// What is read from a place in the instance on, short of the end of the document or up to it, satisfies what is asked
/// of it so that its events may be written again: where no element with CDATA content is open at the place, each record
/// end that is live where it comes is live, too, in the element in which it then stands, also one at the head of a string
/// that stands for itself, no included start follows a record end that waits, and no internal CDATA entity with an empty
/// text is referred to.
pub fn read_holds()
    ensures before { ReadHolds }
    ensures to_end { ReadToEndHolds }
{
    read_starts_are_read_back();
}

/// While an element with CDATA content is the innermost one, what is read are characters, record ends and starts, and
/// the end of the element; no end-tag begins at a character, with those that stand directly after it. This is so where
/// no element with CDATA content is open at the place from which it is read, no entity ends in such an element, and no
/// record start stands there but directly after a record end.
pub fn read_is_raw()
    ensures all { ReadIsRaw }
    ensures before_last { ReadToEndIsRaw }
{}

pub use sgml_theory_full as theory_full;
pub use sgml_theory_full::theory_values as theory_values;
