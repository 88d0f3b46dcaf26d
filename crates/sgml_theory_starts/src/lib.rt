//! What is told of a start by numbers, over tables, is what is said of it by names, and what is spelled
//! there: its values, why it has none, which text is wanted first, and the current values after it
//! (ISO 8879 7.4, 7.9, 11.3).
//!
//! Laws, without code. It stands on the values of starts, on what is spelled, on what a reader keeps, and on the
//! lexemes that are read at the top of its stack. The steps of content use them where they take a start.
#![tactic(auto)]

ghost use Rattle.sgml_theory_starts.specs.Starts.{StartsAreOne, StartsAreNamed, BegunIsRefused};
ghost use Rattle.sgml_theory_starts.specs.Read.{TagsAreRead};
ghost use Rattle.sgml_theory_starts.specs.Scanned.{ScannedTagsAreTags};
ghost use Rattle.sgml_theory_starts.specs.Valued.{LiteralsAreRead, TagsAreValued, TagsAreUnvalued, StartsAreValued, StartsAreUnvalued};
ghost use Rattle.sgml_theory_starts.specs.Apart.{NothingIsApart, DeclaredIsApart, AttributesAreApart, SpelledHolds, HeldIsApart, NextIsApart, ReadIsApart};

/// A start of the element type of a number is one of its name. What it specifies is refused for the
/// same reason by numbers as by names. Where it isn't refused, its values are the same, and so are the
/// current values after it. Where the first of its specifications are refused, it is whatever follows.
pub fn starts_are_one()
    ensures named { StartsAreNamed }
    ensures starts { StartsAreOne }
    ensures begun { BegunIsRefused }
{}

/// Where each literal of a tag is answered as it is spelled, the tag specifies what is spelled of it: all
/// its specifications, or those up to a literal that can't be read. Where a text is wanted that literal is
/// refused as it would be were the text missing.
pub fn tags_are_read()
    ensures { TagsAreRead }
{}

/// What `sgml_scan` tells as a start-tag is one by its form.
pub fn scanned_tags_are_tags()
    ensures { ScannedTagsAreTags }
{}

/// Each literal of a start-tag at the top of the stack is answered as it is spelled there. Where a text is
/// wanted, it is spelled as it is where that text is missing.
pub fn literals_are_read()
    ensures { LiteralsAreRead }
{}

/// A start-tag at the top of the stack has the values that are told of it by numbers, with the current
/// values and the stack after it, or has none for the reason that is told. Where a text is wanted, it has
/// none for the reason for which that text would be missing.
pub fn tags_are_pieces()
    ensures valued { TagsAreValued }
    ensures unvalued { TagsAreUnvalued }
{}

/// So it is of a start that specifies nothing: one without a tag, or with an empty one. It wants no text.
pub fn starts_are_pieces()
    ensures valued { StartsAreValued }
    ensures unvalued { StartsAreUnvalued }
{}

/// The attributes of an element type have different names, in each document type whose declarations hold.
pub fn attributes_are_apart()
    ensures nothing { NothingIsApart }
    ensures declared { DeclaredIsApart }
    ensures attributes { AttributesAreApart }
{}

/// So they are after pieces of the prolog and after all that was read, since each declaration that is
/// spelled holds.
pub fn read_attributes_are_apart()
    ensures spelled { SpelledHolds }
    ensures held { HeldIsApart }
    ensures next { NextIsApart }
    ensures read { ReadIsApart }
{}
