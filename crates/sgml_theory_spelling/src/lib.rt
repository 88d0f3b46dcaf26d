//! What is spelled at a place of a document: the one concrete record of forms of this profile.
//!
//! Definitions and laws, without code.
#![tactic(auto)]

ghost use Rattle.sgml_theory_reading.specs.Reads.{Decides};
ghost use Rattle.sgml_theory_spelling.specs.Spelled.{forms};
ghost use Rattle.sgml_theory_spelling.specs.Taken.{SpelledTakesItsBytes};
ghost use Rattle.sgml_theory_spelling.specs.Nested.{ReadSectionsAreNested};
ghost use Rattle.sgml_theory_spelling.specs.Laws.{ScannedIsToken, StretchIsTokens, ScannedIsTokens, DecidedIsReached, ReadIsLexed, RefusedIsLexed, OneEnd};
ghost use Rattle.sgml_theory_spelling.specs.Asked.{AskedIsSpelled};
ghost use Rattle.sgml_theory_spelling.specs.Judged.{AddedIsUnopposed, FirstIsAgainst, AddedIsSpelled, RefusedIsSpelled};
ghost use Rattle.sgml_theory_spelling.specs.Valued.{RowsAreRanked, StartsHaveValues};
ghost use Rattle.sgml_theory_spelling.specs.Opened.{UnopenedIsRefused, FilesAreTexts};
ghost use Rattle.sgml_theory_spelling.specs.Named.{NamedIsNumbered};
ghost use Rattle.sgml_theory_spelling.specs.Statuses.{KeywordsGiveStatus};
ghost use Rattle.sgml_theory_spelling.specs.Worked.{AllComeOut};
ghost use Rattle.sgml_theory_spelling.specs.Worked as worked;
ghost use Rattle.sgml_theory_spelling.specs.Random as samples;

/// A piece that is decided, or its refusal, is the same in each text that begins so, and takes no
/// byte that isn't there yet.
pub fn decided_pieces_stay()
    ensures { Decides forms }
{}

/// A piece lies in what is unread of the text that is being read. It has a byte, unless it is the end
/// of that text, which stands where all of it was read.
pub fn pieces_take_their_bytes()
    ensures { SpelledTakesItsBytes }
{}

/// What `sgml_scan` tells of a place is the token of that place.
pub fn scanned_is_token()
    ensures token { ScannedIsToken }
    ensures stretch { StretchIsTokens }
    ensures growing { ScannedIsTokens }
    ensures decided { DecidedIsReached }
{}

/// What `sgml_decl_lexemes` answers of a declaration, a section start, the end of a document type or a literal
/// is what is spelled there: it depends on what is unread, and not on offsets or on texts that aren't
/// opened. Where a declaration is refused, it tells also whether its end is reached there.
pub fn read_is_lexed()
    ensures lexemes { ReadIsLexed }
    ensures refusal { RefusedIsLexed }
    ensures asked { AskedIsSpelled }
    ensures ends { OneEnd }
{}

/// A text isn't opened for the reasons for which it isn't pushed on the stack of `sgml_entity`, and texts
/// in files are those that a declaration is read with.
pub fn texts_are_opened()
    ensures refused { UnopenedIsRefused }
    ensures files { FilesAreTexts }
{}

/// What the tables of `sgml_dtd` tell of a declaration is what is spelled: a piece where they have added
/// it, by which the document type is the one that they then have, and else the reason that they tell.
pub fn tables_judge()
    ensures unopposed { AddedIsUnopposed }
    ensures against { FirstIsAgainst }
    ensures added { AddedIsSpelled }
    ensures refused { RefusedIsSpelled }
{}

/// The first reason against a specification is told by what `sgml_attr` answers of its value, by its
/// length, and by its being the second of its attribute; the attribute that it names is the one of the
/// number that `sgml_attr` tells.
pub fn values_judge()
    ensures rows { RowsAreRanked }
    ensures attribute { NamedIsNumbered }
{}

/// Where no reason holds against a start, each of its attributes has a value: that of what is written
/// in its specification, or else of its default or what is current. The names of its attributes differ.
pub fn starts_have_values()
    ensures { StartsHaveValues }
{}

/// The start of a marked section has the highest status that its words give, by what `sgml_marked`
/// tells of them; a word that is no status keyword is refused, and before the document type was read
/// character data too.
pub fn keywords_give_status()
    ensures { KeywordsGiveStatus }
{}

/// After all that reads, the open sections are nested as the texts are, so that the innermost tells
/// whether one is open in the text that is being read, as `sgml_marked` does of all of them.
pub fn sections_are_nested()
    ensures { ReadSectionsAreNested }
{}

/// Each worked document, with its document type, is read to its end or refused as it should be, and
/// has the lines that it should have; and what comes out so is read so.
pub fn worked_documents_come_out()
    ensures is_read { worked.WhatComesOutIsRead }
    ensures tags_left_out { AllComeOut worked.tags_left_out }
    ensures content_models { AllComeOut worked.content_models }
    ensures record_ends { AllComeOut worked.record_ends }
    ensures references { AllComeOut worked.references }
    ensures parameter_references { AllComeOut worked.parameter_references }
    ensures marked_sections { AllComeOut worked.marked_sections }
    ensures short_references { AllComeOut worked.short_references }
    ensures declared { AllComeOut worked.declared }
    ensures attribute_values { AllComeOut worked.attribute_values }
    ensures sgml_declarations { AllComeOut worked.sgml_declarations }
    ensures characters_and_ends { AllComeOut worked.characters_and_ends }
    ensures lengths { AllComeOut worked.lengths }
    ensures limits { AllComeOut worked.limits }
    ensures modes_and_ends { AllComeOut worked.modes_and_ends }
    ensures random_tags_first { AllComeOut samples.random_tags_first }
    ensures random_tags_second { AllComeOut samples.random_tags_second }
    ensures random_omissions { AllComeOut samples.random_omissions }
    ensures random_attributes { AllComeOut samples.random_attributes }
    ensures random_entities { AllComeOut samples.random_entities }
    ensures random_sections { AllComeOut samples.random_sections }
    ensures random_maps { AllComeOut samples.random_maps }
    ensures random_records { AllComeOut samples.random_records }
    ensures aimed_first { AllComeOut samples.aimed_first }
    ensures aimed_second { AllComeOut samples.aimed_second }
    ensures aimed_third { AllComeOut samples.aimed_third }
{}
