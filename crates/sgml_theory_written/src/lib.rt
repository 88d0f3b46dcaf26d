//! That tags may be written where they were left out, and that nothing is then left out before them.
//!
//! Definitions and laws, without code.
#![tactic(auto)]

ghost use Rattle.sgml_theory_kinds.specs.theory_spelling.Spelled.{forms};
ghost use Rattle.sgml_theory_written.specs.Standing.{TypesItsEnds};
ghost use Rattle.sgml_theory_written.specs.Laws.{OmittedMayBeWritten, OmittedIsWritten, VisibleMayBeWritten, VisibleIsWritten, WrittenEnableNoNet, NetStaysOut, MovesMayBeWritten, MovesAreWritten, MovesMayBeRewritten, FreeContent, UsualIsFree, NotAllIsFree, OthersAreSilentOrData, MovesMayBeFreelyRewritten, AlikeTakeAlike, ReadingStands, StandingReads, WrittenReads, RewrittenReads, FreelyRewrittenReads};
ghost use Rattle.sgml_theory_written.specs.Worked.{WorkedTags, WorkedData};

/// A tag that may be left out may be written in its place, whatever attributes it then specifies, unless one of
/// them stands for the content: it stands there for no reason refused and with no tag left out before it, and all
/// that is known of the open elements is then the same, but for NET and for that it was left out.
pub fn omitted_tags_may_be_written()
    ensures written { OmittedMayBeWritten }
    ensures as_they_are { OmittedIsWritten }
{}

/// So may a visible piece, in whatever way its tag was spelled, where the tags that were left out before it are
/// written.
pub fn visible_pieces_may_be_written()
    ensures written { VisibleMayBeWritten }
    ensures as_they_are { VisibleIsWritten }
{}

/// A written tag enables no NET, so that in a document that is written so NET is never in force.
pub fn written_tags_enable_no_net()
    ensures written { WrittenEnableNoNet }
    ensures after { NetStaysOut }
{}

/// The pieces of moves that stand one after another, each of them written, stand one after another, with no tag left
/// out.
pub fn moves_may_be_written()
    ensures written { MovesMayBeWritten }
    ensures as_they_are { MovesAreWritten }
{}

/// They stand so too where what is left of the open elements takes all that it takes where they were read, and where
/// data stands elsewhere or not at all, as long as what is left takes all that it took, and doesn't take what it
/// didn't take.
pub fn moves_may_be_rewritten()
    ensures rewritten { MovesMayBeRewritten }
    ensures others { OthersAreSilentOrData }
{}

/// In mixed content that is a repeated OR group of #PCDATA and element types, and in element content, data may stand
/// or not, whatever comes after it. In other content it may decide what an element is that comes after it.
pub fn free_content()
    ensures free { FreeContent }
    ensures usual { UsualIsFree }
    ensures not_all { NotAllIsFree }
{}

/// So of a document type with such models alone, data may be left out, and be written wherever it is allowed: the
/// other pieces, each of them written, stand one after another, with no tag left out.
pub fn moves_may_be_freely_rewritten()
    ensures rewritten { MovesMayBeFreelyRewritten }
    ensures alike { AlikeTakeAlike }
{}

/// What reads stands so, and what stands alone reads where it is spelled and its attributes have values.
pub fn standing_is_reading()
    ensures reading { ReadingStands }
    ensures standing { StandingReads }
{}

/// Of this profile's forms each </> and each NET is of the type that it has where it is spelled.
pub fn spelled_ends_have_their_types()
    ensures { TypesItsEnds forms }
{}

/// So the pieces of what was read, each of them written, read, with no tag left out, in each document that spells
/// them; and so they do with data elsewhere or without it.
pub fn written_documents_read()
    ensures written { WrittenReads }
    ensures rewritten { RewrittenReads }
    ensures freely { FreelyRewrittenReads }
{}

/// These laws hold of something: of a document with a null end-tag, an empty end-tag and one that is left out, and the
/// same document with whole tags; and of a document in mixed content with its data elsewhere.
pub fn worked_documents_are_written()
    ensures tags { WorkedTags }
    ensures data { WorkedData }
{}
