// Laws of the definitions.
ghost use Rattle.sgml_decl_lexemes.specs.Declares.{OneAnswer, DecidedStays, LeftCounts, PlainLiterals, UnreadCounts};
ghost use Rattle.sgml_decl_lexemes.specs.Reads.{AnswerIs, ReadIs, TurnsAreEnough};
ghost use Rattle.sgml_decl_lexemes.specs.Alike.{AlikeIsRead, AlikeIsRefused, AlikeIsWanted, AlikeAreAsMany, AlikeAreUnread};
ghost use Rattle.sgml_decl_lexemes.specs.Wholeness.{AlikeIsWhole};
ghost use Rattle.sgml_decl_lexemes.specs.Starts.{PlainStarts};
ghost use Rattle.sgml_decl_lexemes.specs.Standing.{AskedStandsAtStart, ReadStandsOnTop, ReadEndsWithText, AnsweredStandsAfter, ThatOneIsGone, OthersAreLeft};

/// What is read has one answer: one list of lexemes and one place after it, or one refusal, want or
/// need.
pub fn one_answer()
    ensures { OneAnswer }
{}

/// Where the end of what is read is there, its answer is the same whatever follows in its text.
pub fn decided_stays()
    ensures { DecidedStays }
{}

/// The answer depends on what is unread of the texts, and not on where in them reading stands.
pub fn unread_counts()
    ensures { UnreadCounts }
{}

/// The answer as a function.
pub fn answer_is()
    ensures { AnswerIs }
{}

/// A literal of a tag without references is its characters.
pub fn plain_literals()
    ensures { PlainLiterals }
{}

/// A section start with one word of letters between separators is that word and DSO.
pub fn plain_starts()
    ensures { PlainStarts }
{}

/// What is read from a source depends on what is left of its own text.
pub fn left_counts()
    ensures { LeftCounts }
{}

/// What is read from a source, as a function.
pub fn read_is()
    ensures { ReadIs }
{}

/// What is read depends on what is unread of the texts that are open, and not on offsets or on texts
/// that aren't opened: where the same is unread, and there are the same texts or more, the same is
/// read, or refused, with its end reached or not, or wanted where the second hasn't it either.
pub fn alike_is_read()
    ensures read { AlikeIsRead }
    ensures refused { AlikeIsRefused }
    ensures whole { AlikeIsWhole }
    ensures wanted { AlikeIsWanted }
{}

/// More turns than parts are left change nothing.
pub fn turns_are_enough()
    ensures { TurnsAreEnough }
{}

/// Stacks that are alike have as many texts, and the same is unread at their tops.
pub fn alike_stacks_are_alike()
    ensures many { AlikeAreAsMany }
    ensures unread { AlikeAreUnread }
{}

/// What is asked, with its own text all there, is read from where it begins.
pub fn asked_stands_at_start()
    ensures { AskedStandsAtStart }
{}

/// What is read stands on the stack on which reading began, and never opens or ends a text below it.
pub fn read_stands_on_top()
    ensures { ReadStandsOnTop }
{}

/// After what was read the stack stands at the end of its own text, directly after what was asked.
pub fn read_ends_with_text()
    ensures source { ReadEndsWithText }
    ensures asked { AnsweredStandsAfter }
{}

/// Without the text of one entity those of all others are left.
pub fn others_are_left()
    ensures gone { ThatOneIsGone }
    ensures left { OthersAreLeft }
{}
