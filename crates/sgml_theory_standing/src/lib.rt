//! What a reader keeps of what was read, and that it goes on to stand for that: the document type, the
//! stack of texts, the sections, the stage of the prolog; in content beside them the open elements,
//! record ends, maps and current values.
//!
//! Definitions and laws, without code. The readers of the prolog and of content stand on it: each shows
//! that a piece is spelled next in the texts that it was given, and which tags are left out before it; the
//! laws say that these read, or that reading stops.
#![tactic(auto)]

ghost use Rattle.sgml_theory_standing.specs.Laws.{ReadingBegins, GivenIsUnread, StopsAtTop, SpelledStandsNext, StateInProlog, PrologReads, StandsOn, NextAreRead, NextFalls, RefusedStops, TextsAreGained};
ghost use Rattle.sgml_theory_standing.specs.ContentLaws.{ContentBegins, SpelledIsNext, MoveReads, MoveParses, UnspelledStops, RefusedStops as RefusedInContent, AloneMoves, AloneKeeps, NextMovesAreRead, EndIsRead, RefusedNextStops};

/// Before the first byte what is kept stands for the syntax of a document without an SGML declaration.
pub fn reading_begins()
    ensures { ReadingBegins }
{}

/// What is unread of an input is what is unread of the texts that a reader was given of it, and reading
/// stands at the top of its stack.
pub fn given_is_unread()
    ensures texts { GivenIsUnread }
    ensures place { StopsAtTop }
{}

/// What is spelled in the texts that were given, where they decide it, stands next in the input.
pub fn spelled_stands_next()
    ensures { SpelledStandsNext }
{}

/// In the prolog the state is that of what is kept; what stands next there reads, and what is kept after
/// it stands for what was read then.
pub fn prolog_is_read()
    ensures state { StateInProlog }
    ensures reads { PrologReads }
    ensures stands { StandsOn }
    ensures next { NextAreRead }
    ensures falls { NextFalls }
    ensures refused { RefusedStops }
{}

/// More of the document, and texts of entities that aren't being read, leave what is kept as good as it
/// was.
pub fn texts_are_gained()
    ensures { TextsAreGained }
{}

/// Where the prolog has been read, what was kept of it is what a parser keeps before the instance.
pub fn content_begins()
    ensures { ContentBegins }
{}

/// What is spelled in the texts that were given stands next in the input. It reads with the tags that are
/// left out before it, and what is kept after them stands for what was read.
pub fn content_is_read()
    ensures next { SpelledIsNext }
    ensures reads { MoveReads }
    ensures parses { MoveParses }
{}

/// Where none is spelled, or a reason holds against it, reading stops for that reason.
pub fn content_stops()
    ensures unspelled { UnspelledStops }
    ensures refused { RefusedInContent }
{}

/// A piece that is no content and no tag has no tags left out before it, and no reason holds against it.
/// Moves that stand next by what is kept alone read, one after another, and what they tell is told from the
/// state before them; so does the end of the document; and where none stands next, reading stops.
pub fn moves_are_read()
    ensures alone { AloneMoves }
    ensures keeps { AloneKeeps }
    ensures read { NextMovesAreRead }
    ensures ends { EndIsRead }
    ensures stops { RefusedNextStops }
{}
