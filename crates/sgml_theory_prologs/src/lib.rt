//! That a prolog is decided by its own bytes: two documents that begin with those of a prolog have the same
//! prolog, whatever follows.
//!
//! Definitions and laws, without code.
#![tactic(auto)]

ghost use Rattle.sgml_theory_prologs.specs.Laws.{PrologsAreThere, PrologsEndWithinRecords, PrologsAreOne, ImpliedNames, PrologsAreDecided, SamePrologsAreRead, DecidedPrologsAreRead, NothingIsOpen, InstructionsAreTold};

/// Where the first border is reached the document alone is open: what was read of it is a prolog, and the rest
/// is unread. A prolog ends within a record. One reading alone comes to it.
pub fn prologs_are_there()
    ensures there { PrologsAreThere }
    ensures within { PrologsEndWithinRecords }
    ensures one { PrologsAreOne }
{}

/// Each piece of a prolog is decided by the bytes of the prolog, so that the prolog reads also in the document
/// that is cut behind it, and in each that begins so.
pub fn prologs_are_decided()
    ensures decided { PrologsAreDecided }
    ensures implied { ImpliedNames }
{}

/// Two documents under the same outside that begin with the bytes of a prolog have the same prolog, and the
/// same state at its end, where SGML characters alone follow it in the second one; and where the prolog is
/// decided, whatever follows it.
pub fn same_prologs_are_read()
    ensures characters { SamePrologsAreRead }
    ensures anything { DecidedPrologsAreRead }
{}

/// At the first border no element, no marked section and no text but the document is open, no map is set, no
/// record end waits and NET isn't enabled; nothing is told of what was read up to there but its instructions.
pub fn nothing_is_open()
    ensures nothing { NothingIsOpen }
    ensures told { InstructionsAreTold }
{}
