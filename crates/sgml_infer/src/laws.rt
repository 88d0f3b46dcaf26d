// What holds of each accepted piece.
ghost use Rattle.sgml_infer.specs.Laws.{AcceptedIsJudged, EnabledIsJudged, OthersAreJudged, PlainAtOnce};

/// A law: the accepted piece is the one that is judged where it stands. Of a start this holds once
/// it has NET enabled and is ended as it is written.
pub fn accepted_is_judged()
    ensures start { AcceptedIsJudged }
    ensures changed { EnabledIsJudged }
    ensures others { OthersAreJudged }
    ensures at_once { PlainAtOnce }
{}
