// What a judged piece comes to.
ghost use Rattle.sgml_content_steps.specs.Judged.{JudgedMayStand};

/// A law: a piece that was judged with a run is a move of the run and itself, where it has values; where it has
/// none, it isn't for that reason.
pub fn judged_may_stand()
    ensures { JudgedMayStand }
{}
