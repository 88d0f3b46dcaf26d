// How far a document has come in its prolog.
ghost use Rattle.std.specs.Prelude.{◌≡◌};
ghost use Rattle.sgml_declared.specs.theory_reading.Facets.{stage_begun};
ghost use Rattle.sgml_declared.specs.theory_spelling.Decided.{is_before, is_early_end};
ghost use Rattle.sgml_prolog_steps.specs.Standing.{stage_of};

/// How far a document has come in its prolog (7.1, 11.1).
#[derive(Clone, Copy, Debug, PartialEq, Eq)]
pub enum Stage {
    /// Nothing but separators was read: an SGML declaration may stand here.
    AtBeginning,
    /// No document type declaration has begun.
    BeforeDoctype,
    /// In the internal subset.
    InSubset,
    /// The document type declaration was read; the external subset may be open still.
    AfterSubset,
}

/// The stage after something else than separators.
pub fn begun(stage: Stage) -> Stage
    ensures { stage_of result ≡ stage_begun (stage_of stage) }
{
    match stage {
        Stage::AtBeginning => Stage::BeforeDoctype,
        Stage::BeforeDoctype => Stage::BeforeDoctype,
        Stage::InSubset => Stage::InSubset,
        Stage::AfterSubset => Stage::AfterSubset,
    }
}

/// Whether the document type declaration is still to come.
pub fn is_before(stage: Stage) -> bool
    ensures { result ≡ is_before (stage_of stage) }
{
    match stage {
        Stage::AtBeginning | Stage::BeforeDoctype => true,
        Stage::InSubset | Stage::AfterSubset => false,
    }
}

/// Before the document type a `]` is refused at once.
pub(crate) fn is_early_end(stage: Stage, b: u8) -> bool
    ensures { result ≡ is_early_end (stage_of stage) b }
{
    is_before(stage) && b == b']'
}
