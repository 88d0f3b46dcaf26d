// The mode in which content is scanned.
ghost use Rattle.std.specs.Prelude.{◌≡◌};
ghost use Rattle.sgml_content_steps.specs.Modes.{mode_of_kind, mode_by};

use sgml_delim::Mode;
use sgml_infer::ContentKind;
use sgml_marked::Status;

/// A section but an included one has a mode of its own (10.4).
pub(crate) fn mode_by(element: Mode, section: Option<Status>) -> Mode
    ensures { result ≡ mode_by element section }
{
    match section {
        Some(Status::Ignore) => Mode::Ign,
        Some(Status::Cdata) => Mode::Cds,
        Some(Status::Rcdata) => Mode::Rcs,
        Some(Status::Include) | None => element,
    }
}

/// The mode of the content of an element, by what may stand in it (9.6.1).
#[inline(always)]
pub(crate) fn mode_of_kind(kind: ContentKind) -> Mode
    ensures { result ≡ mode_of_kind kind }
{
    match kind {
        ContentKind::Cdata => Mode::Cdt,
        ContentKind::Rcdata => Mode::Rcd,
        ContentKind::Model => Mode::Con,
        ContentKind::Any => Mode::Con,
        ContentKind::Empty => Mode::Con,
    }
}
