// The starts of marked sections.
ghost use Rattle.std.specs.Prelude.{◌≡◌, ◌<◌, false, true, length, OnOk, OnErr};
ghost use Rattle.sgml_marked.specs.declared.status.Status.TheVariants.{Ignore};
ghost use Rattle.sgml_declared.specs.theory_standing.Prologs.{is_over};
ghost use Rattle.sgml_prolog_steps.specs.Standing.{IsKept};
ghost use Rattle.sgml_prolog_steps.specs.Found.{IsTokenThere, innermost};
ghost use Rattle.sgml_prolog_steps.specs.Sorts.{sort_in, is_ignored};
ghost use Rattle.sgml_prolog_steps.specs.Steps.{IsStepOf, with_section};
ghost use Rattle.sgml_prolog_steps.specs.declared.sort.Sort.TheVariants as sort;

use crate::ends::texts_on;
use crate::kept::Kept;
use crate::plain::read_over;
use crate::sort::is_ignored;
use crate::stepping::{Stop, Turn};
use sgml_entity::Texts;
use sgml_marked::Status;
use sgml_scan::Token;
use sgml_text::Memory;

/// Whether the innermost section that is open is ignored.
pub fn is_in_ignored(kept: &Kept) -> bool
    ensures { result ≡ is_ignored (innermost kept.now.sections) }
{
    is_ignored(kept.sections.innermost())
}

/// Begins a section of this status where so many texts are being read (10.4).
pub fn begin_section(kept: &mut Kept, status: Status, on: u32) -> Result<(), Memory>
    ensures ok { OnOk result (kept.new ≡ with_section status on kept.old) }
    ensures err { OnErr result (kept.new ≡ kept.old) }
{
    kept.sections.push(status, on)
}

/// The start of a section in an ignored one, which is ignored (10.4.2).
pub fn take_ignored_start(
    kept: &mut Kept,
    texts: &Texts,
    ended: bool,
    token: Token,
) -> Result<Turn, Stop>
    requires kept { IsKept kept.old }
    requires going_on { is_over kept.old ≡ false }
    requires there { IsTokenThere kept.old texts.now ended token }
    requires sort { sort_in kept.old token.kind ≡ sort.SectionStart }
    requires ignored { is_ignored (innermost kept.old.sections) ≡ true }
    ensures { IsStepOf texts.now ended kept.old kept.new result }
{
    let on = match texts_on(kept) {
        Ok(on) => on,
        Err(_) => return Err(Stop::Memory),
    };
    match begin_section(kept, Status::Ignore, on) {
        Ok(()) => {}
        Err(_) => return Err(Stop::Memory),
    }
    read_over(kept, texts, token.length);
    Ok(Turn::Silent)
}
