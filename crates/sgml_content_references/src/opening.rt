// Opening the text of an entity after a reference to it.
ghost use Rattle.std.specs.Prelude.{◌≡◌, ◌<◌, ◌≤◌, length, IfErr, OnOk, OnErr, IsSome};
ghost use Rattle.sgml_prolog_steps.specs.Found.{rest_in};
ghost use Rattle.sgml_content_references.specs.Referring.{IsTextOpened, IsTextShut, stop_for};

use sgml_declared::{OpenError, Options};
use sgml_entity::Texts;
use sgml_prolog_steps::{Kept, Stop, go_back, open_after};
use std::alloc::Global;

/// Reads over a reference of so many bytes, and opens the text of its entity. Where it isn't opened nothing is
/// read over.
pub(crate) fn open_text(
    options: &Options,
    alloc: Global,
    kept: &mut Kept,
    texts: &Texts,
    n: u64,
    number: u32,
) -> Result<(), Stop>
    requires stacked { 0 < length kept.old.stack.places }
    requires named { IsSome kept.old.subset → IsSome kept.old.doctype.name }
    requires within { n ≤ length (rest_in kept.old texts.now) }
    ensures ok { OnOk result (IsTextOpened options.now texts.now n number kept.old kept.new) }
    ensures err { IfErr result (IsTextShut options.now texts.now n number kept.old) }
    ensures left { OnErr result (kept.new ≡ kept.old) }
{
    let mark = kept.stack.mark();
    match open_after(options, alloc, kept, texts, n, number) {
        Ok(()) => Ok(()),
        Err(error) => {
            go_back(kept, mark);
            Err(stop_for(number, error))
        }
    }
}

fn stop_for(number: u32, error: OpenError) -> Stop
    ensures { result ≡ stop_for number error }
{
    match error {
        OpenError::Refused(reason) => Stop::Refused(reason),
        OpenError::Wanted(file) => Stop::Wanted {
            entity: number,
            file,
        },
        OpenError::Memory => Stop::Memory,
    }
}
