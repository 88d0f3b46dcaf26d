// Texts that a parser is given.
ghost use Rattle.std.specs.Prelude.{◌≡◌, OnOk, OnErr, IfOk, if◌then◌else◌};
ghost use Rattle.std.specs.Option.{option_or};
ghost use Rattle.sgml_parse.specs.Missing.{with_missing};
ghost use Rattle.sgml_parse.specs.Calls.{Appends, texts_with, why_gone, is_of};

use crate::answer::{Supply, Wanted};
use crate::missing::Missing;
use sgml_entity::Texts;
use sgml_io::{RecordReader, to_records};
use sgml_text::{Memory, Reason};
use std::alloc::Global;

/// Appends the text that these storage bytes make to the document's.
pub(crate) fn append_document(
    alloc: Global,
    records: &mut RecordReader,
    texts: &mut Texts,
    bytes: &[u8],
) -> Result<(), Memory>
    ensures ok { OnOk result (Appends records.old records.new texts.old texts.new bytes.now) }
    ensures records { OnErr result (records.new ≡ records.old) }
    ensures texts { OnErr result (texts.new ≡ texts.old) }
{
    let mut after = *records;
    let mut made = Vec::with_capacity(alloc, bytes.len())?;
    after.push(bytes, &mut made)?;
    texts.append(0, &made)?;
    *records = after;
    Ok(())
}

/// Appends the text of an entity, or notes and answers why it isn't there.
pub(crate) fn supply_text(
    alloc: Global,
    texts: &mut Texts,
    missing: &mut Missing,
    entity: u32,
    given: Supply,
) -> Result<Option<Reason>, Memory>
    ensures texts { OnOk result (texts.new ≡ texts_with entity given texts.old) }
    ensures missing { OnOk result (missing.new ≡ with_missing entity (why_gone given) missing.old) }
    ensures gone { IfOk result (λ gone. gone ≡ why_gone given) }
    ensures err { OnErr result (texts.new ≡ texts.old) }
    ensures same { OnErr result (missing.new ≡ missing.old) }
{
    match given {
        Supply::Text(bytes) => {
            let text = to_records(alloc, bytes.items())?;
            texts.append(entity, &text)?;
            Ok(None)
        }
        Supply::Absent => {
            missing.note(entity, Reason::Absent)?;
            Ok(Some(Reason::Absent))
        }
        Supply::TooLarge => {
            missing.note(entity, Reason::EntityTooLarge)?;
            Ok(Some(Reason::EntityTooLarge))
        }
    }
}

/// Why the text that was wanted last isn't there, once this entity's was supplied.
pub(crate) fn gone_after(
    entity: u32,
    why: Option<Reason>,
    wanted: &Option<Wanted>,
    gone: Option<Reason>,
) -> Option<Reason>
    ensures { result ≡ (if is_of entity wanted.now then option_or why gone else gone) }
{
    if !is_of(entity, wanted) {
        return gone;
    }
    match why {
        Some(reason) => Some(reason),
        None => gone,
    }
}

/// Whether this entity's text was wanted last.
fn is_of(entity: u32, wanted: &Option<Wanted>) -> bool
    ensures { result ≡ is_of entity wanted.now }
{
    match wanted {
        Some(wanted) => wanted.entity == entity,
        None => false,
    }
}
