// The first text that wasn't supplied.
ghost use Rattle.std.specs.Prelude.{◌≡◌, ◌<◌, ◌≤◌, IfOk, IsSome, is_some};
ghost use Rattle.sgml_entity.specs.Texts.{text_of};
ghost use Rattle.sgml_parse.specs.Missing.{is_unsupplied};
ghost use Rattle.sgml_parse.specs.Wanting.{IsFirstUnsuppliedIn, IsUnsuppliedFile};

use crate::answer::Wanted;
use crate::missing::Missing;
use sgml_declared::Options;
use sgml_entity::Texts;
use sgml_prolog_steps::Kept;
use sgml_text::{Memory, Text};
use std::alloc::Global;

/// The first declared entity from this number on whose text is in a file of its own, wasn't supplied and isn't being read.
pub(crate) fn first_unsupplied(
    alloc: Global,
    options: &Options,
    kept: &Kept,
    texts: &Texts,
    missing: &Missing,
    from: u32,
) -> Result<Option<Wanted>, Memory>
    requires named { IsSome kept.now.subset → IsSome kept.now.doctype.name }
    ensures { IfOk result (IsFirstUnsuppliedIn options.now kept.now texts.now missing.now from) }
{
    let end = kept.dtd.entities().count() + 2;
    let mut number = from.max(2);
    'entities: while number < end {
        if let Some(name) = unsupplied_file(alloc, options, kept, texts, missing, number)? {
            return Ok(Some(Wanted {
                entity: number,
                name,
            }));
        }
        number += 1;
    }
    Ok(None)
}

/// The name of its file, where it has one.
fn unsupplied_file(
    alloc: Global,
    options: &Options,
    kept: &Kept,
    texts: &Texts,
    missing: &Missing,
    number: u32,
) -> Result<Option<Text>, Memory>
    requires named { IsSome kept.now.subset → IsSome kept.now.doctype.name }
    requires declared { 1 < number }
    ensures { IfOk result (IsUnsuppliedFile options.now kept.now texts.now missing.now number) }
{
    if !is_unsupplied(kept, texts, missing, number) {
        return Ok(None);
    }
    options.file_of(alloc, &kept.dtd, &kept.subset, number)
}

/// Whether nothing was supplied for this entity, which isn't being read.
fn is_unsupplied(kept: &Kept, texts: &Texts, missing: &Missing, number: u32) -> bool
    ensures { result ≡ is_unsupplied kept.now texts.now missing.now number }
{
    !kept.stack.is_on(number) && !is_given(texts, number) && missing.why(number).is_none()
}

fn is_given(texts: &Texts, number: u32) -> bool
    ensures { result ≡ is_some (text_of texts.now number) }
{
    match texts.get(number) {
        Some(_) => true,
        None => false,
    }
}
