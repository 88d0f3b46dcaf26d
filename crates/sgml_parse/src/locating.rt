// Looking up where a place is.
ghost use Rattle.std.specs.Prelude.{◌≡◌, IfOk, IfSome, IsSome, Some, option_map};
ghost use Rattle.sgml_declared.specs.theory_reading.Unread.{file_of};
ghost use Rattle.sgml_parse.specs.Locating.{IsFoundIn, mark_of, own_name, IsNameTold};

use crate::position::Position;
use sgml_decl_lexemes::text_at;
use sgml_declared::Options;
use sgml_entity::{Entity, Space, Texts};
use sgml_prolog_steps::Kept;
use sgml_text::{Memory, Place, Text, line_column};
use std::alloc::Global;

/// Where a place is, by what is kept and the texts that were given. `None`: its text wasn't given up to there.
pub(crate) fn locate(
    alloc: Global,
    options: &Options,
    kept: &Kept,
    texts: &Texts,
    place: Place,
) -> Result<Option<Position>, Memory>
    requires named { IsSome kept.now.subset → IsSome kept.now.doctype.name }
    ensures { IfOk result (λ found. IfSome found (IsFoundIn options.now kept.now texts.now place)) }
{
    let Some(text) = text_at(kept.dtd.entities(), texts, place.entity) else {
        return Ok(None);
    };
    if place.at > text.len() as u64 {
        return Ok(None);
    }
    let Some(name) = name_of(alloc, options, kept, place.entity)? else {
        return Ok(None);
    };
    let (line, column) = line_column(text, place.at);
    Ok(Some(Position { name, line, column }))
}

/// The name of an entity's text.
fn name_of(
    alloc: Global,
    options: &Options,
    kept: &Kept,
    entity: u32,
) -> Result<Option<Text>, Memory>
    requires named { IsSome kept.now.subset → IsSome kept.now.doctype.name }
    ensures { IfOk result (IsNameTold options.now kept.now entity) }
{
    match options.file_of(alloc, &kept.dtd, &kept.subset, entity)? {
        Some(name) => Ok(Some(name)),
        None => own_name_of(alloc, kept.dtd.entities().get(entity)),
    }
}

fn own_name_of(alloc: Global, entity: Option<&Entity>) -> Result<Option<Text>, Memory>
    ensures { IfOk result (λ name. name ≡ option_map own_name (option_map (λ e. e.now) entity.entry)) }
{
    match entity {
        Some(entity) => Ok(Some(own_name(alloc, entity)?)),
        None => Ok(None),
    }
}

/// The name of an internal entity, with its mark.
fn own_name(alloc: Global, entity: &Entity) -> Result<Text, Memory>
    ensures { IfOk result (λ name. name ≡ own_name entity.now) }
{
    let mut name = Vec::with_capacity(alloc, entity.name.items().len().saturating_add(1))?;
    name.push(mark_of(entity.space))?;
    name.extend_from_slice(entity.name.items())?;
    Ok(Text::of(name))
}

fn mark_of(space: Space) -> u8
    ensures { result ≡ mark_of space }
{
    match space {
        Space::General => b'&',
        Space::Parameter => b'%',
    }
}
