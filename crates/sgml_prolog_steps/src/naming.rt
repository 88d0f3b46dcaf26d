// The entity that a reference names.
ghost use Rattle.std.specs.Prelude.{◌≡◌, ◌<◌, ◌≤◌, length, drop, IfOk};
ghost use Rattle.sgml_markup.specs.References.{run_of};
ghost use Rattle.sgml_text.specs.NameCharacters.{is_name_character};
ghost use Rattle.sgml_prolog_steps.specs.Found.{rest_in};
ghost use Rattle.sgml_prolog_steps.specs.References.{entity_begun, entity_referred};

use crate::kept::Kept;
use sgml_decl_lexemes::unread;
use sgml_declared::dtd::Dtd;
use sgml_entity::{Space, Texts};
use sgml_names::entity_name;
use sgml_text::{Memory, NameSet};
use std::alloc::Global;

/// The number of the entity that the reference of so many bytes at the top of the stack names (9.4.4).
pub fn referred(
    alloc: Global,
    kept: &Kept,
    texts: &Texts,
    space: Space,
    n: u64,
) -> Result<Option<u32>, Memory>
    requires stacked { 0 < length kept.now.stack.places }
    requires within { n ≤ length (rest_in kept.now texts.now) }
    ensures { IfOk result (λ number. number ≡ entity_referred space kept.now texts.now n) }
{
    let rest = unread(kept.dtd.entities(), texts, &kept.stack);
    entity_begun(alloc, &kept.dtd, space, after_first(&rest[..n as usize]))
}

fn after_first(own: &[u8]) -> &[u8]
    ensures { result.now ≡ drop 1 own.now }
{
    match own {
        [] => &[],
        [_, rest @ ..] => rest,
    }
}

// The number of the entity whose name these bytes begin with.
fn entity_begun(alloc: Global, dtd: &Dtd, space: Space, bytes: &[u8]) -> Result<Option<u32>, Memory>
    ensures { IfOk result (λ number. number ≡ entity_begun space dtd.now bytes.now) }
{
    let own = name_of(dtd, bytes);
    match own {
        [] => Ok(dtd.entities().find(space, own)),
        [_, ..] => {
            let name = entity_name(alloc, dtd.syntax(), own)?;
            Ok(dtd.entities().lookup(space, &name))
        }
    }
}

fn name_of<'a>(dtd: &Dtd, bytes: &'a [u8]) -> &'a [u8]
    ensures { result.now ≡ run_of (is_name_character dtd.now.syntax.names) bytes.now }
{
    &bytes[..dtd.syntax().names.name_length(bytes)]
}
