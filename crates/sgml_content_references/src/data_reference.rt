// References to data entities.
ghost use Rattle.std.specs.Prelude.{◌<◌, ◌≤◌, length};
ghost use Rattle.sgml_prolog_steps.specs.Found.{rest_in};
ghost use Rattle.sgml_content_steps.specs.Content.{IsContent};
ghost use Rattle.sgml_content_references.specs.Entities.{TellsData, TellsExternal};

use crate::event::Entity;
use crate::taking::take_entity;
use sgml_content_steps::Content;
use sgml_entity::Texts;
use sgml_events::Event;
use sgml_prolog_steps::Stop;
use sgml_scan::Token;
use std::alloc::Global;

/// A reference to the internal data entity of this number (10.5), where that is what stands next.
pub fn take_data(
    alloc: Global,
    content: &mut Content,
    texts: &Texts,
    token: Token,
    number: u32,
    told: &mut Vec<Event>,
) -> Result<(), Stop>
    requires content { IsContent content.old }
    requires some { 0 < token.length }
    requires within { token.length ≤ length (rest_in content.old.kept texts.now) }
    ensures { TellsData texts.now token number content.old content.new told.old.items told.new.items result }
{
    take_entity(
        alloc,
        content,
        texts,
        token.length,
        Entity::Internal(number),
        told,
    )
}

/// A reference to the external data entity of this number (10.5.5), where that is what stands next.
pub fn take_external(
    alloc: Global,
    content: &mut Content,
    texts: &Texts,
    token: Token,
    number: u32,
    told: &mut Vec<Event>,
) -> Result<(), Stop>
    requires content { IsContent content.old }
    requires some { 0 < token.length }
    requires within { token.length ≤ length (rest_in content.old.kept texts.now) }
    ensures { TellsExternal texts.now token number content.old content.new told.old.items told.new.items result }
{
    take_entity(
        alloc,
        content,
        texts,
        token.length,
        Entity::External(number),
        told,
    )
}
