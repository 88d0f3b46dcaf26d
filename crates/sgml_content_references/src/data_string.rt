// Short reference strings that stand for data entities.
ghost use Rattle.std.specs.Prelude.{◌<◌, ◌≤◌, length};
ghost use Rattle.sgml_theory_reading.specs.Pieces.{ToData, ToExternalData};
ghost use Rattle.sgml_prolog_steps.specs.Found.{rest_in};
ghost use Rattle.sgml_content_steps.specs.Content.{IsContent};
ghost use Rattle.sgml_content_steps.specs.Steps.{Tells};
ghost use Rattle.sgml_content_references.specs.Strings.{StandsFor};

use crate::event::Entity;
use crate::taking::take_entity;
use sgml_content_steps::Content;
use sgml_entity::Texts;
use sgml_events::Event;
use sgml_prolog_steps::Stop;
use sgml_scan::Token;
use std::alloc::Global;

/// A short reference string that stands for the internal data entity of this number (9.4.6, 10.5).
pub fn take_data_string(
    alloc: Global,
    content: &mut Content,
    texts: &Texts,
    token: Token,
    number: u32,
    told: &mut Vec<Event>,
) -> Result<(), Stop>
    requires content { IsContent content.old }
    requires some { 0 < token.length }
    requires within { token.length ≤ length (rest_in content.old.kept texts.now) }
    requires stands { StandsFor texts.now token content.old (λ s own. ToData number) }
    ensures { Tells texts.now token content.old content.new told.old.items told.new.items result }
{
    take_entity(
        alloc,
        content,
        texts,
        token.length,
        Entity::Internal(number),
        told,
    )
}

/// A short reference string that stands for the external data entity of this number (9.4.6, 10.5.5).
pub fn take_external_string(
    alloc: Global,
    content: &mut Content,
    texts: &Texts,
    token: Token,
    number: u32,
    told: &mut Vec<Event>,
) -> Result<(), Stop>
    requires content { IsContent content.old }
    requires some { 0 < token.length }
    requires within { token.length ≤ length (rest_in content.old.kept texts.now) }
    requires stands { StandsFor texts.now token content.old (λ s own. ToExternalData number) }
    ensures { Tells texts.now token content.old content.new told.old.items told.new.items result }
{
    take_entity(
        alloc,
        content,
        texts,
        token.length,
        Entity::External(number),
        told,
    )
}
