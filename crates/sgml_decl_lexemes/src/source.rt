// What a declaration is read with, or another construct.
ghost use Rattle.std.specs.Prelude.{◌≡◌, ◌<◌, ◌≤◌, ◌+◌, ◌-◌, ◌^◌, length, map, IfOk, if◌then◌else◌};
ghost use Rattle.std.specs.Option.{option_map};
ghost use Rattle.sgml_text.specs.Characters.{upper};
ghost use Rattle.sgml_entity.specs.Entities.{entity_at, number_of};
ghost use Rattle.sgml_entity.specs.Stack.{refusal};
ghost use Rattle.sgml_entity.specs.Texts.{text_of};
ghost use Rattle.sgml_decl_lexemes.specs.Readings.{StandsWithin};
ghost use Rattle.sgml_decl_lexemes.specs.Sources.{top_text, unread, or_given, or_empty, text_at, folded, reason_of, opened_by, opening, given_or_wanted, reach_external, data_for, reach_body, reach_entity, reach_number, reached, cdata_of, cdata_text};

use crate::fault::{Fault, Reached};
use crate::top::{after, internal_text};
use sgml_decl_parts::Construct;
use sgml_entity::{Body, Entities, Entity, InputStack, Space, StackRefused, Texts};
use sgml_syntax::Syntax;
use sgml_text::{Memory, Reason, all_sgml, upper_case};
use std::alloc::Global;
use std::marker::Model;

/// What is read, and with what.
#[derive(Drop)]
pub(crate) struct Given<'a> {
    pub(crate) construct: Construct,
    pub(crate) syntax: &'a Syntax,
    pub(crate) entities: &'a Entities,
    pub(crate) texts: &'a Texts,
    /// The text in which it stands, up to its end.
    pub(crate) own: &'a [u8],
    /// The entity in which it stands.
    pub(crate) entity: u32,
    /// How many texts are on the stack there.
    pub(crate) height: usize,
}

impl<'a> Model for Given<'a> {
    ghost use Rattle.sgml_decl_lexemes.specs.Sources.{Source, without};

    ghost Value = { Source };

    ghost view = { λ a. record { construct = a.construct; syntax = a.syntax.now; entities = a.entities.now.entities; texts = without a.entity a.texts.now; own = a.own.now; height = a.height } };
}

impl<'a> Given<'a> {
    // The text of an external entity, if it was given.
    fn given_text(&self, entity: u32) -> Option<&'a [u8]>
        ensures { option_map (λ t. t.now) result ≡ text_of self.now.texts entity }
    {
        if entity == self.entity {
            return None;
        }
        self.texts.get(entity)
    }

    #[inline(never)]
    fn text(&self, entity: u32) -> &'a [u8]
        ensures { result.now ≡ or_empty (text_at self.now.entities self.now.texts entity) }
    {
        match internal_text(self.entities, entity) {
            Some(text) => text,
            None => match self.given_text(entity) {
                Some(text) => text,
                None => &[],
            },
        }
    }

    #[inline(always)]
    fn top_text(&self, height: usize, entity: u32) -> &'a [u8]
        ensures { result.now ≡ top_text self.now height entity }
    {
        if height == self.height {
            self.own
        } else {
            self.text(entity)
        }
    }

    /// What isn't read of the text at the top of the stack.
    #[inline(always)]
    pub(crate) fn unread(&self, stack: &InputStack) -> &'a [u8]
        ensures value { result.now ≡ unread self.now stack.now.places }
        ensures room { 0 < length stack.now.places → StandsWithin stack.now.places result.now }
    {
        match stack.top() {
            None => &[],
            Some(place) => { after(self.top_text(stack.height(), place.entity), place.at) }
        }
    }

    /// The text of a CDATA entity.
    pub(crate) fn cdata_text(&self, entity: u32) -> &'a [u8]
        ensures { result.now ≡ cdata_text (entity_at self.now.entities entity) }
    {
        match self.entities.get(entity) {
            Some(e) => cdata_of(&e.body),
            None => &[],
        }
    }

    fn reach_external(&self, stack: &InputStack, entity: u32) -> Reached
        ensures { result ≡ reach_external self.now stack.now entity }
    {
        if stack.is_on(entity) {
            return Reached::Fails(Fault::Refusing(Reason::Recursive));
        }
        match self.given_text(entity) {
            None => Reached::Fails(Fault::Wanting(entity)),
            Some(text) => opening(stack, entity, text),
        }
    }

    fn reach_body(&self, stack: &InputStack, space: Space, entity: u32, body: &Body) -> Reached
        ensures { result ≡ reach_body self.now stack.now space entity body.now }
    {
        match body {
            Body::Sgml(text) => opening(stack, entity, text.items()),
            Body::External(_) => self.reach_external(stack, entity),
            Body::Cdata(_) => data_for(space, Reached::PutsText(entity)),
            Body::Sdata(_) => data_for(space, Reached::PutsData(entity)),
            _ => Reached::Fails(Fault::Refusing(Reason::EntityKind)),
        }
    }

    fn reach_number(&self, stack: &InputStack, space: Space, number: Option<u32>) -> Reached
        ensures { result ≡ reach_number self.now stack.now space number }
    {
        match number {
            None => Reached::Fails(Fault::Refusing(Reason::Undeclared)),
            Some(number) => match self.entities.get(number) {
                None => Reached::Fails(Fault::Refusing(Reason::Undeclared)),
                Some(entity) => self.reach_body(stack, space, number, &entity.body),
            },
        }
    }

    fn number(&self, alloc: Global, space: Space, name: &[u8]) -> Result<Option<u32>, Memory>
        ensures { IfOk result (λ n. n ≡ number_of self.now.entities space (folded self.now.syntax.entity_fold name.now)) }
    {
        if self.syntax.entity_fold {
            let name = upper_case(alloc, name)?;
            Ok(self.entities.find(space, &name))
        } else {
            Ok(self.entities.find(space, name))
        }
    }

    /// What a reference to a name reaches.
    pub(crate) fn reached(
        &self,
        alloc: Global,
        stack: &InputStack,
        space: Space,
        name: &[u8],
    ) -> Result<Reached, Memory>
        ensures { IfOk result (λ r. r ≡ reached self.now stack.now space name.now) }
    {
        let longest = self.syntax.quantities.namelen as usize;
        if name.len() > longest {
            return Ok(Reached::Fails(Fault::Refusing(Reason::NameLength)));
        }
        let number = self.number(alloc, space, name)?;
        Ok(self.reach_number(stack, space, number))
    }
}

fn cdata_of(body: &Body) -> &[u8]
    ensures { result.now ≡ cdata_of body.now }
{
    match body {
        Body::Cdata(text) => text.items(),
        _ => &[],
    }
}

fn reason_of(refused: StackRefused) -> Reason
    ensures { result ≡ reason_of refused }
{
    match refused {
        StackRefused::Recursive => Reason::Recursive,
        StackRefused::EntityLevel => Reason::EntityLevel,
        StackRefused::Expansion => Reason::Expansion,
    }
}

fn opening(stack: &InputStack, entity: u32, text: &[u8]) -> Reached
    ensures { result ≡ opening stack.now entity text.now }
{
    match stack.refusal(entity, text.len() as u64) {
        Some(refused) => Reached::Fails(Fault::Refusing(reason_of(refused))),
        None => {
            if all_sgml(text) {
                Reached::Opens(entity, text.len() as u64)
            } else {
                Reached::Fails(Fault::Refusing(Reason::NonSgml))
            }
        }
    }
}

fn data_for(space: Space, reached: Reached) -> Reached
    ensures { result ≡ data_for space reached }
{
    match space {
        Space::General => reached,
        Space::Parameter => Reached::Fails(Fault::Refusing(Reason::EntityKind)),
    }
}
