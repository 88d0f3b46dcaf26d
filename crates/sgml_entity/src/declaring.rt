// The entities and the notations that were declared.
ghost use Rattle.std.specs.Prelude.{◌≡◌, ◌+◌, ◌-◌, ◌<◌, ◌≤◌, ◌∷◌, ◌++◌, [], length, is_none, IfOk, OnErr, if◌then◌else◌, slice_get, Some};
ghost use Rattle.std.specs.Option.{option_map, option_copied};
ghost use Rattle.sgml_names.specs.Index.{table_limit};
ghost use Rattle.sgml_entity.specs.Entities.{number_of, entity_at, notation_of, with_notation, external_of};

use crate::kinds::{Entity, External, Notation, Space};
use sgml_names::NameIndex;
use sgml_text::{Memory, Name};
use std::alloc::Global;
use std::marker::Model;

/// The entities, numbered from 2, and the notations, in order of first declaration.
#[derive(Drop)]
pub struct Entities {
    entities: Vec<Entity>,
    general: NameIndex,
    parameter: NameIndex,
    notations: Vec<Notation>,
    of_notations: NameIndex,
}

impl Model for Entities {
    ghost use Rattle.sgml_entity.specs.Entities.{Tables};
    ghost use Rattle.sgml_entity.specs.Numbered.{AreNumbered};

    ghost Value = { Tables };

    ghost view = { λ a. record { entities = a.entities.items; notations = a.notations.items } };

    ghost invariant = { λ a. AreNumbered a.entities.items a.notations.items a.general a.parameter a.of_notations };
}

impl Entities {
    pub fn new(alloc: Global) -> Self
        ensures entities { result.entities ≡ [] }
        ensures notations { result.notations ≡ [] }
    {
        Entities {
            entities: Vec::new(alloc),
            general: NameIndex::new(alloc),
            parameter: NameIndex::new(alloc),
            notations: Vec::new(alloc),
            of_notations: NameIndex::new(alloc),
        }
    }

    /// Declares an entity. An earlier declaration of its name in its space holds.
    pub fn declare(&mut self, entity: Entity) -> Result<bool, Memory>
        requires { length self.old.entities + 1 < table_limit }
        ensures new { IfOk result (λ new. new ≡ is_none (number_of self.old.entities entity.space entity.name)) }
        ensures ok { IfOk result (λ new. self.new.entities ≡ (if new then self.old.entities ++ entity ∷ [] else self.old.entities)) }
        ensures err { OnErr result (self.new.entities ≡ self.old.entities) }
        ensures notations { self.new.notations ≡ self.old.notations }
    {
        if self.lookup(entity.space, &entity.name).is_some() {
            return Ok(false);
        }
        let number = self.entities.len() as u32 + 2;
        self.entities.reserve(1)?;
        match entity.space {
            Space::General => {
                self.general.add(entity.name.items(), number)?;
                self.entities.push_reserved(entity);
                Ok(true)
            }
            Space::Parameter => {
                self.parameter.add(entity.name.items(), number)?;
                self.entities.push_reserved(entity);
                Ok(true)
            }
        }
    }

    /// The number of the entity that holds for a name.
    pub fn lookup(&self, space: Space, name: &Name) -> Option<u32>
        ensures { result ≡ number_of self.now.entities space name.now }
    {
        self.find(space, name.items())
    }

    /// The number of the entity that holds for these bytes of a name.
    pub fn find(&self, space: Space, name: &[u8]) -> Option<u32>
        ensures { result ≡ number_of self.now.entities space name.now }
    {
        match space {
            Space::General => self.general.number(name),
            Space::Parameter => self.parameter.number(name),
        }
    }

    /// How many entities were declared.
    pub fn count(&self) -> u32
        ensures count { result ≡ length self.now.entities }
        ensures few { result < table_limit }
    {
        self.entities.len() as u32
    }

    /// The entity of a number.
    pub fn entity(&self, number: u32) -> &Entity
        requires first { 2 ≤ number }
        requires declared { number < length self.now.entities + 2 }
        ensures { slice_get self.now.entities (number - 2) ≡ Some result.now }
    {
        &self.entities[number as usize - 2]
    }

    /// The entity of a number, if one has it.
    pub fn get(&self, number: u32) -> Option<&Entity>
        ensures { option_map (λ e. e.now) result ≡ entity_at self.now.entities number }
    {
        if number < 2 {
            return None;
        }
        self.entities.get(number as usize - 2)
    }

    /// Declares a notation (11.4). An earlier declaration of its name holds.
    pub fn declare_notation(&mut self, name: Name, external: External) -> Result<bool, Memory>
        requires { length self.old.notations + 1 < table_limit }
        ensures new { IfOk result (λ new. new ≡ is_none (notation_of self.old.notations name)) }
        ensures ok { IfOk result (λ new. self.new.notations ≡ with_notation self.old.notations new name external) }
        ensures err { OnErr result (self.new.notations ≡ self.old.notations) }
        ensures entities { self.new.entities ≡ self.old.entities }
    {
        if self.notation_number(&name).is_some() {
            return Ok(false);
        }
        let number = self.notations.len() as u32;
        self.notations.reserve(1)?;
        self.of_notations.add(name.items(), number)?;
        self.notations.push_reserved(Notation { name, external });
        Ok(true)
    }

    /// The number of the notation that holds for a name, in order of first declaration from 0.
    pub fn notation_number(&self, name: &Name) -> Option<u32>
        ensures { result ≡ notation_of self.now.notations name.now }
    {
        self.of_notations.number(name.items())
    }

    /// The external identifier of the notation that holds for a name.
    pub fn notation(&self, name: &Name) -> Option<&External>
        ensures { option_map (λ external. external.now) result ≡ external_of self.now.notations name.now }
    {
        match self.notation_number(name) {
            Some(number) => Some(&self.notations[number as usize].external),
            None => None,
        }
    }

    /// How many notations were declared.
    pub fn notations(&self) -> u32
        ensures count { result ≡ length self.now.notations }
        ensures few { result < table_limit }
    {
        self.notations.len() as u32
    }
}
