// The numbers of definitions, by the names that specifications give, found by hashing.
ghost use Rattle.std.specs.Prelude.{◌≡◌, ◌<◌, ◌^◌, [], length, map, IfOk, OnOk};
ghost use Rattle.sgml_names.specs.Index.{found};
ghost use Rattle.sgml_names.specs.Naming.{cased_character};
ghost use Rattle.sgml_names.specs.Lists.{with_number};
ghost use Rattle.sgml_attr.specs.Tokens.{token_of};
ghost use Rattle.sgml_attr.specs.Finding.{group_of, only_after, IsIndexOf, HasFirst, HasEntry, HasEntries, HasGroup};

use crate::definition::{Declared, Definition};
use crate::tokens::{folded_bytes, folded_units};
use sgml_names::NameIndex;
use sgml_text::{Memory, Name, Unit};
use std::alloc::Global;

#[derive(Drop)]
pub(crate) struct AttributeIndex {
    // Each name of a definition, with the first one's number.
    names: NameIndex,
    // Each name in a group, with the first group's number.
    members: NameIndex,
    // Names in several groups.
    shared: NameIndex,
}

impl AttributeIndex {
    pub(crate) fn of(alloc: Global, definitions: &[Definition]) -> Result<AttributeIndex, Memory>
        requires { length definitions.now < 2 ^ 32 }
        ensures { IfOk result (λ index. IsIndexOf index definitions.now) }
    {
        let mut index = AttributeIndex {
            names: NameIndex::new(alloc),
            members: NameIndex::new(alloc),
            shared: NameIndex::new(alloc),
        };
        for (i, definition) in definitions.iter().enumerate() {
            index.add(definition, i as u32)?;
        }
        Ok(index)
    }

    fn add(&mut self, definition: &Definition, number: u32) -> Result<(), Memory>
        ensures named { OnOk result (HasFirst self.old.names self.new.names definition.now.name number) }
        ensures only { OnOk result (HasGroup self.old self.new definition.now.declared number) }
    {
        add_first(&mut self.names, definition.name.items(), number)?;
        add_group(
            &mut self.members,
            &mut self.shared,
            group_of(&definition.declared),
            number,
        )?;
        Ok(())
    }

    /// The first definition of the name that is spelled so.
    pub(crate) fn named(
        &self,
        alloc: Global,
        folding: bool,
        spelled: &[u8],
    ) -> Result<Option<usize>, Memory>
        ensures { IfOk result (λ i. i ≡ found self.now.names (map (cased_character folding) spelled.now)) }
    {
        let name = folded_bytes(alloc, folding, spelled)?;
        Ok(as_place(self.names.number(&name)))
    }

    /// The definition in whose group these units are, unless they are in several.
    pub(crate) fn only_member(
        &self,
        alloc: Global,
        folding: bool,
        units: &[Unit],
    ) -> Result<Option<usize>, Memory>
        ensures { IfOk result (λ i. i ≡ only_after self.now.members self.now.shared [] (token_of folding units.now)) }
    {
        let name = folded_units(alloc, folding, units)?;
        if self.shared.number(&name).is_some() {
            return Ok(None);
        }
        Ok(as_place(self.members.number(&name)))
    }
}

// Adds a name, unless it is there, and tells the number that it had.
fn add_first(index: &mut NameIndex, name: &[u8], number: u32) -> Result<Option<u32>, Memory>
    ensures earlier { IfOk result (λ earlier. earlier ≡ found index.old name.now) }
    ensures first { OnOk result (HasFirst index.old index.new name.now number) }
{
    let earlier = index.add_new(name, number)?;
    Ok(earlier)
}

fn add_member(
    members: &mut NameIndex,
    shared: &mut NameIndex,
    name: &[u8],
    number: u32,
) -> Result<(), Memory>
    ensures { OnOk result (HasEntry members.old shared.old members.new shared.new (name.now, number)) }
{
    if let Some(earlier) = add_first(members, name, number)? {
        if earlier != number {
            add_first(shared, name, number)?;
        }
    }
    Ok(())
}

fn add_group(
    members: &mut NameIndex,
    shared: &mut NameIndex,
    names: &[Name],
    number: u32,
) -> Result<(), Memory>
    ensures { OnOk result (HasEntries members.old shared.old members.new shared.new (with_number number names.now)) }
{
    for name in names {
        add_member(members, shared, name.items(), number)?;
    }
    Ok(())
}

fn group_of(declared: &Declared) -> &[Name]
    ensures { result.now ≡ group_of declared.now }
{
    match declared {
        Declared::Notation(names) => names.items(),
        Declared::Group(names) => names.items(),
        _ => &[],
    }
}

fn as_place(number: Option<u32>) -> Option<usize>
    ensures { result ≡ number }
{
    match number {
        Some(number) => Some(number as usize),
        None => None,
    }
}
