// Current values.
ghost use Rattle.std.specs.Prelude.{◌≡◌, ◌<◌, ◌^◌, List, [], length, replicate, IfOk, OnOk, OnErr};
ghost use Rattle.std.specs.Bool.{Decides};
ghost use Rattle.std.specs.Option.{option_copied};
ghost use Rattle.sgml_attr.specs.Currents.{entry_at, current_at, placed, SetsOne, SameCurrents};
ghost use Rattle.sgml_attr.specs.Equality.{same_entries, same_lists, entries-laws, lists-laws};

use crate::value::AttrValue;
use sgml_text::Memory;
use std::alloc::Global;
use std::marker::Model;

// The values of one list, at the numbers of their attributes.
#[derive(Drop)]
struct Entries {
    values: Vec<Option<AttrValue>>,
}

impl Model for Entries {
    ghost use Rattle.std.specs.Prelude.{List, Option};
    ghost use Rattle.sgml_attr.specs.declared.value.AttrValue.{AttrValue};

    ghost Value = { List (Option AttrValue) };

    ghost view = { λ a. a.values.items };
}

impl PartialEq for Entries {
    ghost eq = { same_entries };

    ghost laws = { entries-laws };

    fn eq(&self, other: &Entries) -> bool {
        self.values.as_slice() == other.values.as_slice()
    }
}

impl Entries {
    fn new(alloc: Global) -> Self
        ensures { result ≡ [] }
    {
        Entries {
            values: Vec::new(alloc),
        }
    }

    fn get(&self, attribute: usize) -> Option<&AttrValue>
        ensures { option_copied result ≡ entry_at self.now attribute }
    {
        match self.values.get(attribute) {
            Some(entry) => entry.as_ref(),
            None => None,
        }
    }

    fn set(&mut self, attribute: usize, value: AttrValue) -> Result<(), Memory>
        requires { attribute < 2 ^ 32 }
        ensures ok { OnOk result (self.new ≡ placed self.old attribute value) }
        ensures err { OnErr result (self.new ≡ self.old) }
    {
        place(&mut self.values, attribute, value)
    }

    fn copy(&self, alloc: Global) -> Result<Entries, Memory>
        ensures { IfOk result (λ copy. copy ≡ self.now) }
    {
        let mut values = Vec::with_capacity(alloc, self.values.len())?;
        for entry in &self.values {
            let copy = copied(alloc, entry)?;
            values.push(copy)?;
        }
        Ok(Entries { values })
    }
}

fn copied(alloc: Global, entry: &Option<AttrValue>) -> Result<Option<AttrValue>, Memory>
    ensures { IfOk result (λ copy. copy ≡ entry.now) }
{
    match entry {
        Some(value) => Ok(Some(value.copy(alloc)?)),
        None => Ok(None),
    }
}

fn place(values: &mut Vec<Option<AttrValue>>, at: usize, value: AttrValue) -> Result<(), Memory>
    requires { at < 2 ^ 32 }
    ensures ok { OnOk result (values.new.items ≡ placed values.old.items at value) }
    ensures err { OnErr result (values.new.items ≡ values.old.items) }
{
    if at < values.len() {
        values[at] = Some(value);
        return Ok(());
    }
    values.reserve(at + 1 - values.len())?;
    'gaps: while values.len() < at {
        values.push_reserved(None);
    }
    values.push_reserved(Some(value));
    Ok(())
}

/// The current values of all attribute lists: for each attribute, by number, the value that was
/// specified last (11.3.4). What they take in memory grows with the greatest number of an attribute
/// with a value.
#[derive(Drop)]
pub struct Currents {
    lists: Vec<Entries>,
}

impl Model for Currents {
    ghost use Rattle.std.specs.Prelude.{List, Option};
    ghost use Rattle.sgml_attr.specs.declared.value.AttrValue.{AttrValue};
    ghost use Rattle.sgml_attr.specs.Currents.{AllEndInValue};

    ghost Value = { List (List (Option AttrValue)) };

    ghost view = { λ a. a.lists.items };

    ghost invariant = { λ a. AllEndInValue a.lists.items };
}

impl PartialEq for Currents {
    ghost eq = { same_lists };

    ghost laws = { lists-laws };

    fn eq(&self, other: &Currents) -> bool
        ensures gives { result ≡ same_lists self.now other.now }
        ensures exact { Decides result (SameCurrents self.now other.now) }
    {
        self.lists.as_slice() == other.lists.as_slice()
    }
}

impl Currents {
    /// No value in any of so many lists.
    pub fn new(alloc: Global, lists: u32) -> Result<Currents, Memory>
        ensures { IfOk result (λ currents. currents ≡ replicate lists []) }
    {
        let mut made = Vec::with_capacity(alloc, lists as usize)?;
        for _ in 0..lists {
            made.push(Entries::new(alloc))?;
        }
        Ok(Currents { lists: made })
    }

    /// Sets the value of an attribute of a list.
    pub fn set(&mut self, list: u32, attribute: u32, value: AttrValue) -> Result<(), Memory>
        requires { list < length self.old }
        ensures ok { OnOk result (SetsOne self.old self.new list attribute value) }
        ensures err { OnErr result (self.new ≡ self.old) }
    {
        let entries = &mut self.lists[list as usize];
        entries.set(attribute as usize, value)
    }

    /// The value of an attribute of a list, if it has one.
    pub fn get(&self, list: u32, attribute: u32) -> Option<&AttrValue>
        ensures { option_copied result ≡ current_at self.now list attribute }
    {
        match self.lists.get(list as usize) {
            Some(entries) => entries.get(attribute as usize),
            None => None,
        }
    }

    /// The same values in memory of their own.
    pub fn copy(&self, alloc: Global) -> Result<Currents, Memory>
        ensures { IfOk result (λ currents. currents ≡ self.now) }
    {
        let mut lists = Vec::with_capacity(alloc, self.lists.len())?;
        for entries in &self.lists {
            let copy = entries.copy(alloc)?;
            lists.push(copy)?;
        }
        Ok(Currents { lists })
    }
}
