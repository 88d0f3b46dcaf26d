// The units of literals and attribute values.
ghost use Rattle.std.specs.Prelude.{◌≡◌, IfOk};
ghost use Rattle.std.specs.Bool.{Decides};
ghost use Rattle.std.specs.Cmp.Rules.{comparing};
ghost use Rattle.std.proofs.Common.{rules};
ghost use Rattle.sgml_text.specs.SameUnits.{kind_of, number_of, same_unit, same_units};
ghost use Rattle.sgml_text.specs.Units.{characters};

use crate::error::Memory;
use std::alloc::Global;
use std::marker::Model;

/// One unit of a literal, or of an attribute value.
#[derive(Clone, Copy, Debug)]
pub enum Unit {
    /// A character as it stands.
    Byte(u8),
    /// A character from a numeric reference: data, whatever its number is (9.5). It stands in
    /// literals alone.
    Coded(u8),
    /// The text of an SDATA entity, by the entity's number (7.9.3, 10.5.3).
    Sdata(u32),
}

impl PartialEq for Unit {
    ghost eq = { same_unit };

    ghost laws = { Prim.search (comparing, rules) };

    fn eq(&self, other: &Unit) -> bool
        ensures gives { result ≡ same_unit self.now other.now }
        ensures exact { Decides result (self.now ≡ other.now) }
    {
        match (*self, *other) {
            (Unit::Byte(a), Unit::Byte(b)) => a == b,
            (Unit::Coded(a), Unit::Coded(b)) => a == b,
            (Unit::Sdata(a), Unit::Sdata(b)) => a == b,
            _ => false,
        }
    }
}

/// A list of units.
#[derive(Debug, Drop)]
pub struct Units {
    units: Vec<Unit>,
}

impl Model for Units {
    ghost use Rattle.std.specs.Prelude.{List};
    ghost use Rattle.sgml_text.specs.declared.unit.Unit.{Unit as AnyUnit};

    ghost Value = { List AnyUnit };

    ghost view = { λ a. a.units.items };
}

impl PartialEq for Units {
    ghost eq = { same_units };

    ghost laws = { Prim.search (comparing, rules) };

    fn eq(&self, other: &Units) -> bool
        ensures gives { result ≡ same_units self.now other.now }
        ensures exact { Decides result (self.now ≡ other.now) }
    {
        self.units.as_slice() == other.units.as_slice()
    }
}

impl Units {
    /// The list of these units.
    pub fn of(items: Vec<Unit>) -> Self
        ensures { result ≡ items.items }
    {
        Units { units: items }
    }

    /// These bytes, each as a character that stands there.
    pub fn of_bytes(alloc: Global, bytes: &[u8]) -> Result<Units, Memory>
        ensures { IfOk result (λ units. units ≡ characters bytes.now) }
    {
        let mut units = Vec::with_capacity(alloc, bytes.len())?;
        for b in bytes {
            units.push(Unit::Byte(*b))?;
        }
        Ok(Units { units })
    }

    /// The units.
    pub fn items(&self) -> &[Unit]
        ensures { result.now ≡ self.now }
    {
        &self.units
    }

    /// The units as the vector that they are kept in.
    pub fn into_items(self) -> Vec<Unit>
        ensures { result.items ≡ self }
    {
        self.units
    }

    /// The same units in memory of their own.
    pub fn copy(&self, alloc: Global) -> Result<Units, Memory>
        ensures { IfOk result (λ units. units ≡ self.now) }
    {
        Ok(Units {
            units: self.units.as_slice().to_vec(alloc)?,
        })
    }
}
