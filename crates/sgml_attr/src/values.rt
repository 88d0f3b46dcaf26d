// The values of one start-tag.
ghost use Rattle.std.specs.Prelude.{◌≡◌, IfOk};
ghost use Rattle.std.specs.Bool.{Decides};
ghost use Rattle.sgml_attr.specs.Equality.{same_values, values-laws};

use crate::value::AttrValue;
use sgml_text::Memory;
use std::alloc::Global;
use std::marker::Model;

/// The values of an element's attributes, in the order of their definitions.
#[derive(Debug, Drop)]
pub struct Values {
    values: Vec<AttrValue>,
}

impl Model for Values {
    ghost use Rattle.std.specs.Prelude.{List};
    ghost use Rattle.sgml_attr.specs.declared.value.AttrValue.{AttrValue};

    ghost Value = { List AttrValue };

    ghost view = { λ a. a.values.items };
}

impl PartialEq for Values {
    ghost eq = { same_values };

    ghost laws = { values-laws };

    fn eq(&self, other: &Values) -> bool
        ensures gives { result ≡ same_values self.now other.now }
        ensures exact { Decides result (self.now ≡ other.now) }
    {
        self.values.as_slice() == other.values.as_slice()
    }
}

impl Values {
    /// The list of these values.
    pub fn of(items: Vec<AttrValue>) -> Self
        ensures { result ≡ items.items }
    {
        Values { values: items }
    }

    /// The values.
    pub fn items(&self) -> &[AttrValue]
        ensures { result.now ≡ self.now }
    {
        &self.values
    }

    /// The values as the vector that they are kept in.
    pub fn into_items(self) -> Vec<AttrValue>
        ensures { result.items ≡ self }
    {
        self.values
    }

    /// The same values in memory of their own.
    pub fn copy(&self, alloc: Global) -> Result<Values, Memory>
        ensures { IfOk result (λ values. values ≡ self.now) }
    {
        let mut values = Vec::with_capacity(alloc, self.values.len())?;
        for value in &self.values {
            let copy = value.copy(alloc)?;
            values.push(copy)?;
        }
        Ok(Values { values })
    }
}
