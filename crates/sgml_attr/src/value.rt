// Values of attributes.
ghost use Rattle.std.specs.Prelude.{◌≡◌, IfOk};
ghost use Rattle.std.specs.Bool.{Decides};
ghost use Rattle.sgml_attr.specs.Rows.{same_names};
ghost use Rattle.sgml_attr.specs.Values.{same_value};
ghost use Rattle.sgml_attr.specs.Equality.{value-laws};

use sgml_text::{Memory, Name, Names, Numbers, Units};
use std::alloc::Global;

/// The value of an attribute.
#[derive(Debug, Drop)]
pub enum AttrValue {
    /// No value.
    Implied,
    Cdata(Units),
    Notation(Name),
    /// The numbers of data entities.
    Entities(Numbers),
    Tokens(Names),
}

impl PartialEq for AttrValue {
    ghost eq = { same_value };

    ghost laws = { value-laws };

    fn eq(&self, other: &AttrValue) -> bool
        ensures gives { result ≡ same_value self.now other.now }
        ensures exact { Decides result (self.now ≡ other.now) }
    {
        match (self, other) {
            (AttrValue::Implied, AttrValue::Implied) => true,
            (AttrValue::Cdata(a), AttrValue::Cdata(b)) => *a == *b,
            (AttrValue::Notation(a), AttrValue::Notation(b)) => *a == *b,
            (AttrValue::Entities(a), AttrValue::Entities(b)) => a.items() == b.items(),
            (AttrValue::Tokens(a), AttrValue::Tokens(b)) => same_names(a.items(), b.items()),
            _ => false,
        }
    }
}

impl AttrValue {
    /// The same value in memory of its own.
    pub fn copy(&self, alloc: Global) -> Result<AttrValue, Memory>
        ensures { IfOk result (λ value. value ≡ self.now) }
    {
        match self {
            AttrValue::Implied => Ok(AttrValue::Implied),
            AttrValue::Cdata(units) => Ok(AttrValue::Cdata(units.copy(alloc)?)),
            AttrValue::Notation(name) => Ok(AttrValue::Notation(name.copy(alloc)?)),
            AttrValue::Entities(numbers) => Ok(AttrValue::Entities(numbers.copy(alloc)?)),
            AttrValue::Tokens(names) => Ok(AttrValue::Tokens(names.copy(alloc)?)),
        }
    }
}

pub(crate) fn same_names(a: &[Name], b: &[Name]) -> bool
    ensures { result ≡ same_names a.now b.now }
{
    if a.len() != b.len() {
        return false;
    }
    let mut i = 0;
    'names: while i < a.len() {
        if a[i] != b[i] {
            return false;
        }
        i += 1;
    }
    true
}
