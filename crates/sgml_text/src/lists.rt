// Lists that contracts see as their items.
ghost use Rattle.std.specs.Prelude.{◌≡◌, IfOk};
ghost use Rattle.std.specs.Bool.{Decides};
ghost use Rattle.std.specs.Str.{bytes_eq};
ghost use Rattle.std.specs.Cmp.Rules.{comparing};
ghost use Rattle.std.proofs.Common.{rules};

use crate::bytes::{self, Bytes};
use crate::error::Memory;
use crate::name::Name;
use std::alloc::Global;
use std::marker::Model;

/// A text: any bytes. Up to 23 of them need no memory of their own.
#[derive(Debug, Drop)]
pub struct Text {
    bytes: Bytes,
}

impl Model for Text {
    ghost use Rattle.std.specs.Prelude.{List, ℕ};

    ghost Value = { List ℕ };

    ghost use Rattle.sgml_text.specs.Bytes.{bytes_of};

    ghost view = { λ a. bytes_of a.bytes };
}

impl Text {
    /// The text of these bytes.
    pub fn of(items: Vec<u8>) -> Self
        ensures { result ≡ items.items }
    {
        Text {
            bytes: bytes::of(items),
        }
    }

    /// The text of a copy of these bytes.
    pub fn copied(alloc: Global, bytes: &[u8]) -> Result<Text, Memory>
        ensures { IfOk result (λ text. text ≡ bytes.now) }
    {
        Ok(Text {
            bytes: bytes::copied(alloc, bytes)?,
        })
    }

    /// The bytes.
    pub fn items(&self) -> &[u8]
        ensures { result.now ≡ self.now }
    {
        bytes::items(&self.bytes)
    }

    /// The same text in memory of its own.
    pub fn copy(&self, alloc: Global) -> Result<Text, Memory>
        ensures { IfOk result (λ text. text ≡ self.now) }
    {
        Text::copied(alloc, self.items())
    }
}

impl PartialEq for Text {
    ghost eq = { bytes_eq };

    ghost laws = { Prim.search (comparing, rules) };

    fn eq(&self, other: &Text) -> bool
        ensures gives { result ≡ bytes_eq self.now other.now }
        ensures exact { Decides result (self.now ≡ other.now) }
    {
        *self.items() == *other.items()
    }
}

/// A list, which contracts see as its items.
#[derive(Debug, Drop)]
pub struct ListOf<T> {
    items: Vec<T>,
}

impl<T> Model for ListOf<T> {
    ghost use Rattle.std.specs.Prelude.{List};

    ghost Value = { List T };

    ghost view = { λ a. a.items.items };
}

impl<T> ListOf<T> {
    /// The list of these items.
    pub fn of(items: Vec<T>) -> Self
        ensures { result ≡ items.items }
    {
        ListOf { items }
    }

    /// The items.
    pub fn items(&self) -> &[T]
        ensures { result.now ≡ self.now }
    {
        &self.items
    }

    /// The items as the vector that they are kept in.
    pub fn into_items(self) -> Vec<T>
        ensures { result.items ≡ self }
    {
        self.items
    }
}

/// A list of names.
pub type Names = ListOf<Name>;

impl ListOf<Name> {
    /// The same names in memory of their own.
    pub fn copy(&self, alloc: Global) -> Result<Names, Memory>
        ensures { IfOk result (λ names. names ≡ self.now) }
    {
        let mut names = Vec::with_capacity(alloc, self.items.len())?;
        for name in &self.items {
            let copy = name.copy(alloc)?;
            names.push(copy)?;
        }
        Ok(ListOf::of(names))
    }
}

/// A list of numbers.
pub type Numbers = ListOf<u32>;

impl ListOf<u32> {
    /// The same numbers in memory of their own.
    pub fn copy(&self, alloc: Global) -> Result<Numbers, Memory>
        ensures { IfOk result (λ numbers. numbers ≡ self.now) }
    {
        Ok(ListOf::of(self.items.as_slice().to_vec(alloc)?))
    }
}
