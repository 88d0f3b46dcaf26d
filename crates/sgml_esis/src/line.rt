// Lines, and text with escapes.
ghost use Rattle.std.specs.Prelude.{◌≡◌, ◌<◌, ◌++◌, ◌∷◌, [], Some, IfOk, OnOk, OnErr, true, length, map, slice_get};
ghost use Rattle.std.specs.List.{list_all};
ghost use Rattle.sgml_esis.specs.Plain.{is_plain};
ghost use Rattle.sgml_esis.specs.declared.line.EscUnit.TheVariants.{Byte};

use sgml_text::{DataKind, Memory, Name, Names, Text};
use std::alloc::Global;
use std::marker::Model;

/// A byte, or the escape that stands before and after the text of an SDATA entity.
#[derive(Clone, Copy, Debug, PartialEq, Eq)]
pub enum EscUnit {
    Byte(u8),
    Bar,
}

/// How a text is kept: bytes that all stand for themselves, or any units.
#[derive(Debug, Drop)]
pub(crate) enum Units {
    Plain(Text),
    Any(Vec<EscUnit>),
}

/// Text that is written with escapes. Up to 23 bytes that all stand for themselves need no memory.
#[derive(Debug, Drop)]
pub struct Escaped {
    pub(crate) units: Units,
}

impl Model for Escaped {
    ghost use Rattle.std.specs.Prelude.{List};
    ghost use Rattle.sgml_esis.specs.declared.line.EscUnit.{EscUnit};

    ghost Value = { List EscUnit };

    ghost use Rattle.sgml_esis.specs.Kept.{units_of, IsKept};

    ghost view = { λ a. units_of a.units };

    ghost invariant = { λ a. IsKept a.units };
}

impl Escaped {
    /// The text of these units.
    pub fn of(items: Vec<EscUnit>) -> Self
        ensures { result ≡ items.items }
    {
        Escaped {
            units: Units::Any(items),
        }
    }

    /// The text of bytes that all stand for themselves.
    pub(crate) fn plain(alloc: Global, bytes: &[u8]) -> Result<Self, Memory>
        requires { list_all is_plain bytes.now ≡ true }
        ensures { IfOk result (λ text. text ≡ map Byte bytes.now) }
    {
        Ok(Escaped {
            units: Units::Plain(Text::copied(alloc, bytes)?),
        })
    }

    /// How many units it has.
    pub fn len(&self) -> usize
        ensures { result ≡ length self.now }
    {
        match &self.units {
            Units::Plain(text) => text.items().len(),
            Units::Any(units) => units.len(),
        }
    }

    /// A unit.
    pub fn unit(&self, index: usize) -> EscUnit
        requires { index < length self.now }
        ensures { slice_get self.now index ≡ Some result }
    {
        match &self.units {
            Units::Plain(text) => EscUnit::Byte(text.items()[index]),
            Units::Any(units) => units[index],
        }
    }

    /// Adds a unit at the end. An `Err` changes nothing.
    pub fn push(&mut self, alloc: Global, unit: EscUnit) -> Result<(), Memory>
        ensures ok { OnOk result (self.new ≡ self.old ++ unit ∷ []) }
        ensures err { OnErr result (self.new ≡ self.old) }
    {
        match &mut self.units {
            Units::Plain(text) => {
                let mut units = spread(alloc, text.items())?;
                units.push(unit)?;
                self.units = Units::Any(units);
            }
            Units::Any(units) => units.push(unit)?,
        }
        Ok(())
    }

    /// Adds bytes at the end. An `Err` changes nothing.
    pub fn push_bytes(&mut self, alloc: Global, bytes: &[u8]) -> Result<(), Memory>
        ensures ok { OnOk result (self.new ≡ self.old ++ map Byte bytes.now) }
        ensures err { OnErr result (self.new ≡ self.old) }
    {
        match &mut self.units {
            Units::Plain(text) => {
                let mut units = spread(alloc, text.items())?;
                push_bytes(&mut units, bytes)?;
                self.units = Units::Any(units);
            }
            Units::Any(units) => push_bytes(units, bytes)?,
        }
        Ok(())
    }
}

// A unit for each byte.
fn spread(alloc: Global, bytes: &[u8]) -> Result<Vec<EscUnit>, Memory>
    ensures { IfOk result (λ units. units.items ≡ map Byte bytes.now) }
{
    let mut units = Vec::new(alloc);
    push_bytes(&mut units, bytes)?;
    Ok(units)
}

/// Adds bytes at the end of units. An `Err` changes nothing.
pub(crate) fn push_bytes(units: &mut Vec<EscUnit>, bytes: &[u8]) -> Result<(), Memory>
    ensures ok { OnOk result (units.new.items ≡ units.old.items ++ map Byte bytes.now) }
    ensures err { OnErr result (units.new.items ≡ units.old.items) }
{
    units.reserve(bytes.len())?;
    for b in bytes {
        units.push_reserved(EscUnit::Byte(*b));
    }
    Ok(())
}

/// A value in memory of its own, so that a line takes little room.
#[derive(Debug, Drop)]
pub struct Apart<T> {
    item: Box<T>,
}

impl<T> Model for Apart<T> {
    ghost Value = { T };

    ghost view = { λ a. a.item.value };
}

impl<T> Apart<T> {
    /// The value.
    pub fn item(&self) -> &T
        ensures { result.now ≡ self.now }
    {
        &self.item
    }
}

impl<T: Drop> Apart<T> {
    /// Puts the value into memory of its own.
    pub fn of(alloc: Global, item: T) -> Result<Apart<T>, Memory>
        ensures { IfOk result (λ apart. apart ≡ item) }
    {
        Ok(Apart {
            item: Box::new(alloc, item)?,
        })
    }
}

/// A line of the output.
#[derive(Debug, Drop)]
pub enum Line {
    /// `(NAME`: an element starts.
    Start(Name),
    /// `)NAME`: an element ends.
    Finish(Name),
    /// `-TEXT`: data, which isn't empty.
    Chars(Escaped),
    /// `&NAME`: a reference to an external data entity.
    DataRef(Name),
    /// `?TEXT`: a processing instruction.
    Pi(Escaped),
    /// `ANAME IMPLIED`: an attribute of the next start without a value.
    Implied(Name),
    /// `ANAME CDATA TEXT`: an attribute's character data.
    Cdata(Name, Apart<Escaped>),
    /// `ANAME NOTATION NAME`: an attribute's notation.
    Notation(Name, Apart<Name>),
    /// `ANAME ENTITY NAME ..`: an attribute's entities, one or more.
    Entity(Name, Apart<Names>),
    /// `ANAME TOKEN TOKEN ..`: an attribute's tokens, one or more.
    Token(Name, Apart<Names>),
    /// `NNAME`: a notation is defined.
    DefineNotation(Name),
    /// `ENAME KIND NOTATION`: an external data entity is defined.
    DefineExternal(Apart<Name>, DataKind, Apart<Name>),
    /// `INAME KIND TEXT`: an internal data entity is defined, of kind CDATA or SDATA.
    DefineInternal(Apart<Name>, DataKind, Apart<Escaped>),
    /// `pTEXT`: the public identifier of the next definition.
    Public(Escaped),
    /// `sTEXT`: the system identifier of the next definition.
    System(Escaped),
    /// `#TEXT`: the APPINFO parameter, on the first line only.
    AppInfo(Escaped),
    /// `C`: the document conforms, on the last line only.
    Conforming,
}
