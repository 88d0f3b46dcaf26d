// Stretches of data.
ghost use Rattle.std.specs.Prelude.{◌≡◌, ◌∷◌, [], length, IfOk};
ghost use Rattle.sgml_text.specs.Units.{characters};
ghost use Rattle.sgml_events.specs.Stretches.{units_kept, units_shown, is_none};

use sgml_text::{Memory, Text, Unit, Units};
use std::alloc::Global;
use std::marker::Model;

/// How units are kept: characters that stand as they are by their bytes, or any units.
#[derive(Debug, Drop)]
pub(crate) enum Kept {
    Bytes(Text),
    Units(Units),
    /// A record end, which is CR.
    RecordEnd,
}

/// A stretch of data. Characters as they stand take a byte each, and up to 23 of them no memory of
/// their own.
#[derive(Debug, Drop)]
pub struct Stretch {
    kept: Kept,
}

impl Model for Stretch {
    ghost use Rattle.std.specs.Prelude.{List};
    ghost use Rattle.sgml_text.specs.declared.unit.Unit.{Unit as AnyUnit};

    ghost Value = { List AnyUnit };

    ghost use Rattle.sgml_events.specs.Stretches.{units_kept};

    ghost view = { λ a. units_kept a.kept };
}

/// The units of a stretch: characters as they stand by their bytes, or any units.
#[derive(Clone, Copy, Debug)]
pub enum Parts<'a> {
    Bytes(&'a [u8]),
    Units(&'a [Unit]),
}

impl Stretch {
    /// Characters as they stand.
    pub fn of_bytes(alloc: Global, bytes: &[u8]) -> Result<Stretch, Memory>
        ensures { IfOk result (λ stretch. stretch ≡ characters bytes.now) }
    {
        Ok(Stretch::of_text(Text::copied(alloc, bytes)?))
    }

    /// The characters of a text, as they stand.
    pub fn of_text(text: Text) -> Stretch
        ensures { result ≡ characters text }
    {
        Stretch {
            kept: Kept::Bytes(text),
        }
    }

    /// Any units.
    pub fn of_units(units: Units) -> Stretch
        ensures { result ≡ units }
    {
        Stretch {
            kept: Kept::Units(units),
        }
    }

    /// A record end alone (7.6.1), which takes no memory.
    pub fn record_end() -> Stretch
        ensures { result ≡ characters (13 ∷ []) }
    {
        Stretch {
            kept: Kept::RecordEnd,
        }
    }

    /// The units, as they are kept.
    pub fn parts(&self) -> Parts<'_>
        ensures { units_shown result ≡ self.now }
    {
        match &self.kept {
            Kept::Bytes(text) => Parts::Bytes(text.items()),
            Kept::Units(units) => Parts::Units(units.items()),
            Kept::RecordEnd => Parts::Bytes(b"\r"),
        }
    }

    /// How many units it has.
    pub fn len(&self) -> usize
        ensures { result ≡ length self.now }
    {
        match &self.kept {
            Kept::Bytes(text) => text.items().len(),
            Kept::Units(units) => units.items().len(),
            Kept::RecordEnd => 1,
        }
    }

    /// Whether it has none.
    pub fn is_empty(&self) -> bool
        ensures { result ≡ is_none self.now }
    {
        match &self.kept {
            Kept::Bytes(text) => text.items().is_empty(),
            Kept::Units(units) => units.items().is_empty(),
            Kept::RecordEnd => false,
        }
    }

    /// The same stretch in memory of its own.
    pub fn copy(&self, alloc: Global) -> Result<Stretch, Memory>
        ensures { IfOk result (λ stretch. stretch ≡ self.now) }
    {
        match &self.kept {
            Kept::Bytes(text) => Stretch::of_bytes(alloc, text.items()),
            Kept::Units(units) => Ok(Stretch::of_units(units.copy(alloc)?)),
            Kept::RecordEnd => Ok(Stretch::record_end()),
        }
    }
}
