// What stands directly in each open element.
ghost use Rattle.std.specs.Prelude.{◌≡◌, ◌<◌, ◌≤◌, ◌-◌, Bool, false, [], Some, IfOk, length};
ghost use Rattle.sgml_records.specs.Facts.{takes_end};
ghost use Rattle.sgml_theory_reading.specs.Events.{releases_by};
ghost use Rattle.sgml_theory_reading.specs.Facets.{sub_or_mark};
ghost use Rattle.sgml_theory_reading.specs.Nest.{without_first};
ghost use Rattle.sgml_inside.specs.Inside.{item_of, facts_of, noted_in, opened_in, set_in, map_in};

use crate::item::{Item, note};
use crate::map::setting_or;
use sgml_dtd_maps::MapOf;
use sgml_records::RecordState;
use sgml_text::Memory;
use std::alloc::Global;
use std::marker::Model;

/// What stands directly in one open element.
#[derive(Clone, Copy, Debug)]
struct Inner {
    record_ends: RecordState,
    /// The map that a USEMAP set last, or that of the parent where none did.
    setting: MapOf,
    /// The map in force.
    map: MapOf,
}

/// What stands directly in each open element, and the type of the element that ended last.
#[derive(Drop)]
pub struct Inside {
    // The outermost first.
    elements: Vec<Inner>,
    ended: Option<u32>,
}

impl Model for Inside {
    ghost use Rattle.std.specs.Prelude.{reverse, vec_capacity};
    ghost use Rattle.sgml_inside.specs.Inside.{Inside as Shown};

    ghost Value = { Shown };

    ghost view = { λ a. record { elements = reverse a.elements.items; ended = a.ended; room = vec_capacity a.elements } };
}

impl Inside {
    /// No element is open, and there is room for so many.
    pub fn new(alloc: Global, taglvl: u32) -> Result<Inside, Memory>
        ensures none { IfOk result (λ inside. inside.elements ≡ []) }
        ensures ended { IfOk result (λ inside. inside.ended ≡ None) }
        ensures room { IfOk result (λ inside. taglvl ≤ inside.room) }
    {
        Ok(Inside {
            elements: Vec::with_capacity(alloc, taglvl as usize)?,
            ended: None,
        })
    }

    /// An item comes in the innermost element: whether a record end that waits is data directly before it
    /// (7.6.1). Outside all elements nothing waits.
    pub fn note(&mut self, item: Item) -> bool
        ensures elements { self.new.elements ≡ noted_in (item_of item) self.old.elements }
        ensures released { result ≡ releases_by (facts_of self.old.elements) (item_of item) }
        ensures ended { self.new.ended ≡ self.old.ended }
        ensures room { self.new.room ≡ self.old.room }
    {
        match self.elements.pop() {
            Some(mut inner) => {
                let released = note(&mut inner.record_ends, item);
                self.elements.push_reserved(inner);
                released
            }
            None => false,
        }
    }

    /// Whether a record end that comes in the innermost element isn't ignored for what stands before it.
    pub fn takes_record_end(&self) -> bool
        ensures { result ≡ takes_end (facts_of self.now.elements) }
    {
        match self.elements.as_slice().last() {
            Some(inner) => inner.record_ends.is_live(),
            None => false,
        }
    }

    /// An element begins in the innermost one, whose start has been noted there. `map` is that of its type.
    #[tactic(auto, unfolding(sgml_records::specs::Facts::facts))]
    pub fn open(&mut self, map: MapOf)
        requires room { length self.old.elements < self.old.room }
        ensures elements { self.new.elements ≡ opened_in map self.old.elements }
        ensures ended { self.new.ended ≡ self.old.ended }
        ensures room { self.new.room ≡ self.old.room }
    {
        let map = setting_or(map, self.map());
        self.elements.push_reserved(Inner {
            record_ends: RecordState::new(),
            setting: MapOf::Parent,
            map,
        });
    }

    /// The innermost element ends, which is of this type.
    pub fn close(&mut self, element: u32)
        ensures elements { self.new.elements ≡ without_first self.old.elements }
        ensures ended { self.new.ended ≡ Some element }
        ensures room { self.new.room ≡ self.old.room }
    {
        let _ = self.elements.pop();
        self.ended = Some(element);
    }

    /// An element of this type ended as it was started.
    pub fn end_at_once(&mut self, element: u32)
        ensures elements { self.new.elements ≡ self.old.elements }
        ensures ended { self.new.ended ≡ Some element }
        ensures room { self.new.room ≡ self.old.room }
    {
        self.ended = Some(element);
    }

    /// A map is set in the innermost element (11.6).
    pub fn set_map(&mut self, map: MapOf)
        ensures elements { self.new.elements ≡ set_in map self.old.elements }
        ensures ended { self.new.ended ≡ self.old.ended }
        ensures room { self.new.room ≡ self.old.room }
    {
        if let Some(inner) = self.elements.pop() {
            self.elements.push_reserved(Inner {
                record_ends: inner.record_ends,
                setting: setting_or(map, inner.setting),
                map: setting_or(map, inner.map),
            });
        }
    }

    /// The map in force in the innermost element; outside all elements no string is mapped.
    pub fn map(&self) -> MapOf
        ensures { result ≡ map_in self.now.elements }
    {
        match self.elements.as_slice().last() {
            Some(inner) => inner.map,
            None => MapOf::Empty,
        }
    }

    /// The type of the element that ended last (7.4.1.1).
    pub fn ended(&self) -> Option<u32>
        ensures { result ≡ self.now.ended }
    {
        self.ended
    }
}
