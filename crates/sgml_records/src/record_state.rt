// The four facts that a reader keeps of an open element's items.
ghost use Rattle.std.specs.Prelude.{◌≡◌, List, [], ◌∷◌};
ghost use Rattle.sgml_records.specs.Items.{Item, RecordEnd, RecordStart, Data, Subelement, Markup};
ghost use Rattle.sgml_records.specs.Facts.{facts, noted, takes_end};
ghost use Rattle.sgml_records.specs.Puts.{put_at, kept_if, put_of_end as end_put};

use std::marker::Model;

/// What becomes of the record ends of an element at an item of its content.
#[derive(Clone, Copy, Debug, PartialEq, Eq)]
pub enum Put {
    /// None is data here.
    Nothing,
    /// One is data, directly before the item.
    Kept,
    /// The item is a record end that isn't ignored for what stands before it, and waits.
    Held,
}

fn put_if(waited: bool) -> Put
    ensures { result ≡ kept_if waited }
{
    if waited { Put::Kept } else { Put::Nothing }
}

fn put_of_end(live: bool, waited: bool) -> Put
    ensures { result ≡ end_put live waited }
{
    if !live {
        Put::Nothing
    } else if waited {
        Put::Kept
    } else {
        Put::Held
    }
}

/// The record ends of one open element. On a copy, `re` tells whether a record end would be
/// ignored.
#[derive(Clone, Copy, Debug, PartialEq, Eq)]
pub struct RecordState {
    begun: bool,
    after_record: bool,
    content: bool,
    waiting: bool,
}

impl Model for RecordState {
    ghost use Rattle.sgml_records.specs.Facts.{Facts};

    ghost Value = { Facts };

    ghost view = { λ s. record {
      begun = s.begun;
      after_record = s.after_record;
      content = s.content;
      waiting = s.waiting;
    } };

    ghost inverse = { λ f. record {
      begun = f.begun;
      after_record = f.after_record;
      content = f.content;
      waiting = f.waiting;
    } };
}

impl RecordState {
    /// At the start of an element.
    pub fn new() -> Self
        ensures { result ≡ facts [] }
    {
        RecordState {
            begun: false,
            after_record: false,
            content: false,
            waiting: false,
        }
    }

    /// Whether a record end that comes here isn't ignored for what stands before it.
    pub fn is_live(&self) -> bool
        ensures { result ≡ takes_end self.now }
    {
        self.begun && (self.after_record || self.content)
    }

    fn content_comes(&mut self) -> Put
        ensures state { self.new ≡ noted self.old Data }
        ensures put { result ≡ kept_if self.old.waiting }
    {
        let waited = self.waiting;
        *self = RecordState {
            begun: true,
            after_record: false,
            content: true,
            waiting: false,
        };
        put_if(waited)
    }

    /// A record end comes.
    pub fn re(&mut self) -> Put
        ensures state { (earlier : List Item) → self.old ≡ facts earlier → self.new ≡ facts (RecordEnd ∷ earlier) }
        ensures put { (earlier : List Item) → self.old ≡ facts earlier → result ≡ put_at earlier RecordEnd }
        ensures noted { self.new ≡ noted self.old RecordEnd }
        ensures told { result ≡ end_put (takes_end self.old) self.old.waiting }
    {
        let live = self.is_live();
        let waited = self.waiting;
        *self = RecordState {
            begun: true,
            after_record: true,
            content: false,
            waiting: live | waited,
        };
        put_of_end(live, waited)
    }

    /// A record start comes.
    pub fn rs(&mut self)
        ensures state { (earlier : List Item) → self.old ≡ facts earlier → self.new ≡ facts (RecordStart ∷ earlier) }
        ensures noted { self.new ≡ noted self.old RecordStart }
    {
        self.begun = true;
        self.after_record = true;
        self.content = false;
    }

    /// Data comes: one data character or more in a row, or a reference to data.
    pub fn chars(&mut self) -> Put
        ensures state { (earlier : List Item) → self.old ≡ facts earlier → self.new ≡ facts (Data ∷ earlier) }
        ensures put { (earlier : List Item) → self.old ≡ facts earlier → result ≡ put_at earlier Data }
        ensures noted { self.new ≡ noted self.old Data }
        ensures told { result ≡ kept_if self.old.waiting }
    {
        self.content_comes()
    }

    /// A proper subelement comes.
    pub fn proper(&mut self) -> Put
        ensures state { (earlier : List Item) → self.old ≡ facts earlier → self.new ≡ facts (Subelement ∷ earlier) }
        ensures put { (earlier : List Item) → self.old ≡ facts earlier → result ≡ put_at earlier Subelement }
        ensures noted { self.new ≡ noted self.old Subelement }
        ensures told { result ≡ kept_if self.old.waiting }
    {
        self.content_comes()
    }

    /// Markup or an included subelement comes.
    pub fn markup(&mut self)
        ensures state { (earlier : List Item) → self.old ≡ facts earlier → self.new ≡ facts (Markup ∷ earlier) }
        ensures noted { self.new ≡ noted self.old Markup }
    {
        self.after_record = false;
    }

    /// The element ends: a record end that waits is ignored as the last. The state is that of
    /// the start of an element.
    pub fn finish(&mut self)
        ensures { self.new ≡ facts [] }
    {
        *self = RecordState::new();
    }
}
