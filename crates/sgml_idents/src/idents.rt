// The identifiers of a document.
ghost use Rattle.std.specs.Prelude.{◌≡◌, ◌∷◌, ◌++◌, List, [], OnOk, None, Some, if◌then◌else◌};
ghost use Rattle.sgml_dtd.specs.Doctypes.{Doctype};
ghost use Rattle.sgml_events.specs.declared.event.Event.{Event as Event_};
ghost use Rattle.sgml_names.specs.Index.{names_of};
ghost use Rattle.sgml_said.specs.theory_reading.Types.{is_in};
ghost use Rattle.sgml_said.specs.Told.{attributes_with};
ghost use Rattle.sgml_idents.specs.Judged.{HasNoted, IsJudged, IsJudgedUnless, IsAnswer, HasStart, HasReferences, idrefs_kept, NotesEvent};
ghost use Rattle.sgml_idents.specs.Noted.{judged, dangling_at};

use crate::starts::{add_ids, add_references, has_repeated, some_identify};
use sgml_attr::{AttrValue, Definition};
use sgml_dtd::Dtd;
use sgml_events::Event;
use sgml_names::NameIndex;
use sgml_said::start_definitions;
use sgml_text::{Memory, Name, Place};
use std::alloc::Global;

/// Why the identifiers of a document don't agree, or weren't judged. The place is that of the start.
#[derive(Clone, Copy, Debug, PartialEq, Eq)]
pub enum IdError {
    /// An ID that an earlier start has.
    Repeated(Place),
    /// An IDREF that is the ID of no start.
    Dangling(Place),
    Memory,
}

/// An IDREF, and the place of its start.
#[derive(Debug, Drop)]
pub(crate) struct Reference {
    pub place: Place,
    pub name: Name,
}

/// The identifiers of the starts so far.
#[derive(Drop)]
pub struct Idents {
    alloc: Global,
    pub(crate) ids: NameIndex,
    // those of the starts before the first that repeats an ID
    pub(crate) references: Vec<Reference>,
    pub(crate) repeated: Option<Place>,
}

impl Idents {
    /// Those of no start.
    pub fn new(alloc: Global) -> Idents
        ensures { (dtd : Doctype) → HasNoted result dtd [] }
    {
        Idents {
            alloc,
            ids: NameIndex::new(alloc),
            references: Vec::new(alloc),
            repeated: None,
        }
    }

    /// Notes an event, which is a start or says nothing of identifiers. After an error these identifiers
    /// aren't judged.
    pub fn note(&mut self, dtd: &Dtd, event: &Event) -> Result<(), Memory>
        ensures { OnOk result ((es : List Event_) → HasNoted self.old dtd.now es → HasNoted self.new dtd.now (es ++ event.now ∷ [])) }
    {
        self.note_defined(start_definitions(dtd, event), event)
    }

    /// The same, where the definitions of the values of a start were found.
    #[inline(always)]
    pub fn note_defined(&mut self, definitions: &[Definition], event: &Event) -> Result<(), Memory>
        ensures { OnOk result (NotesEvent self.old self.new definitions.now event.now) }
    {
        match event {
            Event::Start { place, values, .. } => self.note_values(
                definitions,
                *place,
                values.items(),
            ),
            Event::End { .. } => Ok(()),
            Event::Chars(_) => Ok(()),
            Event::Pi { .. } => Ok(()),
            Event::DataRef { .. } => Ok(()),
        }
    }

    // Notes a start with these values, most of which are no identifiers.
    #[inline(always)]
    fn note_values(
        &mut self,
        definitions: &[Definition],
        place: Place,
        values: &[AttrValue],
    ) -> Result<(), Memory>
        ensures { OnOk result (HasStart self.old place (attributes_with definitions.now values.now) self.new) }
    {
        if !some_identify(definitions) {
            return Ok(());
        }
        self.note_start(definitions, place, values)
    }

    #[inline(never)]
    fn note_start(
        &mut self,
        definitions: &[Definition],
        place: Place,
        values: &[AttrValue],
    ) -> Result<(), Memory>
        ensures { OnOk result (HasStart self.old place (attributes_with definitions.now values.now) self.new) }
    {
        self.note_references(definitions, place, values)?;
        add_ids(&mut self.ids, definitions, values)
    }

    // Notes whether the start repeats an ID, or its IDREFs, unless an earlier one repeats an ID.
    fn note_references(
        &mut self,
        definitions: &[Definition],
        place: Place,
        values: &[AttrValue],
    ) -> Result<(), Memory>
        ensures references { OnOk result (HasReferences self.old place (attributes_with definitions.now values.now) self.new) }
        ensures ids { OnOk result (self.new.ids ≡ self.old.ids) }
    {
        if self.repeated.is_some() {
            return Ok(());
        }
        if has_repeated(&self.ids, definitions, values) {
            self.repeated = Some(place);
            return Ok(());
        }
        add_references(self.alloc, &mut self.references, place, definitions, values)
    }

    /// Whether the identifiers agree: the fault is that of the first start with one.
    #[tactic(auto, using(crate::proofs::Faults::is_judged))]
    pub fn judge(&self) -> Result<(), IdError>
        ensures { (dtd : Doctype) (es : List Event_) → HasNoted self.now dtd es → IsJudged dtd es result }
    {
        self.answer()
    }

    fn answer(&self) -> Result<(), IdError>
        ensures { IsAnswer (judged (names_of self.now.ids) (idrefs_kept self.now.references.items) self.now.repeated) result }
    {
        if let Some(place) = first_dangling(&self.ids, &self.references) {
            return Err(IdError::Dangling(place));
        }
        match self.repeated {
            Some(place) => Err(IdError::Repeated(place)),
            None => Ok(()),
        }
    }
}

// The place of the first IDREF that isn't among the IDs.
fn first_dangling(ids: &NameIndex, references: &[Reference]) -> Option<Place>
    ensures { result ≡ dangling_at (names_of ids.now) (idrefs_kept references.now) }
{
    for reference in references {
        if let Some(place) = dangling_place(ids, reference) {
            return Some(place);
        }
    }
    None
}

// The place of an IDREF, unless it is among the IDs.
fn dangling_place(ids: &NameIndex, reference: &Reference) -> Option<Place>
    ensures { result ≡ (if is_in reference.now.name (names_of ids.now) then None else Some reference.now.place) }
{
    match ids.number(reference.name.items()) {
        Some(_) => None,
        None => Some(reference.place),
    }
}

/// Whether the identifiers of these events agree: the fault is that of the first start with one.
pub fn check_ids(alloc: Global, dtd: &Dtd, events: &[Event]) -> Result<(), IdError>
    ensures { IsJudgedUnless dtd.now events.now result }
{
    let mut idents = Idents::new(alloc);
    for event in events {
        match idents.note(dtd, event) {
            Ok(()) => {}
            Err(_) => return Err(IdError::Memory),
        }
    }
    idents.judge()
}
