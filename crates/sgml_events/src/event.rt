// Events.
use crate::stretch::Stretch;
use sgml_attr::Values;
use sgml_text::{ListOf, Place, Text};

/// What is told of a piece of a document. Element types and entities stand by their numbers in the
/// document type.
#[derive(Debug, Drop)]
pub enum Event {
    /// A start-tag (7.4), its place, and a value for each attribute of the element type in the order
    /// of their definitions.
    Start {
        element: u32,
        place: Place,
        values: Values,
    },
    /// An element ends (7.5).
    End {
        element: u32,
    },
    /// Data, of which one stretch may come in several events.
    Chars(Stretch),
    /// A processing instruction (8), by which entity it came where one was referenced, and its place.
    Pi {
        text: Text,
        entity: Option<u32>,
        place: Place,
    },
    /// A reference to an external data entity (10.5.5).
    DataRef {
        entity: u32,
    },
}

/// Events in their order.
pub type Events = ListOf<Event>;
