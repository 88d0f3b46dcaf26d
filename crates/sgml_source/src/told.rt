// What is told of a document from turn to turn.
use sgml_events::Event;
use sgml_text::Refusal;

/// What is told next.
#[derive(Debug, Drop)]
pub enum Told {
    Event(Event),
    /// The document type has been read.
    Prolog,
    Finished,
    Refused(Refusal),
}

/// Where reading of many events pauses.
#[derive(Clone, Copy, Debug, PartialEq, Eq)]
pub enum Paused {
    /// The events so far are to be taken. The next call reads on.
    Going,
    Finished,
    Refused(Refusal),
}
