// A writer of events.
ghost use Rattle.std.specs.List.{list_all};
ghost use Rattle.std.specs.Prelude.{◌≡◌, ◌∷◌, ℕ, List, Option, [], None, false, true, IfOk, IsTrue, is_err};
ghost use Rattle.sgml_text.specs.Units.{characters};
ghost use Rattle.sgml_esis.specs.Writing.{PutsInto};
ghost use Rattle.sgml_theory_reading.specs.Lines.{appinfo_lines, lines_of, conforming_lines, StartLine, FinishLine};
ghost use Rattle.sgml_said.specs.Told.{said, said_data, name_at, start_attributes, attributes_of};
ghost use Rattle.sgml_event_lines.specs.Spelled.{spelled, closing, beginning};
ghost use Rattle.sgml_event_lines.specs.Marks.{is_event_of, is_value_of};
ghost use Rattle.sgml_event_lines.specs.Standing.{StandsAfter, WritesEvent, EndsLines, EndsByCause, GoesInto, SameMarks, PutsName, StartsInto, SaysData, is_other};

use crate::marks::no_marks;
use crate::names::{name_lines, put_element_line};
use crate::pen::Pen;
use crate::texts::{put_data_text, put_text_line, put_units};
use crate::values::{put_attributes, put_lines};
use sgml_attr::{AttrValue, Definition};
use sgml_dtd::Dtd;
use sgml_esis::{Held, Short, flush, put, put_byte};
use sgml_events::{Event, Parts, Stretch};
use sgml_io::{Sink, SinkFault};
use sgml_said::start_definitions;
use sgml_text::{Memory, Text, Unit};
use std::alloc::Global;

/// Writes the lines of events, one event after another. Neighbouring data is one line, and each
/// notation and entity is defined once, directly before the first line that names it.
#[derive(Drop)]
pub struct Writer {
    pub(crate) pen: Pen,
    // APPINFO, until it is put
    pub(crate) head: Option<Text>,
    // a line of data is open
    pub(crate) within: bool,
    // the names of the element types, each with the end of its line, where they are short
    pub(crate) lines: Vec<Short>,
}

// The same text, if there is one.
fn copied(alloc: Global, text: &Option<Text>) -> Result<Option<Text>, Memory>
    ensures { IfOk result (λ copy. copy ≡ text.now) }
{
    match text {
        Some(text) => Ok(Some(text.copy(alloc)?)),
        None => Ok(None),
    }
}

impl Writer {
    /// A writer for the events of a document type whose declarations are all there.
    pub fn begin(alloc: Global, dtd: &Dtd) -> Result<Writer, Memory>
        ensures { IfOk result (λ writer. (start : Option (List ℕ)) (count : ℕ) → StandsAfter start count start count writer dtd.now []) }
    {
        let head = copied(alloc, &dtd.syntax().appinfo)?;
        let entities = no_marks(alloc, dtd.entities().count() as usize)?;
        let notations = no_marks(alloc, dtd.entities().notations() as usize)?;
        let lines = name_lines(alloc, dtd)?;
        Ok(Writer {
            pen: Pen {
                held: Held::new(),
                entities,
                notations,
            },
            head,
            within: false,
            lines,
        })
    }

    /// Writes the lines of an event. The document type has the tables that `begin` was given. After a
    /// fault the sink has a front of the lines, and the writer isn't used again.
    pub fn write<O: Sink>(
        &mut self,
        dtd: &Dtd,
        event: &Event,
        sink: &mut O,
    ) -> Result<(), SinkFault>
        requires { IsTrue (is_event_of dtd.now event.now) }
        ensures goes_on { WritesEvent dtd.now event.now O.taken O.faults sink.old self.old sink.new self.new }
        ensures fault { is_err result ≡ self.new.pen.held.1 }
    {
        self.write_defined(dtd, start_definitions(dtd, event), event, sink)
    }

    /// The same, where the definitions of the values of a start were found.
    #[inline(always)]
    pub fn write_defined<O: Sink>(
        &mut self,
        dtd: &Dtd,
        definitions: &[Definition],
        event: &Event,
        sink: &mut O,
    ) -> Result<(), SinkFault>
        requires of { IsTrue (is_event_of dtd.now event.now) }
        requires defined { start_attributes definitions.now event.now ≡ attributes_of dtd.now event.now }
        ensures goes_on { WritesEvent dtd.now event.now O.taken O.faults sink.old self.old sink.new self.new }
        ensures fault { is_err result ≡ self.new.pen.held.1 }
    {
        self.put_event(dtd, definitions, event, sink);
        if self.pen.held.failed() {
            return Err(SinkFault);
        }
        Ok(())
    }

    /// Ends the lines, with `C` exactly where the document conforms. The writer isn't used again.
    pub fn finish<O: Sink>(&mut self, conforming: bool, sink: &mut O) -> Result<(), SinkFault>
        ensures bytes { EndsLines conforming O.taken O.faults sink.old self.old sink.new result }
        ensures cause { EndsByCause O.taken O.faults sink.old self.old sink.new result }
    {
        self.put_head(sink);
        self.close(sink);
        put_conforming(&mut self.pen.held, sink, conforming);
        flush(&mut self.pen.held, sink);
        if self.pen.held.failed() {
            return Err(SinkFault);
        }
        Ok(())
    }

    // Puts the line of APPINFO, unless it was put or there is none.
    #[inline(always)]
    fn put_head<O: Sink>(&mut self, sink: &mut O)
        ensures puts { PutsInto O.taken O.faults sink.old self.old.pen.held sink.new self.new.pen.held (spelled (appinfo_lines self.old.head)) }
        ensures head { self.new.head ≡ None }
        ensures within { self.new.within ≡ self.old.within }
        ensures marks { SameMarks self.old.pen self.new.pen }
        ensures lines { self.new.lines ≡ self.old.lines }
    {
        if self.head.is_some() {
            self.put_appinfo(sink);
        }
    }

    #[cold]
    #[inline(never)]
    fn put_appinfo<O: Sink>(&mut self, sink: &mut O)
        ensures puts { PutsInto O.taken O.faults sink.old self.old.pen.held sink.new self.new.pen.held (spelled (appinfo_lines self.old.head)) }
        ensures head { self.new.head ≡ None }
        ensures within { self.new.within ≡ self.old.within }
        ensures marks { SameMarks self.old.pen self.new.pen }
        ensures lines { self.new.lines ≡ self.old.lines }
    {
        if let Some(text) = self.head.take() {
            put_text_line(&mut self.pen.held, sink, b'#', text.items());
        }
    }

    // Ends an open line of data.
    fn close<O: Sink>(&mut self, sink: &mut O)
        ensures puts { PutsInto O.taken O.faults sink.old self.old.pen.held sink.new self.new.pen.held (closing self.old.within) }
        ensures head { self.new.head ≡ self.old.head }
        ensures within { self.new.within ≡ false }
        ensures marks { SameMarks self.old.pen self.new.pen }
        ensures lines { self.new.lines ≡ self.old.lines }
    {
        if self.within {
            put_byte(&mut self.pen.held, sink, b'\n');
            self.within = false;
        }
    }

    // Begins a line of data, unless one is open.
    fn open_data<O: Sink>(&mut self, sink: &mut O)
        ensures puts { PutsInto O.taken O.faults sink.old self.old.pen.held sink.new self.new.pen.held (beginning self.old.within) }
        ensures head { self.new.head ≡ self.old.head }
        ensures within { self.new.within ≡ true }
        ensures marks { SameMarks self.old.pen self.new.pen }
        ensures lines { self.new.lines ≡ self.old.lines }
    {
        if !self.within {
            put_byte(&mut self.pen.held, sink, b'-');
            self.within = true;
        }
    }

    // Puts the line of an element type, behind the end of an open line of data.
    #[inline(always)]
    fn put_name<O: Sink>(&mut self, dtd: &Dtd, mark: u8, element: u32, sink: &mut O)
        ensures puts { PutsName dtd.now mark element O.taken O.faults sink.old self.old sink.new self.new }
        ensures head { self.new.head ≡ self.old.head }
        ensures within { self.new.within ≡ false }
        ensures marks { SameMarks self.old.pen self.new.pen }
        ensures lines { self.new.lines ≡ self.old.lines }
    {
        put_element_line(
            &mut self.pen.held,
            sink,
            dtd,
            &self.lines,
            self.within,
            mark,
            element,
        );
        self.within = false;
    }

    // Puts the line of an element's end.
    #[inline(always)]
    fn put_end<O: Sink>(&mut self, dtd: &Dtd, element: u32, sink: &mut O)
        ensures { GoesInto dtd.now (FinishLine (name_at dtd.now element) ∷ []) O.taken O.faults sink.old self.old sink.new self.new }
    {
        self.put_head(sink);
        self.put_name(dtd, b')', element, sink);
    }

    // Puts the lines of a start, which mostly has no values.
    #[inline(always)]
    fn put_start<O: Sink>(
        &mut self,
        dtd: &Dtd,
        definitions: &[Definition],
        element: u32,
        values: &[AttrValue],
        sink: &mut O,
    )
        requires { IsTrue (list_all (is_value_of dtd.now) values.now) }
        ensures { StartsInto dtd.now definitions.now element values.now O.taken O.faults sink.old self.old sink.new self.new }
    {
        match values {
            [] => self.put_bare_start(dtd, element, sink),
            _ => self.put_full_start(dtd, definitions, element, values, sink),
        }
    }

    // Puts the line of a start.
    #[inline(always)]
    fn put_bare_start<O: Sink>(&mut self, dtd: &Dtd, element: u32, sink: &mut O)
        ensures { GoesInto dtd.now (StartLine (name_at dtd.now element) ∷ []) O.taken O.faults sink.old self.old sink.new self.new }
    {
        self.put_head(sink);
        self.put_name(dtd, b'(', element, sink);
    }

    // Puts the lines of a start, behind those of its values.
    #[inline(never)]
    fn put_full_start<O: Sink>(
        &mut self,
        dtd: &Dtd,
        definitions: &[Definition],
        element: u32,
        values: &[AttrValue],
        sink: &mut O,
    )
        requires { IsTrue (list_all (is_value_of dtd.now) values.now) }
        ensures { StartsInto dtd.now definitions.now element values.now O.taken O.faults sink.old self.old sink.new self.new }
    {
        self.put_head(sink);
        self.close(sink);
        put_attributes(&mut self.pen, sink, dtd, definitions, values);
        self.put_name(dtd, b'(', element, sink);
    }

    // Puts data, which joins an open line.
    #[inline(always)]
    fn put_data<O: Sink>(&mut self, dtd: &Dtd, stretch: &Stretch, sink: &mut O)
        ensures { GoesInto dtd.now (lines_of dtd.now (said_data dtd.now stretch.now)) O.taken O.faults sink.old self.old sink.new self.new }
    {
        match stretch.parts() {
            Parts::Bytes(bytes) => self.put_bytes(bytes, sink),
            Parts::Units(units) => self.put_unit_data(dtd, units, sink),
        }
    }

    // Puts characters as they stand.
    #[inline(always)]
    fn put_bytes<O: Sink>(&mut self, bytes: &[u8], sink: &mut O)
        ensures { SaysData (characters bytes.now) O.taken O.faults sink.old self.old sink.new self.new }
    {
        if bytes.is_empty() {
            return;
        }
        self.put_head(sink);
        put_data_text(&mut self.pen.held, sink, self.within, bytes);
        self.within = true;
    }

    // Puts units.
    #[inline(never)]
    fn put_unit_data<O: Sink>(&mut self, dtd: &Dtd, units: &[Unit], sink: &mut O)
        ensures { GoesInto dtd.now (lines_of dtd.now (said_data dtd.now units.now)) O.taken O.faults sink.old self.old sink.new self.new }
    {
        if units.is_empty() {
            return;
        }
        self.put_head(sink);
        self.open_data(sink);
        put_units(&mut self.pen.held, sink, dtd, units);
    }

    // Puts the lines of an event that is neither data nor a tag.
    #[inline(never)]
    fn put_mark<O: Sink>(&mut self, dtd: &Dtd, event: &Event, sink: &mut O)
        requires of { IsTrue (is_event_of dtd.now event.now) }
        requires mark { is_other event.now ≡ true }
        ensures { GoesInto dtd.now (lines_of dtd.now (said dtd.now event.now)) O.taken O.faults sink.old self.old sink.new self.new }
    {
        self.put_head(sink);
        self.close(sink);
        put_lines(&mut self.pen, sink, dtd, event);
    }

    #[inline(always)]
    fn put_event<O: Sink>(
        &mut self,
        dtd: &Dtd,
        definitions: &[Definition],
        event: &Event,
        sink: &mut O,
    )
        requires of { IsTrue (is_event_of dtd.now event.now) }
        requires defined { start_attributes definitions.now event.now ≡ attributes_of dtd.now event.now }
        ensures { GoesInto dtd.now (lines_of dtd.now (said dtd.now event.now)) O.taken O.faults sink.old self.old sink.new self.new }
    {
        match event {
            Event::Chars(stretch) => self.put_data(dtd, stretch, sink),
            Event::Start {
                element,
                values,
                ..
            } => self.put_start(dtd, definitions, *element, values.items(), sink),
            Event::End { element } => self.put_end(dtd, *element, sink),
            Event::Pi { .. } => self.put_mark(dtd, event, sink),
            Event::DataRef { .. } => self.put_mark(dtd, event, sink),
        }
    }
}

// Puts the last line, where the document conforms.
fn put_conforming<O: Sink>(held: &mut Held, sink: &mut O, conforming: bool)
    ensures { PutsInto O.taken O.faults sink.old held.old sink.new held.new (spelled (conforming_lines conforming)) }
{
    if conforming {
        put(held, sink, b"C\n");
    }
}
