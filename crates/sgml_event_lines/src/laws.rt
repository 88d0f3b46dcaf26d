// Laws of lines of events.
ghost use Rattle.sgml_event_lines.specs.Lines.{AreThoseOfReading};
ghost use Rattle.sgml_event_lines.specs.ReadBack.{AreReadBack};

/// A law: the lines of events are those of what was read, where the document conforms if it is over and
/// its identifiers agree.
pub fn lines_are_those_of_reading()
    ensures { AreThoseOfReading }
{}

/// A law: what is written of events whose names are words is a file of lines, and is read back as their
/// lines, unless there is no memory.
pub fn lines_are_read_back()
    ensures { AreReadBack }
{}
