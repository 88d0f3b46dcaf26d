// The names of element types, each with the end of its line.
ghost use Rattle.std.specs.Prelude.{◌≡◌, ◌∷◌, ◌++◌, [], IfOk, IfSome};
ghost use Rattle.sgml_esis.specs.Writing.{PutsInto};
ghost use Rattle.sgml_dtd.specs.Doctypes.{Doctype};
ghost use Rattle.sgml_said.specs.Told.{name_at};
ghost use Rattle.sgml_event_lines.specs.Spelled.{closing};
ghost use Rattle.sgml_event_lines.specs.Standing.{AreLines, PutsElementLine};

use crate::texts::put_name_line;
use sgml_dtd::Dtd;
use sgml_esis::{Held, Short, put_byte, put_short_line, put_unseen};
use sgml_io::Sink;
use sgml_said::element_name;
use sgml_text::Memory;
use std::alloc::Global;

/// The names of all element types, with the ends of their lines, where they are short.
pub(crate) fn name_lines(alloc: Global, dtd: &Dtd) -> Result<Vec<Short>, Memory>
    ensures { IfOk result (λ lines. AreLines dtd.now lines.items) }
{
    let mut lines = Vec::with_capacity(alloc, dtd.elements() as usize)?;
    for number in 0..dtd.elements() {
        lines.push(Short::ended(element_name(dtd, number)))?;
    }
    Ok(lines)
}

// The line of an element type, if it is short.
#[inline(always)]
fn short_line(lines: &[Short], element: u32) -> Option<&Short>
    ensures { (d : Doctype) → AreLines d lines.now → IfSome result (λ short. short.now ≡ name_at d element ++ 10 ∷ []) }
{
    match lines.get(element as usize) {
        Some(short) if !short.is_empty() => Some(short),
        _ => None,
    }
}

/// Puts the line of a mark and the name of an element type, behind the end of an open line.
#[inline(always)]
pub(crate) fn put_element_line<O: Sink>(
    held: &mut Held,
    sink: &mut O,
    dtd: &Dtd,
    lines: &[Short],
    within: bool,
    mark: u8,
    element: u32,
)
    ensures { PutsElementLine dtd.now lines.now within mark element O.taken O.faults sink.old held.old sink.new held.new }
{
    if sink.goes_nowhere() {
        put_unseen(held, sink);
        return;
    }
    match short_line(lines, element) {
        Some(short) => put_short_line(held, sink, within, mark, short),
        None => put_long_line(held, sink, within, mark, element_name(dtd, element)),
    }
}

// Puts the same of any name.
#[inline(never)]
fn put_long_line<O: Sink>(held: &mut Held, sink: &mut O, within: bool, mark: u8, name: &[u8])
    ensures { PutsInto O.taken O.faults sink.old held.old sink.new held.new (closing within ++ (mark ∷ name.now ++ 10 ∷ [])) }
{
    put_closing(held, sink, within);
    put_name_line(held, sink, mark, name);
}

// Puts the end of an open line.
pub(crate) fn put_closing<O: Sink>(held: &mut Held, sink: &mut O, within: bool)
    ensures { PutsInto O.taken O.faults sink.old held.old sink.new held.new (closing within) }
{
    if within {
        put_byte(held, sink, b'\n');
    }
}
