// Lines as bytes.
ghost use Rattle.std.specs.Prelude.{◌≡◌, ◌+◌, ◌≤◌, ◌∷◌, ◌++◌, length};
ghost use Rattle.sgml_io.specs.Causes.{CountsFault};
ghost use Rattle.sgml_io.specs.Writes.{Writes};
ghost use Rattle.sgml_esis.specs.Spelling.{spell_unit, spell_escaped, spell_kind, spell_names, spell_content, spell_line, spell_lines};
ghost use Rattle.sgml_esis.specs.Writing.{PutsInto};

use crate::held::{Held, flush, make_room, put};
use crate::line::{EscUnit, Escaped, Line, Units};
use sgml_io::{Sink, SinkFault};
use sgml_text::{DataKind, Name};

/// Writes lines. At a fault the sink has taken a front of their bytes.
pub fn write_lines<O: Sink>(lines: &[Line], sink: &mut O) -> Result<(), SinkFault>
    ensures bytes { Writes (O.taken sink.old) (O.taken sink.new) result (spell_lines lines.now) }
    ensures cause { CountsFault (O.faults sink.old) (O.faults sink.new) result }
{
    let mut held = Held::new();
    for line in lines {
        put_line(&mut held, sink, line);
    }
    flush(&mut held, sink);
    if held.failed() {
        return Err(SinkFault);
    }
    Ok(())
}

fn put_line<O: Sink>(held: &mut Held, sink: &mut O, line: &Line)
    ensures { PutsInto O.taken O.faults sink.old held.old sink.new held.new (spell_line line.now) }
{
    put_content(held, sink, line);
    put(held, sink, &[10]);
}

fn put_content<O: Sink>(held: &mut Held, sink: &mut O, line: &Line)
    ensures { PutsInto O.taken O.faults sink.old held.old sink.new held.new (spell_content line.now) }
{
    match line {
        Line::Start(name) => put_marked(held, sink, b'(', name.items()),
        Line::Finish(name) => put_marked(held, sink, b')', name.items()),
        Line::Chars(text) => put_text(held, sink, b'-', text),
        Line::DataRef(name) => put_marked(held, sink, b'&', name.items()),
        Line::Pi(text) => put_text(held, sink, b'?', text),
        Line::Implied(name) => put_field(held, sink, b'A', name.items(), b" IMPLIED"),
        Line::Cdata(name, text) => {
            put_field(held, sink, b'A', name.items(), b" CDATA ");
            put_escaped(held, sink, text.item());
        }
        Line::Notation(name, notation) => {
            put_field(held, sink, b'A', name.items(), b" NOTATION ");
            put(held, sink, notation.item().items());
        }
        Line::Entity(name, names) => {
            put_field(held, sink, b'A', name.items(), b" ENTITY");
            put_names(held, sink, names.item().items());
        }
        Line::Token(name, tokens) => {
            put_field(held, sink, b'A', name.items(), b" TOKEN");
            put_names(held, sink, tokens.item().items());
        }
        Line::DefineNotation(name) => put_marked(held, sink, b'N', name.items()),
        Line::DefineExternal(name, kind, notation) => {
            put_field(held, sink, b'E', name.item().items(), kind_word(*kind));
            put_marked(held, sink, b' ', notation.item().items());
        }
        Line::DefineInternal(name, kind, text) => {
            put_field(held, sink, b'I', name.item().items(), kind_word(*kind));
            put_text(held, sink, b' ', text.item());
        }
        Line::Public(text) => put_text(held, sink, b'p', text),
        Line::System(text) => put_text(held, sink, b's', text),
        Line::AppInfo(text) => put_text(held, sink, b'#', text),
        Line::Conforming => put(held, sink, b"C"),
    }
}

// The kind of a data entity, with a blank before it.
fn kind_word(kind: DataKind) -> &'static [u8]
    ensures { result.now ≡ spell_kind kind }
{
    match kind {
        DataKind::Cdata => b" CDATA",
        DataKind::Ndata => b" NDATA",
        DataKind::Sdata => b" SDATA",
    }
}

// A byte and bytes.
fn put_marked<O: Sink>(held: &mut Held, sink: &mut O, mark: u8, bytes: &[u8])
    ensures { PutsInto O.taken O.faults sink.old held.old sink.new held.new (mark ∷ bytes.now) }
{
    put(held, sink, &[mark]);
    put(held, sink, bytes);
}

// A byte and a text.
fn put_text<O: Sink>(held: &mut Held, sink: &mut O, mark: u8, text: &Escaped)
    ensures { PutsInto O.taken O.faults sink.old held.old sink.new held.new (mark ∷ spell_escaped text.now) }
{
    put(held, sink, &[mark]);
    put_escaped(held, sink, text);
}

// A byte, a name and a word.
fn put_field<O: Sink>(held: &mut Held, sink: &mut O, mark: u8, name: &[u8], word: &[u8])
    ensures { PutsInto O.taken O.faults sink.old held.old sink.new held.new (mark ∷ name.now ++ word.now) }
{
    put_marked(held, sink, mark, name);
    put(held, sink, word);
}

// Names, each after a blank.
fn put_names<O: Sink>(held: &mut Held, sink: &mut O, names: &[Name])
    ensures { PutsInto O.taken O.faults sink.old held.old sink.new held.new (spell_names names.now) }
{
    for name in names {
        put_marked(held, sink, b' ', name.items());
    }
}

fn put_escaped<O: Sink>(held: &mut Held, sink: &mut O, text: &Escaped)
    ensures { PutsInto O.taken O.faults sink.old held.old sink.new held.new (spell_escaped text.now) }
{
    match &text.units {
        Units::Plain(bytes) => put(held, sink, bytes.items()),
        Units::Any(units) => put_units(held, sink, units),
    }
}

fn put_units<O: Sink>(held: &mut Held, sink: &mut O, text: &[EscUnit])
    ensures { PutsInto O.taken O.faults sink.old held.old sink.new held.new (spell_escaped text.now) }
{
    for unit in text {
        make_room(held, sink);
        hold_unit(held, *unit);
    }
}

fn hold_unit(held: &mut Held, unit: EscUnit)
    requires { length held.old.0 + 4 ≤ 16384 }
    ensures { held.new ≡ (held.old.0 ++ spell_unit unit, held.old.1) }
{
    match unit {
        EscUnit::Byte(92) => held.extend(&[92, 92]),
        EscUnit::Byte(13) => held.extend(&[92, b'n']),
        EscUnit::Byte(b) if b < 32 => held.extend(&[92, 48, 48 + b / 8, 48 + b % 8]),
        EscUnit::Byte(b) => held.push(b),
        EscUnit::Bar => held.extend(&[92, b'|']),
    }
}
