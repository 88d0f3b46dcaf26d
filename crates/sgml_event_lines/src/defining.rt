// Definitions of notations and entities, each once and before the first line that names it.
ghost use Rattle.std.specs.Prelude.{◌≡◌, ◌+◌, ◌∷◌, [], IsTrue, Some};
ghost use Rattle.std.specs.List.{list_all};
ghost use Rattle.sgml_esis.specs.Spelling.{spell_kind};
ghost use Rattle.sgml_esis.specs.Writing.{PutsInto};
ghost use Rattle.sgml_theory_reading.specs.Types.{notation};
ghost use Rattle.sgml_theory_reading.specs.Lines.{DefineExternal, DefineInternal, external_lines, optional_lines, public_lines, system_lines};
ghost use Rattle.sgml_entity.specs.Entities.{number_of, entity_at};
ghost use Rattle.sgml_entity.specs.declared.kinds.Space.TheVariants.{General};
ghost use Rattle.sgml_event_lines.specs.Spelled.{spelled};
ghost use Rattle.sgml_event_lines.specs.Marks.{is_notation, is_entity_of, is_number_of, body_has};
ghost use Rattle.sgml_event_lines.specs.Standing.{DefinesInto, notation_placed, entity_placed, entities_placed, body_placed, filed};

use crate::marks::{is_marked, set_mark};
use crate::pen::Pen;
use crate::texts::{put_marked, put_name_line, put_single, put_text, put_text_line};
use sgml_dtd::Dtd;
use sgml_entity::{Body, Entity, External, Space};
use sgml_esis::{Held, put};
use sgml_io::Sink;
use sgml_said::entity_name;
use sgml_text::{DataKind, Name, Text};

// The line of a public identifier, if there is one.
fn put_public<O: Sink>(held: &mut Held, sink: &mut O, public: &Option<Text>)
    ensures { PutsInto O.taken O.faults sink.old held.old sink.new held.new (spelled (public_lines public.now)) }
{
    if let Some(text) = public {
        put(held, sink, b"p");
        put_single(held, sink, text.items());
        put(held, sink, b"\n");
    }
}

// The line of a system identifier, if there is one.
fn put_system<O: Sink>(held: &mut Held, sink: &mut O, system: &Option<Text>)
    ensures { PutsInto O.taken O.faults sink.old held.old sink.new held.new (spelled (system_lines system.now)) }
{
    if let Some(text) = system {
        put_text_line(held, sink, b's', text.items());
    }
}

// The lines of an external identifier.
fn put_external<O: Sink>(held: &mut Held, sink: &mut O, external: &External)
    ensures { PutsInto O.taken O.faults sink.old held.old sink.new held.new (spelled (external_lines external.now)) }
{
    put_public(held, sink, &external.public);
    put_system(held, sink, &external.system);
}

// The lines of a notation's external identifier, if it is declared.
fn put_notation_external<O: Sink>(held: &mut Held, sink: &mut O, dtd: &Dtd, name: &Name)
    ensures { PutsInto O.taken O.faults sink.old held.old sink.new held.new (spelled (optional_lines (notation dtd.now name.now))) }
{
    match dtd.entities().notation(name) {
        Some(external) => put_external(held, sink, external),
        None => {}
    }
}

/// Defines a notation, which is declared, unless it was defined.
pub(crate) fn define_notation<O: Sink>(pen: &mut Pen, sink: &mut O, dtd: &Dtd, name: &Name)
    requires { IsTrue (is_notation dtd.now name.now) }
    ensures { DefinesInto dtd.now (notation_placed name.now) O.taken O.faults sink.old pen.old sink.new pen.new }
{
    let Some(number) = dtd.entities().notation_number(name) else {
        return;
    };
    let number = number as usize;
    if is_marked(&pen.notations, number) {
        return;
    }
    put_notation_external(&mut pen.held, sink, dtd, name);
    put_name_line(&mut pen.held, sink, b'N', name.items());
    set_mark(&mut pen.notations, number);
}

// The kind of a data entity, with a blank before it.
fn kind_word(kind: DataKind) -> &'static [u8]
    ensures { result.now ≡ spell_kind kind }
{
    match kind {
        DataKind::Cdata => b" CDATA",
        DataKind::Ndata => b" NDATA",
        DataKind::Sdata => b" SDATA",
    }
}

// The line of an internal data entity.
fn put_internal<O: Sink>(held: &mut Held, sink: &mut O, name: &[u8], kind: DataKind, text: &Text)
    ensures { PutsInto O.taken O.faults sink.old held.old sink.new held.new (spelled (DefineInternal name.now kind text.now ∷ [])) }
{
    put_marked(held, sink, b'I', name);
    put(held, sink, kind_word(kind));
    put_text_line(held, sink, b' ', text.items());
}

// The line of an external data entity.
fn put_external_line<O: Sink>(
    held: &mut Held,
    sink: &mut O,
    name: &[u8],
    kind: DataKind,
    notation: &Name,
)
    ensures { PutsInto O.taken O.faults sink.old held.old sink.new held.new (spelled (DefineExternal name.now kind notation.now ∷ [])) }
{
    put_marked(held, sink, b'E', name);
    put(held, sink, kind_word(kind));
    put_name_line(held, sink, b' ', notation.items());
}

// The lines of an external data entity, its notation before it.
fn define_external<O: Sink>(
    pen: &mut Pen,
    sink: &mut O,
    dtd: &Dtd,
    name: &[u8],
    kind: DataKind,
    external: &External,
    notation: &Name,
)
    requires { IsTrue (is_notation dtd.now notation.now) }
    ensures { DefinesInto dtd.now (filed name.now kind external.now notation.now) O.taken O.faults sink.old pen.old sink.new pen.new }
{
    define_notation(pen, sink, dtd, notation);
    put_external(&mut pen.held, sink, external);
    put_external_line(&mut pen.held, sink, name, kind, notation);
}

// Defines the entity of this name, which has this number less 2 and this body, if it is data.
fn define_body<O: Sink>(
    pen: &mut Pen,
    sink: &mut O,
    dtd: &Dtd,
    index: usize,
    name: &[u8],
    body: &Body,
)
    requires number { number_of dtd.now.entities General name.now ≡ Some (index + 2) }
    requires notation { IsTrue (body_has dtd.now body.now) }
    ensures { DefinesInto dtd.now (body_placed name.now body.now) O.taken O.faults sink.old pen.old sink.new pen.new }
{
    match body {
        Body::Cdata(text) => {
            put_internal(&mut pen.held, sink, name, DataKind::Cdata, text);
            set_mark(&mut pen.entities, index);
        }
        Body::Sdata(text) => {
            put_internal(&mut pen.held, sink, name, DataKind::Sdata, text);
            set_mark(&mut pen.entities, index);
        }
        Body::ExternalData {
            kind,
            external,
            notation,
        } => {
            define_external(pen, sink, dtd, name, *kind, external, notation);
            set_mark(&mut pen.entities, index);
        }
        Body::Sgml(_) => {}
        Body::Pi(_) => {}
        Body::External(_) => {}
    }
}

// Defines the entity of this name and number, if it is data, unless it was defined.
fn define_new<O: Sink>(
    pen: &mut Pen,
    sink: &mut O,
    dtd: &Dtd,
    number: u32,
    name: &[u8],
    entity: &Entity,
)
    requires number { number_of dtd.now.entities General name.now ≡ Some number }
    requires there { entity_at dtd.now.entities number ≡ Some entity.now }
    requires notation { IsTrue (body_has dtd.now entity.now.body) }
    ensures { DefinesInto dtd.now (entity_placed name.now) O.taken O.faults sink.old pen.old sink.new pen.new }
{
    let index = (number as usize).saturating_sub(2);
    if is_marked(&pen.entities, index) {
        return;
    }
    define_body(pen, sink, dtd, index, name, &entity.body);
}

// Defines the entity of this name and number, if it is data, unless it was defined.
fn define_found<O: Sink>(pen: &mut Pen, sink: &mut O, dtd: &Dtd, number: u32, name: &[u8])
    requires number { number_of dtd.now.entities General name.now ≡ Some number }
    requires of { IsTrue (is_entity_of dtd.now name.now) }
    ensures { DefinesInto dtd.now (entity_placed name.now) O.taken O.faults sink.old pen.old sink.new pen.new }
{
    match dtd.entities().get(number) {
        Some(entity) => define_new(pen, sink, dtd, number, name, entity),
        None => {}
    }
}

/// Defines the general entity of a name, if it is data, unless it was defined.
pub(crate) fn define_entity<O: Sink>(pen: &mut Pen, sink: &mut O, dtd: &Dtd, name: &[u8])
    requires { IsTrue (is_entity_of dtd.now name.now) }
    ensures { DefinesInto dtd.now (entity_placed name.now) O.taken O.faults sink.old pen.old sink.new pen.new }
{
    match dtd.entities().find(Space::General, name) {
        Some(number) => define_found(pen, sink, dtd, number, name),
        None => {}
    }
}

/// Defines the entities of these numbers, in their order.
pub(crate) fn define_entities<O: Sink>(pen: &mut Pen, sink: &mut O, dtd: &Dtd, numbers: &[u32])
    requires { IsTrue (list_all (is_number_of dtd.now) numbers.now) }
    ensures { DefinesInto dtd.now (entities_placed numbers.now) O.taken O.faults sink.old pen.old sink.new pen.new }
{
    for number in numbers {
        define_entity(pen, sink, dtd, entity_name(dtd, *number));
    }
}
