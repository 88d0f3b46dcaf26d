// The bytes of a short reference string, one after another.
ghost use Rattle.std.specs.Prelude.{◌≡◌, ◌+◌, ◌*◌, ◌≤◌, ◌++◌, length, vec_capacity};
ghost use Rattle.std.specs.List.{list_all};
ghost use Rattle.sgml_text.specs.Characters.{is_separator};
ghost use Rattle.sgml_theory_reading.specs.Facets.{byte_item, byte_items};
ghost use Rattle.sgml_inside.specs.Inside.{item_of, facts_of, noted_in};
ghost use Rattle.sgml_content_references.specs.Ordinary.{is_content_where, some_by, all_noted_in, byte_shown, bytes_shown};

use sgml_inside::{Inside, Item};
use sgml_text::is_separator;

/// Whether all are separators.
pub(crate) fn all_separators(string: &[u8]) -> bool
    ensures { result ≡ list_all is_separator string.now }
{
    string.iter().all(|b| is_separator(*b))
}

/// Whether one is content, where a record end that comes first is live or not (7.6.1).
pub(crate) fn some_content(live: bool, string: &[u8]) -> bool
    ensures { result ≡ some_by live string.now }
{
    let mut live = live;
    for i in 0..string.len() {
        if is_content(live, string[i]) {
            return true;
        }
        live = true;
    }
    false
}

fn is_content(live: bool, byte: u8) -> bool
    ensures { result ≡ is_content_where live byte }
{
    match byte {
        b'\r' => live,
        b'\n' => false,
        _ => true,
    }
}

/// Each comes in the innermost element, where none is content.
pub(crate) fn note_separators(inside: &mut Inside, string: &[u8])
    ensures elements { inside.new.elements ≡ all_noted_in (byte_items string.now) inside.old.elements }
    ensures ended { inside.new.ended ≡ inside.old.ended }
    ensures places { inside.new.room ≡ inside.old.room }
{
    for i in 0..string.len() {
        let _ = inside.note(item_of_byte(string[i]));
    }
}

/// Each comes in the innermost element; those that are data are told, and record ends that they put out.
pub(crate) fn note_bytes(inside: &mut Inside, string: &[u8], out: &mut Vec<u8>)
    requires room { length out.old.items + 2 * length string.now ≤ vec_capacity out.old }
    ensures elements { inside.new.elements ≡ all_noted_in (byte_items string.now) inside.old.elements }
    ensures ended { inside.new.ended ≡ inside.old.ended }
    ensures places { inside.new.room ≡ inside.old.room }
    ensures out { out.new.items ≡ out.old.items ++ bytes_shown inside.old.elements string.now }
{
    for i in 0..string.len() {
        note_byte(inside, string[i], out);
    }
}

fn note_byte(inside: &mut Inside, byte: u8, out: &mut Vec<u8>)
    requires room { length out.old.items + 2 ≤ vec_capacity out.old }
    ensures elements { inside.new.elements ≡ noted_in (byte_item byte) inside.old.elements }
    ensures ended { inside.new.ended ≡ inside.old.ended }
    ensures places { inside.new.room ≡ inside.old.room }
    ensures out { out.new.items ≡ out.old.items ++ byte_shown (facts_of inside.old.elements) byte }
    ensures few { length out.new.items ≤ length out.old.items + 2 }
    ensures capacity { vec_capacity out.new ≡ vec_capacity out.old }
{
    let item = item_of_byte(byte);
    if inside.note(item) {
        out.push_reserved(b'\r');
    }
    if item == Item::Data {
        out.push_reserved(byte);
    }
}

fn item_of_byte(byte: u8) -> Item
    ensures { item_of result ≡ byte_item byte }
{
    match byte {
        b'\r' => Item::RecordEnd,
        b'\n' => Item::RecordStart,
        _ => Item::Data,
    }
}
