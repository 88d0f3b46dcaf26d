// Room for the open elements of a document type.
ghost use Rattle.std.specs.Prelude.{◌≡◌, ℕ, ◌≤◌, All, IfOk, length};
ghost use Rattle.sgml_automaton.specs.Position.{room as room_in};
ghost use Rattle.sgml_automaton.specs.Automaton.{bits_in};
ghost use Rattle.sgml_dtd_elements.specs.Laws.{AreDistinct};
ghost use Rattle.sgml_infer.specs.Tables.{model_at, IsNumber};

use crate::level::Level;
use sgml_automaton::ModelState;
use sgml_dtd::Dtd;
use sgml_dtd_elements::Content;
use sgml_text::Memory;
use std::alloc::Global;

// How many AND members the model of an element has.
fn room_of(dtd: &Dtd, element: u32) -> u32
    requires { IsNumber dtd.now element }
    ensures { result ≡ room_in (model_at dtd.now element) }
{
    match dtd.content(element) {
        Content::Model(automaton) => automaton.room(),
        _ => 0,
    }
}

// The most AND members that one of the models has.
pub(crate) fn most_room(dtd: &Dtd) -> u32
    ensures room { (i : ℕ) → room_in (model_at dtd.now i) ≤ result }
    ensures distinct { AreDistinct dtd.now.elements }
{
    let mut most = 0;
    for element in 0..dtd.elements() {
        most = most.max(room_of(dtd, element));
    }
    most
}

// Places for so many open elements, each with bits for so many AND members.
pub(crate) fn slots(alloc: Global, count: u32, room: u32) -> Result<Vec<Level>, Memory>
    ensures length { IfOk result (λ levels. length levels.items ≡ count) }
    ensures rooms { IfOk result (λ levels. All (λ l. bits_in l.state ≡ room) levels.items) }
{
    let mut levels = Vec::new(alloc);
    for _ in 0..count {
        let state = ModelState::new(alloc, room)?;
        levels.push(Level {
            element: 0,
            state,
            position: 0,
            slash: false,
            within_net: false,
            excepted: 0,
        })?;
    }
    Ok(levels)
}
