// An open element.
use sgml_automaton::ModelState;

#[derive(Drop)]
pub(crate) struct Level {
    // Its number, and what is left of its model.
    pub(crate) element: u32,
    pub(crate) state: ModelState,
    // Where it stands in its model: 0 at the start, else one more than the token that it took last.
    pub(crate) position: u64,
    // It enabled NET.
    pub(crate) slash: bool,
    // It or one further out enabled NET.
    pub(crate) within_net: bool,
    // How many elements are open up to the nearest one with exceptions, itself or one further out; 0
    // where none has any.
    pub(crate) excepted: u32,
}
