//! What stands directly in each open element, beside what is left of its content model: its record ends
//! and the short reference map that was set in it (ISO 8879 7.6.1, 11.6); and the type of the element
//! that ended last (7.4.1.1).
//!
//! It stands on record ends and maps. The parser keeps it beside the open elements, and uses that each
//! call changes it as a piece changes these parts of the state.
#![tactic(auto)]

mod inside;
mod item;
mod laws;
mod map;

pub use inside::Inside;
pub use item::Item;
pub use laws::{inside_is_of_the_state, map_is_in_force};
