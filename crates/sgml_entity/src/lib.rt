//! Entities and notations as they were declared, the stack of texts that are being read, and the
//! texts.
//!
//! It stands on texts. The layers above use that the first declaration of a name holds, and that a
//! text isn't opened exactly where one of three reasons holds.
#![tactic(auto)]

mod declaring;
mod kinds;
mod laws;
mod places;
mod texts;

pub use declaring::Entities;
pub use kinds::{Body, Entity, External, Notation, Space};
pub use laws::texts_are_a_map;
pub use places::{InputStack, StackMark, StackRefused};
pub use sgml_names as names;
pub use texts::Texts;
