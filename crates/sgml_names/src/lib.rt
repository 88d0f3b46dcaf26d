//! Names as a document's syntax has them, folded or as they are spelled, and how long they may be
//! (ISO 8879 13.4.5, 13.4.8); lists of names, and tables of names with their numbers.
//!
//! It stands on texts and the syntax. The tables of declarations use that a name is folded exactly
//! where NAMECASE says so, that it is too long exactly where it passes NAMELEN, and that a table
//! finds a name exactly where it was added.
#![tactic(auto)]

mod entry;
mod hashing;
mod index;
mod laws;
mod lists;
mod names;
mod slots;

pub use index::{NameIndex, TABLE_LIMIT};
pub use laws::{a_name_that_repeats_stands_twice, the_first_of_a_name_is_found};
pub use lists::{any_found, any_seen, has, repeats, see};
pub use names::{any_long, cased_character, entity_name, general_name, general_names, is_long};
