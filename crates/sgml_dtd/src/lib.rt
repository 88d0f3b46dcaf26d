//! The tables of a document type: what its declarations say, one after another (ISO 8879 10.5 and
//! 11.1 to 11.6).
//!
//! It stands on the tables of element types, attribute lists, short reference maps and entities. The layers above use that
//! a declaration is refused exactly by the first reason that holds, and that every look-up finds
//! what the declaration that holds says.
#![tactic(auto)]

mod declaring;
mod dtd;
mod laws;

pub use dtd::Dtd;
pub use laws::what_is_found_was_declared;
