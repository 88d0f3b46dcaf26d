//! A book of any size, for measuring and for trying the parser: its tags are left out where they
//! may be.
//!
//! It stands on texts alone. The layer above uses that the book is exactly the one that is defined.
#![tactic(auto)]

mod book;

pub use book::{document, sizes_of_documents};
