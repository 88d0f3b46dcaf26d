//! Hashes of names, by which many names are told apart at once: names whose hashes differ differ.
//!
//! It stands on `sgml_text`. The layers above use that, where no two hashes are alike, no two of the
//! names are; where two are alike, they look at the names.
#![tactic(auto)]

mod hashes;
mod rising;

pub use hashes::NameHashes;
