//! Places of a text of records, in the storage bytes that it was made of.
//!
//! It stands on records. A document that is written again from its storage bytes up to some place uses it.
#![tactic(auto)]

mod laws;
mod storage;

pub use laws::fronts_are_stored;
pub use storage::stored;
