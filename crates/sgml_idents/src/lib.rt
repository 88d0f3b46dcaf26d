//! Whether the identifiers of a document agree (ISO 8879 7.9.4).
//!
//! It stands on what events say. The layers above use that the fault is that of the first start with
//! one, a repeated ID before an IDREF without its ID.
#![tactic(auto)]

mod idents;
mod starts;

pub use idents::{IdError, Idents, check_ids};
