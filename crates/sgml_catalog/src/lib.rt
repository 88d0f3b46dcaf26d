//! Catalogs, by which the identifiers of entities are resolved to files (OASIS TR9401).
//!
//! A catalog's text is a list of tokens, its entries are a list that the tokens tell, and resolving is a search in
//! that list. The code keeps a map, so a search costs no walk of the entries. Stands on texts and external identifiers.
#![tactic(auto)]

mod catalog;
mod entry;
mod index;
mod item;
mod keyword;
mod laws;
mod noting;
mod reading;
mod token;
mod white;

pub use catalog::{Catalog, Kind, Resolved, read_catalog};
pub use entry::{Entry, Sort};
pub use laws::{
    a_text_spells_one_list_of_tokens, comments_end_at_their_first_dashes,
    entries_are_of_the_grammar, refusals_are_of_the_grammar, white_space_parts_words,
};
pub use reading::CatalogError;
