//! The short reference maps of a document type and the element types that they are tied to (ISO 8879
//! 11.5, 11.6).
//!
//! It stands on texts, the syntax, names, short reference strings and the forms of declarations. The
//! layers above use that an element type's map is that of the first use that names it, and that a
//! declaration is refused exactly for the first reason that holds.
#![tactic(auto)]

mod laws;
mod pairs;
mod table;
mod uses;

pub use laws::{
    each_literal_is_its_string, each_name_has_the_map_of_one_declaration,
    each_string_is_written_once, each_type_has_the_first_use_that_names_it,
};
pub use sgml_shortref as shortref;
pub use table::MapTables;
pub use uses::{MapOf, MapUse};
