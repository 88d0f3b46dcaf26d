//! The forms of declarations: what a declaration says, told by its lexemes (ISO 8879 clauses 10 and 11).
//!
//! It stands on `sgml_decl_lexemes`, and on the types of groups, entities and attributes. The tables of a
//! document type use that `read_declaration` gives what the lexemes say, and None exactly where they
//! are of no form.
#![tactic(auto)]

mod attlist;
mod declaration;
mod doctype;
mod element;
mod entity;
mod external;
mod groups;
mod laws;
mod lists;
mod map;
mod words;

pub use attlist::{AttlistDeclaration, AttributeForm};
pub use declaration::{Declaration, read_declaration};
pub use doctype::DoctypeHead;
pub use element::{ContentForm, ElementBody, ElementDeclaration, Omits};
pub use entity::EntityDeclaration;
pub use external::NotationDeclaration;
pub use laws::{attributes_stand_one_after_another, what_is_due_is_the_grammar};
pub use lists::{AttributeForms, GroupTokens, Pairs};
pub use map::{ShortrefDeclaration, UsedMap, UsemapDeclaration};
pub use sgml_decl_lexemes as decl_lexemes;
