// Lists that contracts see as their items.
use crate::attlist::AttributeForm;
use sgml_model::GroupToken;
use sgml_text::{ListOf, Name, Text};

/// The tokens of a model group, with its mark.
pub type GroupTokens = ListOf<GroupToken>;

/// The definitions of an attribute list.
pub type AttributeForms = ListOf<AttributeForm>;

/// The strings of a short reference map with the names of their entities.
pub type Pairs = ListOf<(Text, Name)>;
