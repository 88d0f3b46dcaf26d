//! Steps of reading the instance where a reference to a general entity stands, or a short reference
//! string (ISO 8879 7.6.1, 9.4.4, 9.4.6, 10.5).
//!
//! It stands on `sgml_content_steps`, on the steps of `sgml_content_sections` and on files. What a reference or a
//! string comes to is asked first: one to text opens it, and one to an instruction tells it; one to data is content, and
//! is taken behind the tags that are left out before it, as `sgml_content_data` takes characters. The parser uses that
//! what is answered is what stands next, or why nothing does, and that an error leaves all as it was.
#![tactic(auto)]

mod bytes;
mod data_reference;
mod data_string;
mod data_telling;
mod entity;
mod event;
mod instruction;
mod mapped;
mod mapping;
mod opening;
mod ordinary;
mod reference;
mod string;
mod taking;

pub use data_reference::{take_data, take_external};
pub use data_string::{take_data_string, take_external_string};
pub use entity::{Said, said_of};
pub use mapped::try_mapped_text;
pub use mapping::Mapped;
pub use ordinary::take_ordinary;
pub use reference::{Referred, take_reference};
// The reader of the instance reaches the steps that this crate stands on through it.
pub use sgml_content_data as data;
pub use sgml_content_sections as sections;
pub use string::{Strung, take_string};
