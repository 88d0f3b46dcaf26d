//! What a run is set to before its document is read: by a catalog, and by the SGML declaration that it names.
//!
//! It stands on stores, on catalogs, on SGML declarations and on the texts of a document. The command uses that the settings are
//! those that the files of the store make, or that a file can't be read at this place, for this reason.
#![tactic(auto)]

mod bad_file;
mod catalog;
mod declaration;
mod laws;
mod setting;
mod text;

pub use bad_file::{BadFile, CATALOG, DECLARATION, SettingsError};
pub use laws::{each_run_is_set, one_setting};
pub use setting::{Settings, read_settings};
