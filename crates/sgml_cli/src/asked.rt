// What the words of the command ask for.
ghost use Rattle.std.specs.Prelude.{◌≡◌, IfOk};
ghost use Rattle.sgml_cli.specs.Asked.{is_document, choices_with};

use sgml_catalog::Catalog;
use sgml_selfcheck::conversion::Options;
use sgml_text::{Memory, Text};
use sgml_words::{Command, Mode};
use std::alloc::Global;
use std::sync::Arc;

/// A document is read in this mode.
pub(crate) fn is_document(mode: &Mode) -> bool
    ensures { result ≡ is_document mode.now }
{
    match mode {
        Mode::Esis | Mode::Full | Mode::Check => true,
        Mode::Lines | Mode::Selfcheck { .. } => false,
    }
}

/// The options of a run of this command, with this catalog, whose file has this name.
pub(crate) fn options_of(
    alloc: Global,
    command: &Command,
    catalog: Catalog,
    catalog_base: Text,
) -> Result<Arc<Options>, Memory>
    ensures { IfOk result (λ options. options.value ≡ choices_with command.now catalog catalog_base) }
{
    let options = Options {
        expand: command.limits.expand,
        catalog,
        catalog_base,
        base: command.file.copy(alloc)?,
    };
    Ok(Arc::new(alloc, options)?)
}
