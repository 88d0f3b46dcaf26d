// What a run is asked for.
use sgml_catalog::Catalog;
use sgml_text::Text;

/// The options of a run that what is read depends on.
#[derive(Drop)]
pub struct Options {
    /// The lengths of all texts that are opened may have this sum.
    pub expand: u64,
    pub catalog: Catalog,
    /// The name of the catalog's file.
    pub catalog_base: Text,
    /// The name of the document's file.
    pub base: Text,
}
