// Laws of storage bytes.
ghost use Rattle.sgml_storage.specs.Fronts.{FrontsAreStored};

/// The storage of a front of a text that ends with a character of a record makes exactly this front, and ends with
/// that character.
pub fn fronts_are_stored()
    ensures { FrontsAreStored }
{}
