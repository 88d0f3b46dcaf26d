// Laws of the definitions.
ghost use Rattle.sgml_declared.specs.Files.{EachStoreIsOutside};
ghost use Rattle.sgml_declared.specs.Opening.{WantedAreMissing, GeneralTextsAreOpened, ParameterTextsAreOpened, SubsetsAreOpened};

/// A law: the text that is wanted wouldn't be opened if the store had none of that name, or one that is
/// too large.
pub fn wanted_texts_are_missing()
    ensures { WantedAreMissing }
{}

/// A law: over every store there is an outside of a run with these options.
pub fn each_store_is_outside()
    ensures { EachStoreIsOutside }
{}

/// A law: the reason for which `open` refuses is that of a reference to the text, or of the end of the
/// internal subset.
pub fn references_are_opened()
    ensures general { GeneralTextsAreOpened }
    ensures parameter { ParameterTextsAreOpened }
    ensures subset { SubsetsAreOpened }
{}
