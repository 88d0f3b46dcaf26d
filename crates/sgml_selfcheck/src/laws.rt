// Laws of checking.
ghost use Rattle.sgml_selfcheck.specs.Checking.{OneCheck};

/// A law: an input has one answer.
pub fn one_check()
    ensures { OneCheck }
{}
