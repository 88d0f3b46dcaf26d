// Laws of inputs.
ghost use Rattle.sgml_source.specs.Inputs.{EachFileIsInput};

/// A law: each file is an input, whatever the options.
pub fn each_file_is_input()
    ensures { EachFileIsInput }
{}
