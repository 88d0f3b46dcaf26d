// The line of the log where the words are no command.
ghost use Rattle.std.specs.Prelude.{◌≡◌};
ghost use Rattle.sgml_words.specs.Usage.{usage_line};

const USAGE: &[u8] =
    b"usage: sgmlesis [--mode esis|full|check|lines|selfcheck] [--catalog F] [--piece N] [--expand N] FILE\n";

/// The usage line, with its LF. It names what is built.
pub fn usage() -> &'static [u8]
    ensures { result.now ≡ usage_line }
{
    USAGE
}
