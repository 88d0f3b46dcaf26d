// What the grammar of the words says of the definitions.
ghost use Rattle.std.specs.Prelude.{◌≡◌, ◌↔◌, ℕ, List, Some};
ghost use Rattle.sgml_words.specs.Says.{IsOf};
ghost use Rattle.sgml_words.specs.Uses.{command_of as command_spelled};
ghost use Rattle.sgml_words.specs.declared.command.Command.{Command};

/// The function by which the words are judged answers the command that they are by the grammar, and none where they are
/// none.
pub fn words_are_of_the_grammar()
    ensures { (words : List (List ℕ)) (c : Command) →
        (command_spelled words ≡ Some c) ↔ IsOf words c }
{}
