// What the standard says of the strings, as laws of the definition.
ghost use Rattle.std.specs.Prelude.{◌≡◌, ◌↔◌, ℕ, Bool, List, Some};
ghost use Rattle.sgml_shortref.specs.declared.matching.Matched.{Matched};
ghost use Rattle.sgml_shortref.specs.Strings.{Matches, AtLeast};
ghost use Rattle.sgml_shortref.specs.Matches.{Answers, answer, matched};

/// The string that is told stands at the head of the text, no string that stands there is longer,
/// and no two strings stand there with one length.
pub fn longest_is_told()
    ensures stands { (text : List ℕ) (number n : ℕ) → answer text ≡ Some (number, n) → Matches text number n }
    ensures longest { (text : List ℕ) (number n : ℕ) → Matches text number n → AtLeast n (answer text) }
    ensures one { (text : List ℕ) (number other n : ℕ) → Matches text number n → Matches text other n → number ≡ other }
{}

/// What is told of a text, whether it has ended or may go on, is a function of it.
pub fn matched_is_told()
    ensures { (ended : Bool) (text : List ℕ) (told : Matched) → Answers ended answer text told ↔ (told ≡ matched ended text) }
{}
