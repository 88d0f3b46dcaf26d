// What the grammar of catalogs says of the definitions.
ghost use Rattle.std.specs.Prelude.{◌≡◌, ℕ, true, false, List, Result, Ok, Err, Some};
ghost use Rattle.sgml_catalog.specs.declared.token.Token.{Token};
ghost use Rattle.sgml_catalog.specs.declared.token.End.{End};
ghost use Rattle.sgml_catalog.specs.declared.entry.Entry.{Entry};
ghost use Rattle.sgml_catalog.specs.Entries.{told};
ghost use Rattle.sgml_catalog.specs.Tokens.{Spells, IsFirst, before_dashes};
ghost use Rattle.sgml_catalog.specs.Words.{AreWords, joined, single};
ghost use Rattle.sgml_catalog.specs.Grammar.{Tells, Refuses};

/// The entries that are told are those of the grammar: a text that ends whole has them exactly where its tokens are of
/// the grammar.
pub fn entries_are_of_the_grammar()
    ensures only { (tokens : List Token) (end : End) (entries : List Entry) →
        told tokens end ≡ Ok entries → (end.is_whole ≡ true) × Tells false tokens entries }
    ensures all { (tokens : List Token) (end : End) (entries : List Entry) →
        end.is_whole ≡ true → Tells false tokens entries → told tokens end ≡ Ok entries }
{}

/// A catalog is refused exactly at the place where, by the grammar, its tokens are of no catalog.
pub fn refusals_are_of_the_grammar()
    ensures only { (tokens : List Token) (end : End) (at : ℕ) →
        told tokens end ≡ Err at → Refuses false tokens end at }
    ensures all { (tokens : List Token) (end : End) (at : ℕ) →
        Refuses false tokens end at → told tokens end ≡ Err at }
{}

/// A text spells one list of tokens, and ends in one way.
pub fn a_text_spells_one_list_of_tokens()
    ensures { (text : List ℕ) (first second : List Token) (end other : End) →
        Spells 0 text first end → Spells 0 text second other → (first ≡ second) × (end ≡ other) }
{}

/// White space made single leaves the words of a text, with one SPACE between any two: each text has its words, and no
/// others.
pub fn white_space_parts_words()
    ensures some { (text : List ℕ) → (words : List (List ℕ)) × AreWords words text }
    ensures single { (words : List (List ℕ)) (text : List ℕ) →
        AreWords words text → single text ≡ joined words }
{}

/// A comment ends with the first `--` behind the one that begins it.
pub fn comments_end_at_their_first_dashes()
    ensures only { (text : List ℕ) (n : ℕ) → before_dashes text ≡ Some n → IsFirst n text }
    ensures all { (text : List ℕ) (n : ℕ) → IsFirst n text → before_dashes text ≡ Some n }
{}
