// What the standard says of maps and their uses, as laws of the definitions.
ghost use Rattle.std.specs.Prelude.{◌≡◌, ℕ, false, List, Some, None};
ghost use Rattle.std.specs.List.{list_any};
ghost use Rattle.sgml_names.specs.Lists.{has};
ghost use Rattle.sgml_syntax.specs.declared.syntax.Syntax.{Syntax as AnySyntax};
ghost use Rattle.sgml_shortref.specs.Strings.{strings};
ghost use Rattle.sgml_dtd_maps.specs.declared.uses.MapUse.{MapUse as AnyUse};
ghost use Rattle.sgml_dtd_maps.specs.Written.{written_from};
ghost use Rattle.sgml_dtd_maps.specs.Tables.{first_use};
ghost use Rattle.sgml_dtd_maps.specs.InOrder.{Order, table_of, IsFirstUse, IsWritten, AreFoundByName, AreNamed, AreDeclaredMaps, AreDeclaredUses, ReadIsPairs, PairsAreRead};

/// A law: whatever is declared, the number of a name is that of the one map that has it, and each
/// map is the one that a declaration declares.
pub fn each_name_has_the_map_of_one_declaration()
    ensures found { (syntax : AnySyntax) (ds : List Order) → AreFoundByName (table_of syntax ds).maps }
    ensures only { (syntax : AnySyntax) (ds : List Order) → AreNamed (table_of syntax ds).maps }
    ensures declared { (syntax : AnySyntax) (ds : List Order) → AreDeclaredMaps syntax ds (table_of syntax ds).maps }
{}

/// A law: the use that an element type has is the first that names it, it has none exactly where
/// none names it, and whatever is declared, each use is the one that a declaration declares.
pub fn each_type_has_the_first_use_that_names_it()
    ensures found { (uses : List AnyUse) (u : AnyUse) (name : List ℕ) → first_use uses name ≡ Some u → IsFirstUse uses u name }
    ensures only { (uses : List AnyUse) (u : AnyUse) (name : List ℕ) → IsFirstUse uses u name → first_use uses name ≡ Some u }
    ensures none { (uses : List AnyUse) (name : List ℕ) → first_use uses name ≡ None → list_any (λ v. has v.targets name) uses ≡ false }
    ensures declared { (syntax : AnySyntax) (ds : List Order) → AreDeclaredUses syntax ds (table_of syntax ds).uses }
{}

/// A law: the strings that are read of a declaration are those that its literals are, in their
/// order, each once.
pub fn each_literal_is_its_string()
    ensures read { (syntax : AnySyntax) → ReadIsPairs syntax }
    ensures all { (syntax : AnySyntax) → PairsAreRead syntax }
{}

/// A law: a text has the number of the one string that is written so.
pub fn each_string_is_written_once()
    ensures found { (text : List ℕ) (n : ℕ) → written_from 0 strings text ≡ Some n → IsWritten n text }
    ensures only { (text : List ℕ) (n : ℕ) → IsWritten n text → written_from 0 strings text ≡ Some n }
{}
