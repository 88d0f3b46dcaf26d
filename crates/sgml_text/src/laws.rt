// Laws of the definitions.
ghost use Rattle.std.specs.Prelude.{◌≡◌, Bool, false, List, Some, None};
ghost use Rattle.std.specs.List.{list_any};
ghost use Rattle.sgml_text.specs.Refusals.{first_row, IsFirstRow};

/// A law: of a table of reasons of any kind, the one that is told is the first that holds, and none
/// is told exactly where none holds.
pub fn first_row_is_told<R>()
    ensures told { (rows : List (Bool × R)) (reason : R) → first_row rows ≡ Some reason → IsFirstRow rows reason }
    ensures holds { (rows : List (Bool × R)) (reason : R) → IsFirstRow rows reason → first_row rows ≡ Some reason }
    ensures none { (rows : List (Bool × R)) → first_row rows ≡ None → list_any (λ row. row.0) rows ≡ false }
{}
