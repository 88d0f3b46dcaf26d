// What holds of the definitions.
ghost use Rattle.std.specs.Prelude.{◌≡◌, ◌≤◌, ◌↔◌, ℕ, true, List, length, take, Some};
ghost use Rattle.sgml_sgmldecl.specs.declared.due.Due.{Due};
ghost use Rattle.sgml_sgmldecl.specs.declared.heard.Heard.{Heard};
ghost use Rattle.sgml_sgmldecl.specs.declared.row.Row.{Row};
ghost use Rattle.sgml_sgmldecl.specs.Rows.{rows};
ghost use Rattle.sgml_sgmldecl.specs.Items.{begins};
ghost use Rattle.sgml_sgmldecl.specs.Following.{IsRow};
ghost use Rattle.sgml_sgmldecl.specs.Machine.{begin_state, bad, run, whole};
ghost use Rattle.sgml_sgmldecl.specs.Declaring.{Declares, BeginsWithNone, IsLongestFront};

/// A text begins with one declaration at most, which tells one thing.
pub fn a_text_begins_with_one_declaration()
    ensures { (text : List ℕ) (n m : ℕ) (one other : Heard) → n ≤ length text → m ≤ length text
        → Declares (take n text) one → Declares (take m text) other → (n ≡ m) × (one ≡ other) }
{}

/// Of what may stand at a place, no two things begin with one byte: so the first byte tells which it is.
pub fn rows_begin_apart()
    ensures { (due : Due) (one other : Row) (b : ℕ) → IsRow one (rows due) → IsRow other (rows due)
        → begins one.item b ≡ true → begins other.item b ≡ true → one ≡ other }
{}

/// Reading byte by byte, which what stands in a prolog is defined by, comes to what a declaration at the front of the text tells and to
/// its length exactly where there is one, and else to the end of the longest front with which some declaration begins.
pub fn reading_tells_declarations()
    ensures told { (text : List ℕ) (n : ℕ) (told : Heard)
        → (run 0 begin_state text ≡ whole told n) ↔ ((n ≤ length text) × Declares (take n text) told) }
    ensures none { (text : List ℕ) (n : ℕ)
        → (run 0 begin_state text ≡ bad n) ↔ (IsLongestFront text n × BeginsWithNone text) }
{}
