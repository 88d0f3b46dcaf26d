// Laws of the definitions.
ghost use Rattle.std.specs.Prelude.{◌≡◌, ◌<◌, ◌≤◌, ◌++◌, ℕ, List, Some, length};
ghost use Rattle.sgml_text.specs.declared.name_set.NameSet.{NameSet};
ghost use Rattle.sgml_decl_parts.specs.declared.ends.Construct.{Construct};
ghost use Rattle.sgml_decl_parts.specs.Ends.{before, construct_end};

/// The end of what is read is the same whatever follows it.
pub fn end_stays()
    ensures { (names : NameSet) → (construct : Construct) → (n : ℕ) → (bytes more : List ℕ)
        → construct_end names construct bytes ≡ Some n → construct_end names construct (bytes ++ more) ≡ Some n }
{}

/// The end of what is read lies in the text, behind what stands before its first part.
pub fn end_is_within()
    ensures few { (names : NameSet) → (construct : Construct) → (bytes : List ℕ) → (n : ℕ)
        → construct_end names construct bytes ≡ Some n → n ≤ length bytes }
    ensures past { (names : NameSet) → (construct : Construct) → (bytes : List ℕ) → (n : ℕ)
        → construct_end names construct bytes ≡ Some n → before construct < n }
{}
