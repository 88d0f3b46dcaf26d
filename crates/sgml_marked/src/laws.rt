// What the words of the standard say of the definitions.
ghost use Rattle.std.specs.Prelude.{◌≡◌, ℕ, ◌↔◌, true, false, List, Some, None};
ghost use Rattle.std.specs.Cmp.Lexicographic.{pointwise};
ghost use Rattle.sgml_marked.specs.declared.sections.Section.{Section};
ghost use Rattle.sgml_marked.specs.Keywords.{first_unknown, AllKnown, IsFirstUnknown};
ghost use Rattle.sgml_marked.specs.Opened.{is_open_at, without_last, IsLastEnded, same_section};

/// Where a section of a level is open, what is left when one ends is all but the last of the
/// level; else nothing changes.
pub fn last_of_level_ends()
    ensures one { (level : ℕ) (opened : List Section) → is_open_at level opened ≡ true →
        IsLastEnded level opened (without_last level opened) }
    ensures none { (level : ℕ) (opened : List Section) → is_open_at level opened ≡ false →
        without_last level opened ≡ opened }
{}

/// Sections are equal exactly where they are the same list.
pub fn equal_sections_are_the_same()
    ensures { (first second : List Section) →
        (pointwise same_section first second ≡ true) ↔ (first ≡ second) }
{}

/// The keyword that is told is no status keyword, and all before it are; where none is told, all
/// are.
pub fn first_unknown_keyword_is_told()
    ensures unknown { (keywords : List (List ℕ)) (i : ℕ) → first_unknown keywords ≡ Some i →
        IsFirstUnknown keywords i }
    ensures known { (keywords : List (List ℕ)) → first_unknown keywords ≡ None →
        AllKnown keywords }
{}
