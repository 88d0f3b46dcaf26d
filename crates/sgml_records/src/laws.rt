// What the words of the standard say, and that the search by which the calls are told says it.
ghost use Rattle.std.specs.Prelude.{◌≡◌, ℕ, ◌≤◌, ◌⊎◌, ◌↔◌, IsTrue, List, ◌∷◌, length};
ghost use Rattle.sgml_records.specs.Items.{Item, RecordEnd, Data};
ghost use Rattle.sgml_records.specs.RecordEnds.{StandsAt, IsIgnoredAsFirst, IsIgnoredAfterMarkup, IsIgnoredThere, IsIgnored, IsPutOutAt};
ghost use Rattle.sgml_records.specs.Facts.{before, only_markup, only_markup_since, is_live, one_waits, OneWaits, facts};
ghost use Rattle.sgml_records.specs.Puts.{put_at};
ghost use Rattle.sgml_records.specs.declared.record_state.Put.TheVariants.{Nothing, Kept, Held};

/// The search in the items before a record end finds which of the standard's cases holds of it:
/// it is the first, or nothing but markup stands between it and the last record.
pub fn search_is_the_standards()
    ensures first { (items : List Item) (i : ℕ) → i ≤ length items →
        IsTrue (only_markup (before items i)) ↔ IsIgnoredAsFirst items i }
    ensures after_markup { (items : List Item) (i : ℕ) → i ≤ length items →
        IsTrue (only_markup_since (before items i)) ↔ IsIgnoredAfterMarkup items i }
    ensures live { (items : List Item) (i : ℕ) → i ≤ length items →
        IsTrue (is_live (before items i)) ↔ (¬ IsIgnoredThere items i) }
    ensures waits { (earlier : List Item) → IsTrue (one_waits earlier) ↔ OneWaits earlier }
{}

/// What is put out over all items of an element is exactly the record ends that are data, each
/// directly before the item that it precedes.
pub fn puts_are_the_kept_ends()
    ensures kept { (items : List Item) (place : ℕ) (item : Item) → StandsAt items place item →
        (put_at (before items place) item ≡ Kept) ↔ ((i : ℕ) × IsPutOutAt items i place) }
    ensures ignored { (items : List Item) (i : ℕ) → StandsAt items i RecordEnd →
        (put_at (before items i) RecordEnd ≡ Nothing) ↔ IsIgnoredThere items i }
    ensures held_end { (items : List Item) (i : ℕ) (item : Item) → StandsAt items i item →
        put_at (before items i) item ≡ Held → item ≡ RecordEnd }
    ensures data_in_a_row { (earlier : List Item) →
        (facts (Data ∷ Data ∷ earlier) ≡ facts (Data ∷ earlier)) × (put_at (Data ∷ earlier) Data ≡ Nothing) }
{}

/// Each record end is ignored in one of the three cases, or is data at exactly one place, and no
/// place has two.
pub fn each_end_is_kept_or_ignored()
    ensures told { (items : List Item) (i : ℕ) → StandsAt items i RecordEnd →
        IsIgnored items i ⊎ ((place : ℕ) × IsPutOutAt items i place) }
    ensures never_both { (items : List Item) (i place : ℕ) →
        IsIgnored items i → IsPutOutAt items i place → ⊥ }
    ensures one_place { (items : List Item) (i place other : ℕ) →
        IsPutOutAt items i place → IsPutOutAt items i other → place ≡ other }
    ensures one_end { (items : List Item) (i j place : ℕ) →
        IsPutOutAt items i place → IsPutOutAt items j place → i ≡ j }
{}
