// Laws of the definitions.
ghost use Rattle.std.specs.Prelude.{ℕ, List};
ghost use Rattle.sgml_entity.specs.Texts.{with_more, HasMore, HasSameOthers};

/// A law: texts are a finite map. After bytes were added to the text of an entity, that is the text
/// that it had with the bytes at its end, and every other text is as it was.
pub fn texts_are_a_map()
    ensures grown { (texts : List (ℕ × List ℕ)) (entity : ℕ) (bytes : List ℕ) → HasMore texts entity bytes (with_more entity bytes texts) }
    ensures others { (texts : List (ℕ × List ℕ)) (entity : ℕ) (bytes : List ℕ) → HasSameOthers texts entity (with_more entity bytes texts) }
{}
