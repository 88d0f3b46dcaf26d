//! What holds where a piece is spelled, by its kind: how much is known of the place where one of this kind stands.
//!
//! Definitions and a law, without code. It stands on what is spelled. A law on all pieces that are spelled needs no
//! walk over the forms of its own where it follows from what its kind tells.
#![tactic(auto)]

ghost use Rattle.sgml_theory_kinds.specs.Kinds.{SpelledPiecesHaveTheirPlaces};

/// Each piece that is spelled has its place there: an SGML declaration at the beginning of the document, a declaration
/// where nothing that was declared before it is against it, a reference where an entity is meant, an empty tag and NET
/// with the type that they have there, an end where what it ends has begun. No tag is spelled that was left out.
pub fn spelled_pieces_have_their_places()
    ensures { SpelledPiecesHaveTheirPlaces }
{}
