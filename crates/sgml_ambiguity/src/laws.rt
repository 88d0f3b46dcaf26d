// What holds of all content models.
ghost use Rattle.sgml_ambiguity.specs.Laws.{LastTokensOnce, PairWhereAmbiguous};

/// A law: a pair of tokens is found exactly where a model is ambiguous, and none exactly where it isn't.
pub fn pair_where_ambiguous()
    ensures { PairWhereAmbiguous }
{}

/// A law: the list of the tokens that can come after the last of a repeated group has each once.
pub fn last_tokens_once()
    ensures { LastTokensOnce }
{}
