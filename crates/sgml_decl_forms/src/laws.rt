// What holds of attribute lists.
ghost use Rattle.sgml_decl_forms.specs.Attributes.{StandOneAfterAnother};
ghost use Rattle.sgml_decl_forms.specs.Due.{GoesOn, OneGrammar};

/// A law: the definitions that are read of an attribute list are those that stand in its lexemes one
/// after another, to their end.
pub fn attributes_stand_one_after_another()
    ensures { StandOneAfterAnother }
{}

/// A law: what is due in a declaration, part by part, and the productions of declarations are one grammar: a
/// declaration may end exactly where a production reads it, and goes on exactly where it can be ended.
pub fn what_is_due_is_the_grammar()
    ensures ends { OneGrammar }
    ensures goes_on { GoesOn }
{}
