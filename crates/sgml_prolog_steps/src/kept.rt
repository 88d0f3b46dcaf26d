// What the reader keeps of what was read.
use crate::stage::Stage;
use sgml_declared::ExternalSubset;
use sgml_declared::dtd::Dtd;
use sgml_entity::InputStack;
use sgml_marked::Sections;
use std::marker::Model;

/// What the reader of the prolog keeps of what was read: the tables of the document type, the texts
/// that are being read, the open marked sections, how far it has come, and where the external subset is.
#[derive(Drop)]
pub struct Kept {
    pub dtd: Dtd,
    pub stack: InputStack,
    pub sections: Sections,
    pub stage: Stage,
    pub subset: Option<ExternalSubset>,
}

impl Model for Kept {
    ghost use Rattle.sgml_declared.specs.theory_standing.Kept as standing;
    ghost use Rattle.sgml_prolog_steps.specs.Standing.{stage_of, IsKept};

    ghost Value = { standing.Kept };

    ghost view = { λ a. record { doctype = a.dtd; stack = a.stack; sections = a.sections; stage = stage_of a.stage; subset = a.subset } };
}
