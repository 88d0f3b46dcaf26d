// What is kept of a declaration.
ghost use Rattle.std.specs.Prelude.{◌≡◌, map};
ghost use Rattle.sgml_dtd_elements.specs.Kept.{declared, AreRead};

use crate::content::{Content, Exceptions};
use sgml_decl_forms::Omits;
use sgml_text::{Memory, Names};
use std::alloc::Global;

// A declaration that was added.
#[derive(Drop)]
pub(crate) struct Row {
    pub(crate) names: Names,
    pub(crate) omits: Omits,
    pub(crate) content: Content,
    pub(crate) exceptions: Exceptions,
}

// Where an element type is named: the number of the declaration, and the name's place in its group.
#[derive(Clone, Copy, Debug, PartialEq, Eq)]
pub(crate) struct Place {
    pub(crate) declaration: u32,
    pub(crate) at: u32,
}

// Makes the tables of the model of a row, where there is one.
pub(crate) fn prepare_row(alloc: Global, rows: &mut Vec<Row>, at: usize) -> Result<(), Memory>
    ensures declared { map declared rows.new.items ≡ map declared rows.old.items }
    ensures read { AreRead rows.old.items → AreRead rows.new.items }
{
    if at >= rows.len() {
        return Ok(());
    }
    rows[at].content.prepare(alloc)
}
