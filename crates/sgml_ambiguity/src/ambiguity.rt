// Whether a model is ambiguous.
ghost use Rattle.std.specs.Prelude.{◌≡◌, IfOk};
ghost use Rattle.std.specs.Option.{option_copied};
ghost use Rattle.sgml_model.specs.Model.{model_of};
ghost use Rattle.sgml_ambiguity.specs.Answers.{Judges};

use crate::once::is_each_name_once;
use crate::scan::scan;
use crate::token::ScanError;
use sgml_model::Model;
use sgml_text::{Memory, Name};
use std::alloc::Global;

/// Two tokens of one name, or two `#PCDATA`, that can both come.
#[derive(Debug, Drop)]
pub struct Ambiguity {
    pub first: u32,
    pub second: u32,
    /// None is `#PCDATA`.
    pub name: Option<Name>,
}

fn copied(alloc: Global, name: Option<&Name>) -> Result<Option<Name>, Memory>
    ensures { IfOk result (λ n. n ≡ option_copied name.entry) }
{
    match name {
        None => Ok(None),
        Some(name) => Ok(Some(name.copy(alloc)?)),
    }
}

/// The first two tokens of one name that can both come (ISO 8879, 11.2.4.3), which a model that
/// isn't ambiguous hasn't.
pub fn ambiguity_of(alloc: Global, model: &Model) -> Result<Option<Ambiguity>, Memory>
    ensures { IfOk result (λ found. Judges (model_of model.now) found) }
{
    if is_each_name_once(alloc, model.term())? {
        return Ok(None);
    }
    match scan(alloc, model.term()) {
        Ok(_) => {}
        Err(ScanError::Memory) => return Err(Memory),
        Err(ScanError::Clash(a, b)) => {
            let name = copied(alloc, a.name)?;
            return Ok(Some(Ambiguity {
                first: a.number,
                second: b.number,
                name,
            }));
        }
    }
    Ok(None)
}
