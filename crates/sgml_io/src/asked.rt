// The names that a store was asked for.
ghost use Rattle.std.specs.Prelude.{◌≡◌, ◌∷◌, ◌++◌, [], IfErr, OnOk, OnErr};
ghost use Rattle.sgml_io.specs.declared.outside.StoreError.TheVariants.{Memory};

use crate::outside::StoreError;
use sgml_text::Text;
use std::alloc::Global;

// This name was asked for.
pub(crate) fn note_asked(
    alloc: Global,
    asked: &mut Vec<Text>,
    name: &[u8],
) -> Result<(), StoreError>
    ensures noted { OnOk result (asked.new.items ≡ asked.old.items ++ name.now ∷ []) }
    ensures memory { IfErr result (λ error. error ≡ Memory) }
    ensures same { OnErr result (asked.new.items ≡ asked.old.items) }
{
    let Ok(copy) = Text::copied(alloc, name) else {
        return Err(StoreError::Memory);
    };
    match asked.push(copy) {
        Ok(()) => Ok(()),
        Err(_) => Err(StoreError::Memory),
    }
}
