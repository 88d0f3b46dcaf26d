// Names that are entered in the table of names.
ghost use Rattle.std.specs.Prelude.{◌≡◌, ◌+◌, ◌<◌, IfOk, not, length, take};
ghost use Rattle.std.specs.Bool.{OnTrue};
ghost use Rattle.sgml_names.specs.Index.{table_limit};
ghost use Rattle.sgml_dtd_elements.specs.Naming.{with_names, is_twice};

use sgml_names::NameIndex;
use sgml_text::{Memory, Name};

// Enters the names, with the next numbers. Where one is there already, or no memory is, some of
// them may be entered.
pub(crate) fn enter_names(index: &mut NameIndex, names: &[Name]) -> Result<bool, Memory>
    requires { length index.old + length names.now < table_limit }
    ensures new { IfOk result (λ new. new ≡ not (is_twice index.old names.now)) }
    ensures entered { IfOk result (λ new. OnTrue new (index.new ≡ with_names index.old names.now)) }
    ensures front { take (length index.old) index.new ≡ index.old }
{
    let mut rest = names;
    'names: while let [name, after @ ..] = rest {
        if index.number(name.items()).is_some() {
            return Ok(false);
        }
        let number = index.len() as u32;
        index.add(name.items(), number)?;
        rest = after;
    }
    Ok(true)
}
