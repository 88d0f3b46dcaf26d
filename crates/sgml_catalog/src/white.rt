// White space made single.
ghost use Rattle.std.specs.Prelude.{◌≡◌, ◌++◌, IfOk};
ghost use Rattle.sgml_catalog.specs.Words.{single, spaced_after};

use sgml_text::{Memory, is_separator};
use std::alloc::Global;

/// The bytes with white space made single and the ends trimmed.
pub(crate) fn single(alloc: Global, bytes: &[u8]) -> Result<Vec<u8>, Memory>
    ensures { IfOk result (λ spaced. spaced.items ≡ single bytes.now) }
{
    let mut spaced = Vec::with_capacity(alloc, bytes.len())?;
    let mut owed = false;
    for b in bytes {
        owed = add_spaced(&mut spaced, owed, *b)?;
    }
    Ok(spaced)
}

// One byte more. Answers whether a SPACE is owed from then on.
fn add_spaced(spaced: &mut Vec<u8>, owed: bool, b: u8) -> Result<bool, Memory>
    ensures { IfOk result (λ owes. (spaced.new.items, owes) ≡ spaced_after (spaced.old.items, owed) b) }
{
    if is_separator(b) {
        return Ok(!spaced.is_empty());
    }
    if owed {
        spaced.push(b' ')?;
    }
    spaced.push(b)?;
    Ok(false)
}
