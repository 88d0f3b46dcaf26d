// Answers as text, and the parts of a case.
use sgml_text::{Memory, Name};
use sgml_trials::put;
use std::alloc::Global;

/// A name, or `-` for none.
pub fn put_name(out: &mut Vec<u8>, name: Option<&Name>) -> Result<(), Memory> {
    match name {
        Some(name) => {
            out.extend_from_slice(name.items())?;
            Ok(())
        }
        None => put(out, "-"),
    }
}

/// Whether nothing more need come, and the name that must.
pub fn put_rest(out: &mut Vec<u8>, finished: bool, required: Option<&Name>) -> Result<(), Memory> {
    put(out, if finished { "done:" } else { "open:" })?;
    put_name(out, required)
}

/// The token that a letter is: a name, or `#` for `#PCDATA`.
pub fn label(alloc: Global, letter: u8) -> Result<Option<Name>, Memory> {
    if letter == b'#' {
        return Ok(None);
    }
    Ok(Some(Name::of([letter].to_vec(alloc)?)))
}
