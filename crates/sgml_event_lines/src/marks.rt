// Marks at numbers.
ghost use Rattle.std.specs.Prelude.{◌≡◌, ◌<◌, ℕ, false, true, length, get_or, IfOk, set, nat_lt, if◌then◌else◌};

use sgml_text::Memory;
use std::alloc::Global;

/// So many marks, none of which is set.
pub(crate) fn no_marks(alloc: Global, count: usize) -> Result<Vec<bool>, Memory>
    ensures count { IfOk result (λ marks. length marks.items ≡ count) }
    ensures none { IfOk result (λ marks. (i : ℕ) → get_or marks.items i false ≡ false) }
{
    let mut marks = Vec::with_capacity(alloc, count)?;
    'marks: while marks.len() < count {
        marks.push(false)?;
    }
    Ok(marks)
}

/// Whether the mark at a number is set.
pub(crate) fn is_marked(marks: &[bool], number: usize) -> bool
    ensures { result ≡ get_or marks.now number false }
{
    match marks.get(number) {
        Some(mark) => *mark,
        None => false,
    }
}

/// Sets the mark at a number, if there is one.
pub(crate) fn set_mark(marks: &mut [bool], number: usize)
    ensures { marks.new ≡ set marks.old number true }
{
    if number < marks.len() {
        marks[number] = true;
    }
}
