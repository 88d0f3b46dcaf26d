// The summary of lines.
ghost use Rattle.std.specs.Prelude.{◌≡◌, IfOk, string_bytes, count_by};
ghost use Rattle.sgml_line_summary.specs.Summary.{is_start, summary_of, summary_text};

use sgml_esis::Line;
use sgml_text::{Memory, Text};
use std::alloc::{AllocError, Global};

/// The line that says how many lines there are, and how many elements.
pub(crate) fn summary(alloc: Global, lines: &[Line]) -> Result<Text, Memory>
    ensures { IfOk result (λ text. text ≡ summary_of lines.now) }
{
    let text = spelled(alloc, lines.len(), elements(lines))?;
    Text::copied(alloc, text.as_bytes())
}

fn spelled(alloc: Global, lines: usize, elements: usize) -> Result<String, AllocError>
    ensures { IfOk result (λ text. string_bytes text ≡ summary_text lines elements) }
{
    format!(in alloc; "lines {lines} elements {elements}\n")
}

/// How many elements start in lines.
fn elements(lines: &[Line]) -> usize
    ensures { result ≡ count_by is_start lines.now }
{
    let mut count = 0usize;
    for line in lines {
        if is_start(line) {
            count += 1;
        }
    }
    count
}

fn is_start(line: &Line) -> bool
    ensures { result ≡ is_start line.now }
{
    match line {
        Line::Start(_) => true,
        _ => false,
    }
}
