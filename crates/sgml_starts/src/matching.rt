// Which attribute each specification names, by number.
ghost use Rattle.std.specs.Prelude.{◌≡◌, ◌<◌, None, Some, length, slice_get, IfOk, IfSome};
ghost use Rattle.sgml_attr.specs.Matching.{attributes_of};
ghost use Rattle.sgml_starts.specs.Numbers.{AreInverted, AreNamed, AreNumbers};

use sgml_attr::{AttrError, Definition, Spec, match_specs};
use sgml_syntax::Syntax;
use sgml_text::Memory;
use std::alloc::Global;

/// The numbers of the attributes that the first specifications name, up to one against which something
/// is, which may name none.
#[derive(Drop)]
pub(crate) struct Numbers {
    pub(crate) named: Vec<Option<usize>>,
    pub(crate) unknown: Option<usize>,
}

/// The attributes that specifications name (7.9), found by hashing where there are many.
pub(crate) fn numbers_of(
    alloc: Global,
    syntax: &Syntax,
    definitions: &[Definition],
    specs: &[Spec],
) -> Result<Numbers, Memory>
    ensures { IfOk result (AreNumbers (length definitions.now) (attributes_of syntax.now definitions.now specs.now)) }
{
    match match_specs(alloc, syntax, definitions, specs) {
        Ok(matched) => Ok(Numbers {
            named: inverted(alloc, specs.len(), &matched)?,
            unknown: None,
        }),
        Err(AttrError::UnknownAttribute { spec }) => Ok(Numbers {
            named: first_numbers(alloc, syntax, definitions, &specs[..spec])?,
            unknown: Some(spec),
        }),
        Err(AttrError::Twice { spec }) => Ok(Numbers {
            named: with_second(alloc, syntax, definitions, specs, spec)?,
            unknown: None,
        }),
        Err(_) => Err(Memory),
    }
}

// The numbers of specifications against which nothing is.
fn first_numbers(
    alloc: Global,
    syntax: &Syntax,
    definitions: &[Definition],
    specs: &[Spec],
) -> Result<Vec<Option<usize>>, Memory>
    ensures many { IfOk result (λ named. length named.items ≡ length specs.now) }
    ensures named { IfOk result (λ n. AreNamed (length definitions.now) (attributes_of syntax.now definitions.now specs.now) n.items) }
{
    match match_specs(alloc, syntax, definitions, specs) {
        Ok(matched) => inverted(alloc, specs.len(), &matched),
        Err(_) => Err(Memory),
    }
}

// The same with one more, which names the attribute of an earlier one.
fn with_second(
    alloc: Global,
    syntax: &Syntax,
    definitions: &[Definition],
    specs: &[Spec],
    second: usize,
) -> Result<Vec<Option<usize>>, Memory>
    requires { second < length specs.now }
    ensures { IfOk result (λ n. AreNamed (length definitions.now) (attributes_of syntax.now definitions.now specs.now) n.items) }
{
    let mut named = first_numbers(alloc, syntax, definitions, &specs[..second])?;
    let last = first_numbers(alloc, syntax, definitions, &specs[second..second + 1])?;
    named.push(first_of(&last))?;
    Ok(named)
}

fn first_of(numbers: &[Option<usize>]) -> Option<usize>
    ensures { IfSome result (λ i. slice_get numbers.now 0 ≡ Some (Some i)) }
{
    match numbers {
        [number, ..] => *number,
        [] => None,
    }
}

// For each of so many specifications the attribute that is matched with it.
fn inverted(
    alloc: Global,
    specs: usize,
    matched: &[Option<usize>],
) -> Result<Vec<Option<usize>>, Memory>
    ensures { IfOk result (λ named. AreInverted specs matched.now named.items) }
{
    let mut named = vec![in alloc; None; specs]?;
    'matched: for (i, spec) in matched.iter().enumerate() {
        if let Some(j) = *spec {
            if j < named.len() {
                named[j] = Some(i);
            }
        }
    }
    Ok(named)
}
