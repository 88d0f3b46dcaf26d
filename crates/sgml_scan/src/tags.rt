// The parts of a scanned tag.
ghost use Rattle.std.specs.Prelude.{◌≡◌, ◌≤◌, ◌+◌, ◌<◌, ◌^◌, length, slice_get, option_map, IfSome};
ghost use Rattle.sgml_syntax.specs.declared.syntax.Syntax.{Syntax};
ghost use Rattle.sgml_markup.specs.Walks.{StandsIn};
ghost use Rattle.sgml_scan.specs.Parts.{between, moved, parts_there, left_there, IsNextThere};

use sgml_markup::{Part, TagWalk, tag_part, tag_walk};
use sgml_syntax::Syntax;

/// The part of this number of the tag that stands from `from` to `to`, from left to right; none where
/// the tag has fewer. Parts are the element's name, names of attributes and values (7.4, 7.5, 7.9).
pub fn tag_parts(
    syntax: &Syntax,
    text: &[u8],
    from: usize,
    to: usize,
    number: usize,
) -> Option<Part>
    requires order { from ≤ to }
    requires within { to ≤ length text.now }
    ensures value { result ≡ option_map (moved from) (slice_get (parts_there syntax.now from to text.now) number) }
    ensures within { IfSome result (λ part. (part.from ≤ part.to) × (part.to ≤ to)) }
{
    match tag_part(syntax, &text[from..to], number) {
        None => None,
        Some(part) => Some(moved(from, part)),
    }
}

/// A walk over the parts of the tag that stands from `from` to `to`, at the first of them.
pub fn parts_walk(text: &[u8], from: usize, to: usize) -> TagWalk
    requires order { from ≤ to }
    requires within { to ≤ length text.now }
    ensures parts { (s : Syntax) → left_there s from to text.now result ≡ parts_there s from to text.now }
    ensures stands { StandsIn (between from to text.now) result }
{
    tag_walk(&text[from..to])
}

/// The next part of the tag that stands from `from` to `to`; none where none is left. `tag_parts`
/// gives the same by number, and begins each time at the tag's first byte.
pub fn next_part(
    syntax: &Syntax,
    text: &[u8],
    from: usize,
    to: usize,
    walk: &mut TagWalk,
) -> Option<Part>
    requires order { from ≤ to }
    requires within { to ≤ length text.now }
    requires stands { StandsIn (between from to text.now) walk.old }
    ensures parts { IsNextThere syntax.now from to text.now walk.old result walk.new }
    ensures within { IfSome result (λ part. (part.from ≤ part.to) × (part.to ≤ to)) }
    ensures stands { StandsIn (between from to text.now) walk.new }
{
    match sgml_markup::next_part(syntax, &text[from..to], walk) {
        None => None,
        Some(part) => Some(moved(from, part)),
    }
}

fn moved(at: usize, part: Part) -> Part
    requires from { at + part.from < 2 ^ 64 }
    requires to { at + part.to < 2 ^ 64 }
    ensures { result ≡ moved at part }
{
    Part {
        kind: part.kind,
        from: at + part.from,
        to: at + part.to,
    }
}
