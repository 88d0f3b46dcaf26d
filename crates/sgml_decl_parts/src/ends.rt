// Where a declaration ends, and what else is read part by part.
ghost use Rattle.std.specs.Prelude.{◌≡◌, ◌≤◌, ◌<◌, ◌+◌, ◌^◌, length, IfSome};
ghost use Rattle.sgml_delim.specs.Ends.{later};
ghost use Rattle.sgml_decl_parts.specs.Ends.{quote_end, before, construct_end};

use sgml_delim::{Ender, declaration_end, end_after};
use sgml_text::NameSet;

/// What is read part by part.
#[derive(Clone, Copy, Debug, PartialEq, Eq)]
pub enum Construct {
    /// A declaration, from its `<!` (10).
    Declaration,
    /// The start of a marked section, from `<![` to its second `[` (10.4).
    SectionStart,
    /// The end of a document type, from the `]` of its subset (11.1).
    SubsetEnd,
    /// A literal of a tag, from after this quote, which begins it (7.9.3).
    Literal(u8),
}

/// How many bytes belong to what begins here, up to its end. None where its end isn't there.
pub fn construct_end(names: &NameSet, construct: Construct, bytes: &[u8]) -> Option<usize>
    requires { before construct ≤ length bytes.now }
    ensures value { result ≡ construct_end names.now construct bytes.now }
    ensures within { IfSome result (λ n. n ≤ length bytes.now) }
{
    match construct {
        Construct::Declaration => later(2, declaration_end(names, &bytes[2..])),
        Construct::SectionStart => later(3, end_after(names, Ender::Dso, &bytes[3..])),
        Construct::SubsetEnd => later(1, end_after(names, Ender::Mdc, &bytes[1..])),
        Construct::Literal(quote) => quote_end(quote, bytes),
    }
}

/// How many bytes stand before the first part of what is read.
pub fn before(construct: Construct) -> usize
    ensures value { result ≡ before construct }
    ensures few { result ≤ 3 }
{
    match construct {
        Construct::Declaration => 2,
        Construct::SectionStart => 3,
        Construct::SubsetEnd => 1,
        Construct::Literal(_) => 0,
    }
}

fn later(by: usize, end: Option<usize>) -> Option<usize>
    requires { IfSome end (λ n. by + n < 2 ^ 64) }
    ensures { result ≡ later by end }
{
    match end {
        Some(n) => Some(by + n),
        None => None,
    }
}

fn quote_end(quote: u8, bytes: &[u8]) -> Option<usize>
    ensures value { result ≡ quote_end quote bytes.now }
    ensures within { IfSome result (λ n. n ≤ length bytes.now) }
{
    'bytes: for i in 0..bytes.len() {
        if bytes[i] == quote {
            return Some(i + 1);
        }
    }
    None
}
