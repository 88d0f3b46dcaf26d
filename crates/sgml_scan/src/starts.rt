// Start-tags with what they specify, told in one pass over their bytes.
ghost use Rattle.std.specs.Prelude.{IfSome};
ghost use Rattle.sgml_scan.specs.StartTags.{IsStartTag};

use sgml_markup::{quick_rest, short_name};
use sgml_syntax::Syntax;

/// A start-tag (7.4), by how many bytes its name has, and how many itself.
#[derive(Clone, Copy, Debug)]
pub struct StartTag {
    pub name: usize,
    pub length: usize,
}

/// The start-tag with which the text begins in content, if TAGC closes it; none where that isn't plain, and the text is
/// to be scanned.
#[inline(always)]
pub fn start_tag(syntax: &Syntax, text: &[u8]) -> Option<StartTag>
    ensures { IfSome result (IsStartTag syntax.now text.now) }
{
    let [b, rest @ ..] = text else {
        return None;
    };
    if *b != b'<' {
        return None;
    }
    let name = short_name(syntax, rest);
    if name == 0 {
        return None;
    }
    match quick_rest(syntax, &rest[name..]) {
        None => None,
        Some(n) => Some(StartTag {
            name,
            length: 1 + (name + n),
        }),
    }
}
