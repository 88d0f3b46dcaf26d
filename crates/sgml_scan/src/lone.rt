// Tags that are a name alone, told in one pass over their bytes.
ghost use Rattle.std.specs.Prelude.{◌≡◌, ◌≤◌, ◌<◌, length, drop, IsTrue};
ghost use Rattle.sgml_markup.specs.declared.kinds.TokenKind.TheVariants as kind;
ghost use Rattle.sgml_scan.specs.Lone.{BeginsLone, IsLoneTag};

use sgml_markup::{begins_slash, begins_tagc, short_name};
use sgml_syntax::Syntax;

/// How many bytes of the text are a start-tag that is a name alone (7.4), with which it begins in content; 0 where
/// that isn't plain, and the text is to be scanned.
#[inline(always)]
pub fn lone_start(syntax: &Syntax, text: &[u8]) -> usize
    ensures within { result ≤ length text.now }
    ensures tag { 0 < result → IsLoneTag syntax.now kind.StartTag 1 text.now result }
{
    match text {
        [] => 0,
        [b, rest @ ..] => {
            if *b != b'<' {
                return 0;
            }
            // An end-tag is told by this byte.
            if begins_slash(rest) {
                return 0;
            }
            let n = lone_length(syntax, rest);
            if n == 0 { 0 } else { 1 + n }
        }
    }
}

/// The same of an end-tag (7.5).
#[inline(always)]
pub fn lone_end(syntax: &Syntax, text: &[u8]) -> usize
    ensures within { result ≤ length text.now }
    ensures tag { 0 < result → IsLoneTag syntax.now kind.EndTag 2 text.now result }
{
    match text {
        [] => 0,
        [_] => 0,
        [b, c, rest @ ..] => {
            if *b != b'<' {
                return 0;
            }
            if *c != b'/' {
                return 0;
            }
            let n = lone_length(syntax, rest);
            if n == 0 { 0 } else { 2 + n }
        }
    }
}

/// How many bytes of the text are a short name and TAGC; 0 where it doesn't begin with these.
#[inline(always)]
fn lone_length(syntax: &Syntax, text: &[u8]) -> usize
    ensures within { result ≤ length text.now }
    ensures lone { 0 < result → BeginsLone syntax.now text.now result }
{
    let name = short_name(syntax, text);
    if name == 0 {
        return 0;
    }
    if begins_tagc(&text[name..]) {
        name + 1
    } else {
        0
    }
}
