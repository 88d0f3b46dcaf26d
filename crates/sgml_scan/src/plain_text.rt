// Text of content that is told by its bytes alone, whatever follows.
ghost use Rattle.std.specs.Prelude.{◌≡◌, ◌≤◌, ◌<◌, ℕ, Bool, length, slice_index, true, IsTrue};
ghost use Rattle.sgml_markup.specs.declared.kinds.TokenKind.TheVariants.{Chars};
ghost use Rattle.sgml_scan.specs.Classes.{is_scanned};
ghost use Rattle.sgml_scan.specs.Sure.{is_plain_content, is_text};
ghost use Rattle.sgml_scan.specs.Tokens.{IsScanned, token};

use crate::state::ScanState;
use crate::stretches::{is_end, text_of};
use sgml_syntax::Syntax;

/// How many characters the text begins with where no short reference string is matched, if a tag, a reference to an
/// entity, a record's bound or the text's end stands behind them; else 0.
#[inline(always)]
pub fn text_length(syntax: &Syntax, state: ScanState, text: &[u8]) -> usize
    requires mode { IsTrue (is_scanned state.mode) }
    requires content { is_plain_content state ≡ true }
    ensures within { result ≤ length text.now }
    ensures sure { (i : ℕ) → i < result → is_text state.net (slice_index text.now i) ≡ true }
    ensures scanned { 0 < result → (ended : Bool) → IsScanned syntax.now state ended text.now (token Chars result) }
{
    let n = text_of(state.net, text);
    if is_end(syntax, state, &text[n..]) {
        n
    } else {
        0
    }
}
