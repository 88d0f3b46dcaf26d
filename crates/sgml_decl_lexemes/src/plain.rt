// A literal without references.
ghost use Rattle.std.specs.Prelude.{◌≡◌, ◌≤◌, ◌+◌, ◌∷◌, ◌++◌, length, drop, IfSome, true};
ghost use Rattle.std.specs.List.{list_all, prefix_len};
ghost use Rattle.sgml_decl_lexemes.specs.Declares.{is_plain, IsQuoted};

use sgml_text::is_sgml_character;

/// The bytes up to the first such quote, if they are SGML characters and begin no reference.
pub(crate) fn plain_text(quote: u8, bytes: &[u8]) -> Option<&[u8]>
    ensures plain { IfSome result (λ text. list_all (is_plain quote) text.now ≡ true) }
    ensures front { IfSome result (λ text. IsQuoted quote text.now bytes.now) }
{
    let n = plain_length(quote, bytes);
    if n < bytes.len() && bytes[n] == quote {
        Some(&bytes[..n])
    } else {
        None
    }
}

fn plain_length(quote: u8, bytes: &[u8]) -> usize
    ensures value { result ≡ prefix_len (is_plain quote) bytes.now }
    ensures within { result ≤ length bytes.now }
{
    bytes.iter().take_while(|b| is_plain(quote, **b)).count()
}

fn is_plain(quote: u8, b: u8) -> bool
    ensures { result ≡ is_plain quote b }
{
    is_sgml_character(b) && !(b == quote || b == b'&')
}
