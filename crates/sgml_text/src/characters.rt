// Characters of the reference concrete syntax, and words in any letter case.
ghost use Rattle.std.specs.Prelude.{◌≡◌, IfOk, map};
ghost use Rattle.sgml_text.specs.Characters.{is_separator, is_sgml_character, all_sgml, is_quote, upper, is_word};

use crate::error::Memory;
use std::alloc::Global;

/// Whether this byte is a separator: RE, RS, SPACE or TAB (6.2.1).
pub fn is_separator(b: u8) -> bool
    ensures { result ≡ is_separator b }
{
    b == b'\r' || b == b'\n' || b == b' ' || b == b'\t'
}

/// Whether this byte is an SGML character of the reference concrete syntax (13.1, 13.4.2).
pub fn is_sgml_character(b: u8) -> bool
    ensures { result ≡ is_sgml_character b }
{
    is_separator(b) || (b >= 32 && b != 127)
}

/// Whether all these bytes are SGML characters (13.1).
pub fn all_sgml(bytes: &[u8]) -> bool
    ensures { result ≡ all_sgml bytes.now }
{
    // without an early exit, so that many bytes are told at once
    let mut all = true;
    for b in bytes {
        all &= is_sgml_character(*b);
    }
    all
}

/// Whether this byte begins and ends literals: LIT or LITA (9.6.1).
pub fn is_quote(b: u8) -> bool
    ensures { result ≡ is_quote b }
{
    b == b'"' || b == b'\''
}

/// Whether these bytes spell a word in any letter case (13.4.7). The word itself is in upper case.
pub fn is_word(word: &[u8], spelled: &[u8]) -> bool
    ensures { result ≡ is_word word.now spelled.now }
{
    match (word, spelled) {
        ([], []) => true,
        ([w, word @ ..], [b, spelled @ ..]) => b.to_ascii_uppercase() == *w
            && is_word(word, spelled),
        _ => false,
    }
}

/// These bytes, each letter in upper case (13.4.5).
pub fn upper_case(alloc: Global, bytes: &[u8]) -> Result<Vec<u8>, Memory>
    ensures { IfOk result (λ all. all.items ≡ map upper bytes.now) }
{
    let mut all = Vec::with_capacity(alloc, bytes.len())?;
    for b in bytes {
        all.push(b.to_ascii_uppercase())?;
    }
    Ok(all)
}
