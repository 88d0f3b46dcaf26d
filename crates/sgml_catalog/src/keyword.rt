// The keywords of catalogs.
ghost use Rattle.std.specs.Prelude.{◌≡◌};
ghost use Rattle.sgml_catalog.specs.Keywords.{keyword_of, unused_of, takes_two};

use sgml_text::is_word;

/// A keyword of a catalog (TR9401).
#[derive(Clone, Copy, Debug, PartialEq, Eq)]
pub enum Keyword {
    Public,
    System,
    /// `ENTITY`, whose name is that of a parameter entity where it begins with `%`.
    Entity,
    Doctype,
    Notation,
    Sgmldecl,
    Override,
    /// `BASE`, `CATALOG` and `DOCUMENT`, which take one argument and have no effect.
    OneUnused,
    /// `DELEGATE`, `LINKTYPE` and `DTDDECL`, which take two arguments and have no effect.
    TwoUnused,
}

/// The keyword that is spelled, in any letter case.
pub(crate) fn keyword_of(spelled: &[u8]) -> Option<Keyword>
    ensures { result ≡ keyword_of spelled.now }
{
    if is_word(b"PUBLIC", spelled) {
        Some(Keyword::Public)
    } else if is_word(b"SYSTEM", spelled) {
        Some(Keyword::System)
    } else if is_word(b"ENTITY", spelled) {
        Some(Keyword::Entity)
    } else if is_word(b"DOCTYPE", spelled) {
        Some(Keyword::Doctype)
    } else if is_word(b"NOTATION", spelled) {
        Some(Keyword::Notation)
    } else if is_word(b"SGMLDECL", spelled) {
        Some(Keyword::Sgmldecl)
    } else if is_word(b"OVERRIDE", spelled) {
        Some(Keyword::Override)
    } else {
        unused_of(spelled)
    }
}

fn unused_of(spelled: &[u8]) -> Option<Keyword>
    ensures { result ≡ unused_of spelled.now }
{
    if is_word(b"BASE", spelled) || is_word(b"CATALOG", spelled) || is_word(b"DOCUMENT", spelled) {
        Some(Keyword::OneUnused)
    } else if is_word(b"DELEGATE", spelled)
        || is_word(b"LINKTYPE", spelled)
        || is_word(b"DTDDECL", spelled)
    {
        Some(Keyword::TwoUnused)
    } else {
        None
    }
}

/// Whether the keyword takes two arguments, and not one.
pub(crate) fn takes_two(keyword: Keyword) -> bool
    ensures { result ≡ takes_two keyword }
{
    !matches!(
        keyword,
        Keyword::Sgmldecl | Keyword::Override | Keyword::OneUnused
    )
}
