// Status keywords.
ghost use Rattle.std.specs.Prelude.{◌≡◌};
ghost use Rattle.std.specs.List.{list_any};
ghost use Rattle.sgml_text.specs.Characters.{is_word};
ghost use Rattle.sgml_marked.specs.Keywords.{is_keyword, first_unknown, highest, status_by};

use sgml_text::{Name, is_word};

/// What a marked section's content is read as (10.4.2).
#[derive(Clone, Copy, Debug, PartialEq, Eq)]
pub enum Status {
    /// It is left out.
    Ignore,
    /// Character data.
    Cdata,
    /// Replaceable character data: references are recognised.
    Rcdata,
    /// It is read as if its borders weren't there.
    Include,
}

/// The status that these keywords give, in any letter case, or the index of the first that is none
/// of CDATA, IGNORE, INCLUDE, RCDATA and TEMP (10.4.2).
pub fn status_of(keywords: &[Name]) -> Result<Status, usize>
    ensures { result ≡ status_by keywords.now }
{
    match unknown_of(keywords) {
        Some(i) => Err(i),
        None => Ok(highest_of(keywords)),
    }
}

fn unknown_of(keywords: &[Name]) -> Option<usize>
    ensures { result ≡ first_unknown keywords.now }
{
    for (i, keyword) in keywords.iter().enumerate() {
        if !is_keyword(keyword.items()) {
            return Some(i);
        }
    }
    None
}

fn highest_of(keywords: &[Name]) -> Status
    ensures { result ≡ highest keywords.now }
{
    if has(keywords, b"IGNORE") {
        Status::Ignore
    } else if has(keywords, b"CDATA") {
        Status::Cdata
    } else if has(keywords, b"RCDATA") {
        Status::Rcdata
    } else {
        Status::Include
    }
}

fn has(keywords: &[Name], word: &[u8]) -> bool
    ensures { result ≡ list_any (is_word word.now) keywords.now }
{
    for keyword in keywords {
        if is_word(word, keyword.items()) {
            return true;
        }
    }
    false
}

/// Whether this is one of the five status keywords, in any letter case (10.4.2).
pub fn is_keyword(spelled: &[u8]) -> bool
    ensures { result ≡ is_keyword spelled.now }
{
    is_word(b"CDATA", spelled)
        || is_word(b"IGNORE", spelled)
        || is_word(b"INCLUDE", spelled)
        || is_word(b"RCDATA", spelled)
        || is_word(b"TEMP", spelled)
}
