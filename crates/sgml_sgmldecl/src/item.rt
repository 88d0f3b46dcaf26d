// What an item begins with, goes on with, and when it is whole.
ghost use Rattle.std.specs.Prelude.{◌≡◌, length};
ghost use Rattle.std.specs.Str.{bytes_eq};
ghost use Rattle.sgml_sgmldecl.specs.Characters.{is_mark, is_name_byte};
ghost use Rattle.sgml_sgmldecl.specs.Items.{has_byte, begins_with, begins, word_goes_on, is_whole_word, content_goes_on, is_whole_content};

use crate::keyword::spelling;
use crate::row::{Content, Item};
use sgml_text::{NameSet, is_quote};

fn is_mark(b: u8) -> bool
    ensures { result ≡ is_mark b }
{
    b == b'-' || b == b'.' || b == b'_' || b == b':'
}

/// Whether the byte is a name character of the reference concrete syntax (9.2.1).
pub fn is_name_byte(b: u8) -> bool
    ensures { result ≡ is_name_byte b }
{
    NameSet::reference().goes_on(b)
}

/// Whether the bytes are the same.
pub fn same(one: &[u8], other: &[u8]) -> bool
    ensures { result ≡ bytes_eq one.now other.now }
{
    one == other
}

fn has_byte(bytes: &[u8], n: usize, b: u8) -> bool
    ensures { result ≡ has_byte bytes.now n b }
{
    if n < bytes.len() {
        bytes[n] == b
    } else {
        false
    }
}

fn begins_with(whole: &[u8], word: &[u8], b: u8) -> bool
    ensures { result ≡ begins_with whole.now word.now b }
{
    match whole {
        [] => false,
        [x, xs @ ..] => match word {
            [] => *x == b,
            [w, ws @ ..] => *x == *w && begins_with(xs, ws, b),
        },
    }
}

/// Whether an item may begin with the byte.
pub fn begins(item: Item, b: u8) -> bool
    ensures { result ≡ begins item b }
{
    match item {
        Item::Opening => false,
        Item::Word(keyword) => has_byte(spelling(keyword), 0, b.to_ascii_uppercase()),
        Item::Number => b.is_ascii_digit(),
        Item::Name(_) => b.is_ascii_alphabetic(),
        Item::Literal(_) => is_quote(b),
        Item::End => b == b'>',
    }
}

/// Whether a word of name characters may go on with the byte.
pub fn word_goes_on(item: Item, word: &[u8], b: u8) -> bool
    ensures { result ≡ word_goes_on item word.now b }
{
    match item {
        Item::Opening => has_byte(b"<!SGML", word.len(), b.to_ascii_uppercase()),
        Item::Word(keyword) => has_byte(spelling(keyword), word.len(), b.to_ascii_uppercase()),
        Item::Number => b.is_ascii_digit(),
        Item::Name(_) => is_name_byte(b),
        Item::Literal(_) => false,
        Item::End => false,
    }
}

/// Whether a word of name characters may end here.
pub fn is_whole_word(item: Item, word: &[u8]) -> bool
    ensures { result ≡ is_whole_word item word.now }
{
    match item {
        Item::Opening => same(word, b"<!SGML"),
        Item::Word(keyword) => same(word, spelling(keyword)),
        Item::Number => true,
        Item::Name(_) => true,
        Item::Literal(_) => false,
        Item::End => false,
    }
}

/// Whether the text of a literal may go on with the byte.
pub fn content_goes_on(content: Content, marks: &[u8], word: &[u8], b: u8) -> bool
    ensures { result ≡ content_goes_on content marks.now word.now b }
{
    match content {
        Content::Any => true,
        Content::Heading => {
            begins_with(b"ISO 8879:1986", word, b) || begins_with(b"ISO 8879-1986", word, b)
        }
        Content::Marks => is_mark(b),
        Content::SameMarks => has_byte(marks, word.len(), b),
    }
}

/// Whether a literal may end here.
pub fn is_whole_content(content: Content, marks: &[u8], word: &[u8]) -> bool
    ensures { result ≡ is_whole_content content marks.now word.now }
{
    match content {
        Content::Any => true,
        Content::Heading => same(word, b"ISO 8879:1986") || same(word, b"ISO 8879-1986"),
        Content::Marks => true,
        Content::SameMarks => same(word, marks),
    }
}
