// Where what begins with `<!`, or ends a document type, has its own end.
ghost use Rattle.std.specs.Prelude.{◌≡◌, ◌≤◌, ◌&&◌, length, IfSome};
ghost use Rattle.std.specs.List.{prefix_len};
ghost use Rattle.sgml_text.specs.NameCharacters.{is_name_character};
ghost use Rattle.sgml_delim.specs.Ends.{begun, inside_after, is_outside, ends_declaration, end_after, is_doctype, ender_of, declaration_end, is_other, stays_in};
ghost use Rattle.sgml_delim.specs.declared.ends.Inside.TheVariants.{Between, Name};

use sgml_text::{NameSet, is_quote, is_word};

/// What a byte of a declaration stands in.
#[derive(Clone, Copy, Debug, PartialEq, Eq)]
pub enum Inside {
    Between,
    /// A run of name characters.
    Name,
    /// After one `-`.
    Minus,
    /// A literal that is begun by this quote.
    Literal(u8),
    Comment,
    /// After one `-` in a comment.
    CommentMinus,
}

/// What ends markup, outside literals and comments.
#[derive(Clone, Copy, Debug, PartialEq, Eq)]
pub enum Ender {
    /// `>`
    Mdc,
    /// `[`
    Dso,
    Either,
}

/// How many bytes of the text, which follows MDO, belong to the declaration: up to its first MDC, or
/// DSO of a document type, outside literals and comments. None where its end isn't there.
pub fn declaration_end(names: &NameSet, text: &[u8]) -> Option<usize>
    ensures value { result ≡ declaration_end names.now text.now }
    ensures within { IfSome result (λ n. n ≤ length text.now) }
{
    end_after(names, ender_of(names, text), text)
}

fn ender_of(names: &NameSet, text: &[u8]) -> Ender
    ensures { result ≡ ender_of names.now text.now }
{
    if is_doctype(names, text) {
        Ender::Either
    } else {
        Ender::Mdc
    }
}

fn is_doctype(names: &NameSet, text: &[u8]) -> bool
    ensures { result ≡ is_doctype names.now text.now }
{
    is_word(b"DOCTYPE", &text[..names.name_length(text)])
}

/// How many bytes of the text there are up to the first end outside literals and comments, with it.
pub fn end_after(names: &NameSet, ender: Ender, text: &[u8]) -> Option<usize>
    ensures value { result ≡ end_after names.now ender Between text.now }
    ensures within { IfSome result (λ n. n ≤ length text.now) }
{
    let mut inside = Inside::Between;
    let mut i = 0usize;
    'bytes: while i < text.len() {
        let b = text[i];
        if ends_here(ender, inside, b) {
            return Some(i + 1);
        }
        inside = inside_after(names, inside, b);
        i += 1 + run_length(inside, &text[i + 1..]);
    }
    None
}

/// How many bytes there are that stay in a name, a literal or a comment.
fn run_length(inside: Inside, bytes: &[u8]) -> usize
    ensures value { result ≡ prefix_len (stays_in inside) bytes.now }
    ensures within { result ≤ length bytes.now }
{
    match inside {
        Inside::Name => letters_and_digits(bytes),
        Inside::Literal(quote) => length_before(quote, bytes),
        Inside::Comment => length_before(b'-', bytes),
        Inside::Between => 0,
        Inside::Minus => 0,
        Inside::CommentMinus => 0,
    }
}

/// How many letters and digits the bytes begin with.
fn letters_and_digits(bytes: &[u8]) -> usize
    ensures value { result ≡ prefix_len (stays_in Name) bytes.now }
    ensures within { result ≤ length bytes.now }
{
    bytes
        .iter()
        .take_while(|b| b.is_ascii_alphanumeric())
        .count()
}

/// How many bytes stand before the first of this one.
fn length_before(end: u8, bytes: &[u8]) -> usize
    ensures value { result ≡ prefix_len (is_other end) bytes.now }
    ensures within { result ≤ length bytes.now }
{
    bytes.iter().take_while(|b| **b != end).count()
}

fn ends_here(ender: Ender, inside: Inside, b: u8) -> bool
    ensures { result ≡ (is_outside inside && ends_declaration ender b) }
{
    is_outside(inside) && ends_declaration(ender, b)
}

fn is_outside(inside: Inside) -> bool
    ensures { result ≡ is_outside inside }
{
    match inside {
        Inside::Literal(_) | Inside::Comment | Inside::CommentMinus => false,
        _ => true,
    }
}

fn ends_declaration(ender: Ender, b: u8) -> bool
    ensures { result ≡ ends_declaration ender b }
{
    match ender {
        Ender::Mdc => b == b'>',
        Ender::Dso => b == b'[',
        Ender::Either => b == b'>' || b == b'[',
    }
}

/// Where the next byte of a declaration stands.
pub fn inside_after(names: &NameSet, inside: Inside, b: u8) -> Inside
    ensures { result ≡ inside_after names.now inside b }
{
    match inside {
        Inside::Between => begun(names, b),
        Inside::Name => if names.goes_on(b) {
            Inside::Name
        } else {
            begun(names, b)
        },
        Inside::Minus => if b == b'-' {
            Inside::Comment
        } else {
            begun(names, b)
        },
        Inside::Literal(q) => if b == q {
            Inside::Between
        } else {
            Inside::Literal(q)
        },
        Inside::Comment => if b == b'-' {
            Inside::CommentMinus
        } else {
            Inside::Comment
        },
        Inside::CommentMinus => if b == b'-' {
            Inside::Between
        } else {
            Inside::Comment
        },
    }
}

fn begun(names: &NameSet, b: u8) -> Inside
    ensures { result ≡ begun names.now b }
{
    if is_quote(b) {
        Inside::Literal(b)
    } else if b == b'-' {
        Inside::Minus
    } else if names.goes_on(b) {
        Inside::Name
    } else {
        Inside::Between
    }
}
