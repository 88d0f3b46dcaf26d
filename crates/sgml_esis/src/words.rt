// Names and tokens, read.
ghost use Rattle.std.specs.Prelude.{◌≡◌, ◌≤◌, ◌<◌, ◌++◌, ◌∷◌, List, ℕ, [], length, IfOk, OnOk, option_map, vec_len};
ghost use Rattle.std.specs.List.{prefix_len, list_all};
ghost use Rattle.sgml_esis.specs.Grammar.{is_word_byte, is_word, is_none};
ghost use Rattle.sgml_esis.specs.Reading.{word_of, words_on, words_of, strip};

use sgml_text::{Memory, Name, Names};
use std::alloc::Global;

pub fn is_word_byte(b: u8) -> bool
    ensures { result ≡ is_word_byte b }
{
    b >= 33 && b != 127
}

/// How many bytes of a name stand at the front.
pub fn word_run(bytes: &[u8]) -> usize
    ensures value { result ≡ prefix_len is_word_byte bytes.now }
    ensures within { result ≤ length bytes.now }
{
    bytes.iter().take_while(|b| is_word_byte(**b)).count()
}

fn is_none(bytes: &[u8]) -> bool
    ensures { result ≡ is_none bytes.now }
{
    bytes.is_empty()
}

fn is_word(bytes: &[u8]) -> bool
    ensures { result ≡ is_word bytes.now }
{
    match bytes {
        [] => false,
        [_, ..] => all_in_words(bytes),
    }
}

fn all_in_words(bytes: &[u8]) -> bool
    ensures { result ≡ list_all is_word_byte bytes.now }
{
    for b in bytes {
        if !is_word_byte(*b) {
            return false;
        }
    }
    true
}

/// The name that these bytes are, if they are one.
pub fn read_word(alloc: Global, bytes: &[u8]) -> Result<Option<Name>, Memory>
    ensures { IfOk result (λ word. word ≡ word_of bytes.now) }
{
    if !is_word(bytes) {
        return Ok(None);
    }
    Ok(Some(Name::copied(alloc, bytes)?))
}

/// The name of these bytes.
pub fn name_of(alloc: Global, bytes: &[u8]) -> Result<Name, Memory>
    requires { 0 < length bytes.now }
    ensures { IfOk result (λ name. name ≡ bytes.now) }
{
    Name::copied(alloc, bytes)
}

/// The names that these bytes are, each after a blank, if they are one or more.
pub fn read_words(alloc: Global, bytes: &[u8]) -> Result<Option<Names>, Memory>
    ensures { IfOk result (λ words. words ≡ words_of bytes.now) }
{
    match bytes {
        [32, rest @ ..] => read_words_on(alloc, rest),
        _ => Ok(None),
    }
}

fn read_words_on(alloc: Global, bytes: &[u8]) -> Result<Option<Names>, Memory>
    ensures { IfOk result (λ words. words ≡ words_on [] [] bytes.now) }
{
    let mut names = Vec::with_capacity(alloc, 1)?;
    let mut rest = bytes;
    'words: loop {
        let size = word_run(rest);
        if size == 0 {
            return Ok(None);
        }
        let (word, after) = rest.split_at(size);
        push_word(alloc, &mut names, word)?;
        if is_none(after) {
            return Ok(Some(Names::of(names)));
        }
        let Some(more) = strip(b" ", after) else {
            return Ok(None);
        };
        rest = more;
    }
}

fn push_word(alloc: Global, names: &mut Vec<Name>, word: &[u8]) -> Result<(), Memory>
    requires { 0 < length word.now }
    ensures { OnOk result (names.new.items ≡ names.old.items ++ word.now ∷ []) }
{
    let name = name_of(alloc, word)?;
    names.push(name)?;
    Ok(())
}

/// What follows a word at the front.
pub fn strip<'a>(word: &[u8], bytes: &'a [u8]) -> Option<&'a [u8]>
    ensures { option_map (λ rest. rest.now) result ≡ strip word.now bytes.now }
{
    match word {
        [] => Some(bytes),
        [w, ws @ ..] => match bytes {
            [] => None,
            [b, bs @ ..] => { if *w == *b { strip(ws, bs) } else { None } }
        },
    }
}
