// What is answered to the tags and characters of a document: `(D` starts an element, `/D` with NET
// enabled, `!D` one that ends at once; `)D` is an end-tag, `>` an empty one, `/` NET; `#` is a
// character, `.` the end of the document.
ghost use Rattle.std.specs.Prelude.{◌≡◌, IfOk, IfSome, length};
ghost use Rattle.sgml_infer.specs.Tables.{IsNumber};
ghost use Rattle.sgml_infer.specs.Trees.{IsTreeOf};
ghost use Rattle.sgml_infer.specs.Visibles.{IsNumbered};

use sgml_dtd::Dtd;
use sgml_dtd_elements::Content;
use sgml_infer::{Chain, Tree, Visible};
use sgml_text::{Memory, Name};
use std::alloc::Global;

// A word as what is visible, or None where it names no declared element type.
fn visible(alloc: Global, dtd: &Dtd, word: &[u8]) -> Result<Option<Visible>, Memory>
    ensures { IfOk result (λ found. IfSome found (IsNumbered dtd.now)) }
{
    match word {
        b"#" => return Ok(Some(Visible::Chars)),
        b"." => return Ok(Some(Visible::EndDocument)),
        b">" => return Ok(Some(Visible::EndCurrent)),
        b"/" => return Ok(Some(Visible::Net)),
        _ => {}
    }
    let [sign, name @ ..] = word else {
        return Ok(None);
    };
    if name.is_empty() {
        return Ok(None);
    }
    let name = Name::of(name.to_vec(alloc)?);
    let Some(number) = dtd.element(&name) else {
        return Ok(None);
    };
    if number >= dtd.elements() {
        return Ok(None);
    }
    Ok(Some(if *sign == b')' {
        Visible::EndTag(number)
    } else {
        Visible::Start(number)
    }))
}

fn put(out: &mut Vec<u8>, bytes: &[u8]) -> Result<(), Memory> {
    for b in bytes {
        out.push(*b)?;
    }
    Ok(())
}

fn put_name(out: &mut Vec<u8>, dtd: &Dtd, number: u32) -> Result<(), Memory> {
    if number < dtd.elements() {
        put(out, dtd.element_name(number).items())?;
    }
    Ok(())
}

// The tags that were left out: `-D` an end-tag, `+D` a start-tag; `before` elements were open.
fn put_run(
    out: &mut Vec<u8>,
    dtd: &Dtd,
    tree: &Tree,
    chain: Chain,
    before: u32,
) -> Result<(), Memory>
    requires tree { IsTreeOf dtd.now tree.now }
    requires ends { chain.ends ≡ length tree.now.ended.items }
{
    out.push(b'[')?;
    for index in 0..chain.ends {
        out.push(b'-')?;
        put_name(out, dtd, tree.ended(index))?;
    }
    let kept = before.saturating_sub(chain.ends);
    for started in 0..chain.starts {
        let level = kept.saturating_add(started);
        if level < tree.depth() {
            out.push(b'+')?;
            put_name(out, dtd, tree.path(level))?;
        }
    }
    out.push(b']')?;
    if chain.included {
        out.push(b'i')?;
    }
    Ok(())
}

// What follows a start in the tree: NET is enabled, or the element ends.
fn after_start(dtd: &Dtd, tree: &mut Tree, element: u32, sign: u8)
    requires tree { IsTreeOf dtd.now tree.old }
    requires number { IsNumber dtd.now element }
    ensures tree { IsTreeOf dtd.now tree.new }
{
    if is_empty(dtd, element) || tree.depth() == 0 {
        return;
    }
    match sign {
        b'/' => tree.enable_net(),
        b'!' => tree.end_at_once(),
        _ => {}
    }
}

fn is_empty(dtd: &Dtd, element: u32) -> bool
    requires { IsNumber dtd.now element }
{
    match dtd.content(element) {
        Content::Empty => true,
        _ => false,
    }
}

fn sign_of(word: &[u8]) -> u8 {
    match word.first() {
        Some(b) => *b,
        None => b' ',
    }
}

fn take(
    alloc: Global,
    dtd: &Dtd,
    tree: &mut Tree,
    word: &[u8],
    out: &mut Vec<u8>,
) -> Result<(), Memory>
    requires tree { IsTreeOf dtd.now tree.old }
    ensures tree { IsTreeOf dtd.now tree.new }
{
    let Some(visible) = visible(alloc, dtd, word)? else {
        return Ok(());
    };
    let before = tree.depth();
    match tree.accept(dtd, visible) {
        Ok(chain) => {
            put_run(out, dtd, tree, chain, before)?;
            if let Visible::Start(element) = visible {
                after_start(dtd, tree, element, sign_of(word));
            }
        }
        Err(reason) => put(out, reason.code().as_bytes())?,
    }
    out.push(b' ')?;
    Ok(())
}

fn take_all(
    alloc: Global,
    dtd: &Dtd,
    tree: &mut Tree,
    words: &[u8],
    out: &mut Vec<u8>,
) -> Result<(), Memory>
    requires tree { IsTreeOf dtd.now tree.old }
    ensures tree { IsTreeOf dtd.now tree.new }
{
    for word in words.split(|b| *b == b' ') {
        take(alloc, dtd, tree, word, out)?;
    }
    Ok(())
}

// The open elements, the outermost first, and whether NET is in force.
fn put_path(dtd: &Dtd, tree: &Tree, out: &mut Vec<u8>) -> Result<(), Memory>
    requires { IsTreeOf dtd.now tree.now }
{
    for level in 0..tree.depth() {
        if level > 0 {
            out.push(b'/')?;
        }
        put_name(out, dtd, tree.path(level))?;
    }
    if tree.net() {
        put(out, b" net")?;
    }
    out.push(b'\n')?;
    Ok(())
}

fn put_all(
    alloc: Global,
    dtd: &Dtd,
    tree: &mut Tree,
    words: &[u8],
    out: &mut Vec<u8>,
) -> Result<(), Memory>
    requires tree { IsTreeOf dtd.now tree.old }
{
    take_all(alloc, dtd, tree, words, out)?;
    put(out, b": ")?;
    put_path(dtd, tree, out)
}

/// Adds the answers to a document's words, and the open elements behind the last.
pub fn answer(alloc: Global, dtd: &Dtd, words: &[u8], out: &mut Vec<u8>) -> Result<(), Memory> {
    let mut tree = Tree::new(alloc, dtd)?;
    put_all(alloc, dtd, &mut tree, words, out)
}
