// The declarations of a file, one after another. What begins no declaration, or one that is refused,
// is passed over a byte at a time.
ghost use Rattle.std.specs.Prelude.{◌≡◌, ◌<◌, ◌+◌, ◌^◌, IsTrue, length};
ghost use Rattle.sgml_entity.specs.Stack.{offset_of};

use sgml_decl_lexemes::{begins, lexemes};
use sgml_decl_parts::Construct;
use sgml_dtd::Dtd;
use sgml_entity::{InputStack, Texts};
use sgml_syntax::Syntax;
use sgml_text::{Memory, Text};
use std::alloc::Global;

// One declaration at the top of the stack, or a byte passed over.
fn turn(
    alloc: Global,
    syntax: &Syntax,
    dtd: &mut Dtd,
    base: &Text,
    stack: &mut InputStack,
    texts: &Texts,
) {
    if begins(dtd.entities(), stack, texts, Construct::Declaration) {
        if let Ok(declaration) = lexemes(alloc, syntax, dtd.entities(), stack, texts, true) {
            let _ = dtd.add(&declaration, base);
            return;
        }
    }
    pass_over(stack);
}

fn pass_over(stack: &mut InputStack) {
    if let Some(top) = stack.top() {
        if top.at < 1_000_000_000 {
            stack.advance(1);
        }
    }
}

fn is_within(stack: &InputStack, size: usize) -> bool {
    match stack.top() {
        Some(top) => top.at < size as u64,
        None => false,
    }
}

fn read_each(
    alloc: Global,
    syntax: &Syntax,
    dtd: &mut Dtd,
    stack: &mut InputStack,
    texts: &Texts,
    size: usize,
) {
    let base = Text::of(Vec::new(alloc));
    for _ in 0..size {
        if is_within(stack, size) {
            turn(alloc, syntax, dtd, &base, stack, texts);
        }
    }
}

fn texts_of(alloc: Global, bytes: &[u8]) -> Result<Box<Texts>, Memory> {
    let mut texts = Box::new(alloc, Texts::new(alloc))?;
    texts.append(0, bytes)?;
    Ok(texts)
}

/// Adds the declarations of these bytes.
pub fn read_all(alloc: Global, syntax: &Syntax, dtd: &mut Dtd, bytes: &[u8]) -> Result<(), Memory> {
    let mut stack = InputStack::new(alloc, syntax.quantities.entlvl, 67_108_864)?;
    let texts = texts_of(alloc, bytes)?;
    read_each(alloc, syntax, dtd, &mut stack, &texts, bytes.len());
    Ok(())
}
