// The stack of texts: its levels and the sum that may be opened, and what is done with it, word for
// word: `+E,N` opens the text of an entity, of N bytes; `?E,N` asks why it can't be opened; `-` ends
// the top; `>N` goes on; `top`, `high` and `sum` tell the place, the height and what was opened;
// `on,E` asks whether it is open; `*N` opens so many empty texts and counts them.
use crate::spelling::{cut, number_of, put, put_bool, put_number, small_of};
use sgml_entity::{InputStack, StackRefused};
use sgml_text::Memory;
use std::alloc::Global;

fn reason_of(refused: Option<StackRefused>) -> &'static [u8] {
    match refused {
        None => b"opens",
        Some(StackRefused::Recursive) => b"Recursive",
        Some(StackRefused::EntityLevel) => b"EntityLevel",
        Some(StackRefused::Expansion) => b"Expansion",
    }
}

fn open(stack: &mut InputStack, entity: u32, size: u64) -> Option<StackRefused> {
    if stack.height() == 0 {
        return None;
    }
    stack.push(entity, size).err()
}

fn open_many(stack: &mut InputStack, count: u32) -> u64 {
    let mut opened = 0u64;
    for n in 0..count {
        if open(stack, n.saturating_add(2), 0).is_none() {
            opened = opened.saturating_add(1);
        }
    }
    opened
}

fn go_on(stack: &mut InputStack, by: u64) {
    if let Some(top) = stack.top() {
        if top.at < 1_000_000_000 && by < 1_000_000_000 {
            stack.advance(by);
        }
    }
}

fn end_top(stack: &mut InputStack) {
    if stack.height() > 0 {
        stack.pop();
    }
}

fn put_top(alloc: Global, stack: &InputStack, out: &mut Vec<u8>) -> Result<(), Memory> {
    if let Some(top) = stack.top() {
        put_number(alloc, out, u64::from(top.entity))?;
        put(out, b"@")?;
        put_number(alloc, out, top.at)?;
    }
    Ok(())
}

fn tell(
    alloc: Global,
    stack: &mut InputStack,
    word: &[u8],
    out: &mut Vec<u8>,
) -> Result<(), Memory> {
    match word {
        b"-" => {
            end_top(stack);
            put(out, b"ended")
        }
        b"top" => put_top(alloc, stack, out),
        b"high" => put_number(alloc, out, stack.height() as u64),
        b"sum" => put_number(alloc, out, stack.spent()),
        _ => open_or_ask(alloc, stack, word, out),
    }
}

fn open_or_ask(
    alloc: Global,
    stack: &mut InputStack,
    word: &[u8],
    out: &mut Vec<u8>,
) -> Result<(), Memory> {
    let [sign, rest @ ..] = word else {
        return Ok(());
    };
    let (first, second) = cut(rest, b',');
    let size = number_of(second);
    match *sign {
        b'+' => put(out, reason_of(open(stack, small_of(first), size))),
        b'?' => put(out, reason_of(stack.refusal(small_of(first), size))),
        b'*' => put_number(alloc, out, open_many(stack, small_of(first))),
        b'>' => {
            go_on(stack, number_of(first));
            put(out, b"on")
        }
        _ => put_bool(out, stack.is_on(small_of(second))),
    }
}

pub fn answer(alloc: Global, case: &[u8], out: &mut Vec<u8>) -> Result<(), Memory> {
    let (limits, words) = cut(case, b'\t');
    let (levels, expand) = cut(limits, b' ');
    let mut stack = InputStack::new(alloc, small_of(levels), number_of(expand))?;
    for word in words.split(|b| *b == b' ') {
        tell(alloc, &mut stack, word, out)?;
        put(out, b" ")?;
    }
    Ok(())
}
