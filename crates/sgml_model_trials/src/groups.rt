// Groups as a case spells them: each letter is a name, `#` is `#PCDATA`, and `3[A|]` stands for
// `A|A|A|`.
use sgml_model::{GroupError, GroupLimits, GroupToken, Model, Which, read_group};
use sgml_text::{Memory, Name};
use sgml_trials::{number_of, put, put_number, split_at};
use std::alloc::Global;

// What stands up to a `]`, written out.
fn write_out(out: &mut Vec<u8>, text: &[u8]) -> Result<(), Memory> {
    let (head, repeated) = split_at(text, b'[');
    let Some(at) = head.iter().position(|b| b.is_ascii_digit()) else {
        out.extend_from_slice(head)?;
        return Ok(());
    };
    out.extend_from_slice(&head[..at])?;
    for _ in 0..number_of(&head[at..]) {
        out.extend_from_slice(repeated)?;
    }
    Ok(())
}

fn token(alloc: Global, b: u8) -> Result<GroupToken, Memory> {
    Ok(match b {
        b'(' => GroupToken::Begin,
        b')' => GroupToken::Finish,
        b'#' => GroupToken::Pcdata,
        b',' => GroupToken::Seq,
        b'|' => GroupToken::Or,
        b'&' => GroupToken::And,
        b'?' => GroupToken::Opt,
        b'+' => GroupToken::Plus,
        b'*' => GroupToken::Rep,
        _ => GroupToken::Name(Name::of([b].to_vec(alloc)?)),
    })
}

fn tokens(alloc: Global, text: &[u8]) -> Result<Vec<GroupToken>, Memory> {
    let mut letters = Vec::new(alloc);
    for part in text.split(|b| *b == b']') {
        write_out(&mut letters, part)?;
    }
    let mut tokens = Vec::new(alloc);
    for b in &letters {
        tokens.push(token(alloc, *b)?)?;
    }
    Ok(tokens)
}

/// The model of a group.
pub fn read(alloc: Global, text: &[u8], limits: GroupLimits) -> Result<Model, GroupError> {
    let tokens = tokens(alloc, text)?;
    read_group(alloc, &tokens, limits)
}

/// Where no group goes on, or the quantity that it passes.
pub fn put_refusal(alloc: Global, out: &mut Vec<u8>, error: GroupError) -> Result<(), Memory> {
    match error {
        GroupError::Memory => Err(Memory),
        GroupError::BadGroup { at } => {
            put(out, "no group at ")?;
            put_number(alloc, out, at as u64)
        }
        GroupError::GroupLimit(Which::Count) => put(out, "GRPCNT"),
        GroupError::GroupLimit(Which::Total) => put(out, "GRPGTCNT"),
        GroupError::GroupLimit(Which::Level) => put(out, "GRPLVL"),
    }
}
