// What a start-tag specifies.
ghost use Rattle.std.specs.Prelude.{◌≡◌, ◌<◌, ◌+◌, ◌-◌, ◌^◌, [], true, length, None, Some, Ok, Err, IfOk, IfErr};
ghost use Rattle.sgml_text.specs.Characters.{is_quote};
ghost use Rattle.sgml_entity.specs.Stack.{moved_to, offset_of};
ghost use Rattle.sgml_starts.specs.Read.{IsLiteral, IsNoLiteral, IsStopped, StandsAlike};
ghost use Rattle.sgml_starts.specs.Answered.{literal_at, ReadsTag};

use crate::error::{StartError, error_of};
use sgml_attr::Spec;
use sgml_decl_lexemes::literal;
use sgml_entity::{Entities, InputStack, StackMark, Texts};
use sgml_markup::{Part, PartKind, lone_name, next_part, tag_walk};
use sgml_syntax::Syntax;
use sgml_text::{Memory, Name, Units};
use std::alloc::Global;

/// The specifications up to the first whose literal can't be read, and why that can't.
#[derive(Drop)]
pub(crate) struct Read {
    pub(crate) specs: Vec<Spec>,
    pub(crate) stop: Option<StartError>,
}

/// Goes on at this place of the text at the top.
pub(crate) fn move_to(stack: &mut InputStack, at: u64)
    requires { 0 < length stack.old.places }
    ensures { stack.new ≡ record stack.old { places = moved_to at stack.old.places } }
{
    let mark = stack.mark();
    stack.rewind(StackMark {
        depth: mark.depth,
        at,
        spent: mark.spent,
    });
}

// The units of the literal that goes on at this place of the text at the top, after its quote.
pub(crate) fn literal_at(
    alloc: Global,
    syntax: &Syntax,
    entities: &Entities,
    texts: &Texts,
    stack: &mut InputStack,
    quote: u8,
    at: u64,
) -> Result<Units, StartError>
    requires some { 0 < length stack.old.places }
    requires quote { is_quote quote ≡ true }
    ensures ok { IfOk result (λ units. IsLiteral (literal_at syntax.now entities.now texts.now stack.old at quote) units stack.new) }
    ensures err { IfErr result (λ e. IsNoLiteral (literal_at syntax.now entities.now texts.now stack.old at quote) e) }
    ensures alike { StandsAlike stack.old stack.new }
{
    move_to(stack, at);
    match literal(alloc, syntax, entities, stack, texts, quote) {
        Ok(units) => Ok(units),
        Err(error) => Err(error_of(error)),
    }
}

// What was read up to a literal that can't be read for this reason.
fn stopped(specs: Vec<Spec>, error: StartError) -> Result<Read, Memory>
    ensures { IfOk result (IsStopped specs.items error) }
{
    match error {
        StartError::Memory => Err(Memory),
        _ => Ok(Read {
            specs,
            stop: Some(error),
        }),
    }
}

/// What is specified where nothing is.
pub(crate) fn nothing(alloc: Global) -> Read
    ensures specs { result.specs.items ≡ [] }
    ensures stop { result.stop ≡ None }
{
    Read {
        specs: Vec::new(alloc),
        stop: None,
    }
}

/// What a tag specifies that stands at this place of the text at the top. Afterwards the stack stands
/// somewhere in that text.
pub(crate) fn read_tag(
    alloc: Global,
    syntax: &Syntax,
    entities: &Entities,
    texts: &Texts,
    stack: &mut InputStack,
    tag: &[u8],
    at: u64,
) -> Result<Read, Memory>
    requires some { 0 < length stack.old.places }
    requires at { at ≡ offset_of stack.old.places }
    requires fits { at + length tag.now < 2 ^ 64 }
    ensures ok { IfOk result (λ read. ReadsTag syntax.now entities.now texts.now stack.old tag.now read stack.new) }
    ensures alike { StandsAlike stack.old stack.new }
{
    match lone_name(syntax, tag) {
        Some(_) => Ok(nothing(alloc)),
        None => read_parts(alloc, syntax, entities, texts, stack, tag, at),
    }
}

// The same, part by part.
fn read_parts(
    alloc: Global,
    syntax: &Syntax,
    entities: &Entities,
    texts: &Texts,
    stack: &mut InputStack,
    tag: &[u8],
    at: u64,
) -> Result<Read, Memory>
    requires some { 0 < length stack.old.places }
    requires at { at ≡ offset_of stack.old.places }
    requires fits { at + length tag.now < 2 ^ 64 }
    ensures ok { IfOk result (λ read. ReadsTag syntax.now entities.now texts.now stack.old tag.now read stack.new) }
    ensures alike { StandsAlike stack.old stack.new }
{
    let mut walk = tag_walk(tag);
    let mut specs = Vec::new(alloc);
    let mut name = None;
    'parts: while let Some(part) = next_part(syntax, tag, &mut walk) {
        match part.kind {
            PartKind::ElementName => name = None,
            PartKind::AttributeName => name = Some(Name::copied(alloc, &tag[part.from..part.to])?),
            PartKind::Bare => {
                let value = Units::of_bytes(alloc, &tag[part.from..part.to])?;
                specs.push(Spec { name, value })?;
                name = None;
            }
            PartKind::Quoted => {
                let quote = tag[part.from - 1];
                let begin = at + part.from as u64;
                match literal_at(alloc, syntax, entities, texts, stack, quote, begin) {
                    Ok(value) => {
                        specs.push(Spec { name, value })?;
                        name = None;
                    }
                    Err(error) => return stopped(specs, error),
                }
            }
        }
    }
    Ok(Read { specs, stop: None })
}
