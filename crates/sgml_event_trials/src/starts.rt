// Starts of elements: a start-tag, or the name of an element type where the tag was omitted.
ghost use Rattle.std.specs.Prelude.{◌≡◌, ◌<◌, ◌≤◌, ◌+◌, true, IfOk, IfSome, length};
ghost use Rattle.sgml_dtd.specs.dtd_elements.Types.{types};
ghost use Rattle.sgml_starts.specs.decl_lexemes.Sources.{text_at, or_empty};

use crate::writing::{bytes_of, put_value};
use sgml_attr::{AttrValue, Currents};
use sgml_dtd::Dtd;
use sgml_entity::{InputStack, Texts};
use sgml_said::definitions;
use sgml_starts::{StartError, StartValues, start_values};
use sgml_text::{Memory, Name, Reason, fold};
use sgml_trials::{put, put_counted};
use std::alloc::Global;

/// What a start is, or why it isn't one.
#[derive(Drop)]
pub enum Started {
    Valued { element: u32, values: StartValues },
    Refused(Reason),
    Wanted(u32),
    /// There is no such element type, or no such text.
    Nothing,
}

// A name, folded as the syntax folds names.
fn name_of(alloc: Global, dtd: &Dtd, spelled: &[u8]) -> Result<Name, Memory>
    requires { 0 < length spelled.now }
{
    if dtd.syntax().general_fold {
        return fold(alloc, spelled);
    }
    Name::copied(alloc, spelled)
}

/// The number of an element type.
pub fn element_of(alloc: Global, dtd: &Dtd, spelled: &[u8]) -> Result<Option<u32>, Memory>
    ensures { IfOk result (λ found. IfSome found (λ n. n < length (types dtd.now.elements))) }
{
    if spelled.is_empty() {
        return Ok(None);
    }
    let name = name_of(alloc, dtd, spelled)?;
    match dtd.element(&name) {
        Some(number) if number < dtd.elements() => Ok(Some(number)),
        _ => Ok(None),
    }
}

// The name at the front of what follows `<`.
fn front_name<'a>(dtd: &Dtd, rest: &'a [u8]) -> &'a [u8] {
    let set = dtd.syntax().names;
    match rest.iter().position(|b| !set.goes_on(*b)) {
        Some(end) => &rest[..end],
        None => rest,
    }
}

fn document_size(texts: &Texts) -> u64 {
    match texts.get(0) {
        Some(text) => text.len() as u64,
        None => 0,
    }
}

// Whether so many bytes stand at this place of the document.
fn stand_there(dtd: &Dtd, texts: &Texts, at: u64, size: u64) -> bool
    ensures { result ≡ true → at + size ≤ length (or_empty (text_at dtd.now.entities texts.now 0)) }
{
    match (dtd.entities().get(0), texts.get(0)) {
        (None, Some(text)) => text.len() as u64 >= at && text.len() as u64 - at >= size,
        _ => false,
    }
}

fn of_answer(element: u32, answer: Result<StartValues, StartError>) -> Result<Started, Memory> {
    match answer {
        Ok(values) => Ok(Started::Valued { element, values }),
        Err(StartError::Refused(reason)) => Ok(Started::Refused(reason)),
        Err(StartError::Wanted(entity)) => Ok(Started::Wanted(entity)),
        Err(StartError::Memory) => Err(Memory),
    }
}

// The start of this element type by the last bytes of the document, which are its tag.
fn tag_start(
    alloc: Global,
    dtd: &Dtd,
    texts: &Texts,
    currents: &mut Currents,
    element: u32,
    size: u64,
) -> Result<Started, Memory>
    requires element { element < length (types dtd.now.elements) }
    requires lists { length currents.old ≡ length dtd.now.lists }
    ensures lists { length currents.new ≡ length dtd.now.lists }
{
    let syntax = dtd.syntax();
    let at = document_size(texts).saturating_sub(size);
    if !stand_there(dtd, texts, at, size) {
        return Ok(Started::Nothing);
    }
    let mut stack = InputStack::new(alloc, syntax.quantities.entlvl, 1000)?;
    stack.advance(at);
    let tag = Some(size);
    of_answer(
        element,
        start_values(
            alloc, syntax, dtd, element, tag, &mut stack, texts, currents,
        ),
    )
}

// The start of this element type without a tag.
fn omitted_start(
    alloc: Global,
    dtd: &Dtd,
    texts: &Texts,
    currents: &mut Currents,
    element: u32,
) -> Result<Started, Memory>
    requires element { element < length (types dtd.now.elements) }
    requires lists { length currents.old ≡ length dtd.now.lists }
    ensures lists { length currents.new ≡ length dtd.now.lists }
{
    let syntax = dtd.syntax();
    let mut stack = InputStack::new(alloc, syntax.quantities.entlvl, 1000)?;
    of_answer(
        element,
        start_values(
            alloc, syntax, dtd, element, None, &mut stack, texts, currents,
        ),
    )
}

// The start that a tag is, which is put behind the document.
fn tagged(
    alloc: Global,
    dtd: &Dtd,
    texts: &mut Texts,
    currents: &mut Currents,
    tag: &[u8],
) -> Result<Started, Memory>
    requires lists { length currents.old ≡ length dtd.now.lists }
    ensures lists { length currents.new ≡ length dtd.now.lists }
{
    let Some(element) = element_of(alloc, dtd, front_name(dtd, &tag[1.min(tag.len())..]))? else {
        return Ok(Started::Nothing);
    };
    texts.append(0, tag)?;
    tag_start(alloc, dtd, texts, currents, element, tag.len() as u64)
}

// The start that a name is.
fn named(
    alloc: Global,
    dtd: &Dtd,
    texts: &Texts,
    currents: &mut Currents,
    name: &[u8],
) -> Result<Started, Memory>
    requires lists { length currents.old ≡ length dtd.now.lists }
    ensures lists { length currents.new ≡ length dtd.now.lists }
{
    let Some(element) = element_of(alloc, dtd, name)? else {
        return Ok(Started::Nothing);
    };
    omitted_start(alloc, dtd, texts, currents, element)
}

/// What this start is after the ones before it.
pub fn start(
    alloc: Global,
    dtd: &Dtd,
    texts: &mut Texts,
    currents: &mut Currents,
    spelled: &[u8],
) -> Result<Started, Memory>
    requires lists { length currents.old ≡ length dtd.now.lists }
    ensures lists { length currents.new ≡ length dtd.now.lists }
{
    if spelled.first() == Some(&b'<') {
        let tag = bytes_of(alloc, spelled)?;
        return tagged(alloc, dtd, texts, currents, &tag);
    }
    named(alloc, dtd, texts, currents, spelled)
}

fn put_values(
    out: &mut Vec<u8>,
    dtd: &Dtd,
    element: u32,
    values: &[AttrValue],
) -> Result<(), Memory> {
    for (definition, value) in definitions(dtd, element).iter().zip(values) {
        out.push(b' ')?;
        out.extend_from_slice(definition.name.items())?;
        put_value(out, dtd, value)?;
    }
    Ok(())
}

fn put_valued(
    out: &mut Vec<u8>,
    dtd: &Dtd,
    element: u32,
    told: &StartValues,
) -> Result<(), Memory> {
    put_values(out, dtd, element, told.values.items())?;
    if told.conref {
        put(out, " CONREF")?;
    }
    Ok(())
}

fn put_started(
    alloc: Global,
    out: &mut Vec<u8>,
    dtd: &Dtd,
    started: &Started,
) -> Result<(), Memory> {
    match started {
        Started::Valued { element, values } => put_valued(out, dtd, *element, values),
        Started::Refused(reason) => {
            out.push(b' ')?;
            put(out, reason.code())
        }
        Started::Wanted(entity) => put_counted(alloc, out, " wanted ", *entity as u64),
        Started::Nothing => put(out, " nothing"),
    }
}

fn answer_start(
    alloc: Global,
    dtd: &Dtd,
    texts: &mut Texts,
    currents: &mut Currents,
    spelled: &[u8],
    out: &mut Vec<u8>,
) -> Result<(), Memory>
    requires lists { length currents.old ≡ length dtd.now.lists }
    ensures lists { length currents.new ≡ length dtd.now.lists }
{
    let started = start(alloc, dtd, texts, currents, spelled)?;
    put_started(alloc, out, dtd, &started)?;
    put(out, ";")
}

fn answer_each(
    alloc: Global,
    dtd: &Dtd,
    texts: &mut Texts,
    currents: &mut Currents,
    starts: &[u8],
    out: &mut Vec<u8>,
) -> Result<(), Memory>
    requires lists { length currents.old ≡ length dtd.now.lists }
    ensures lists { length currents.new ≡ length dtd.now.lists }
{
    for spelled in starts.split(|b| *b == b'\t') {
        answer_start(alloc, dtd, texts, currents, spelled, out)?;
    }
    Ok(())
}

/// What these starts are, one after another, without current values before the first.
pub fn answer_starts(
    alloc: Global,
    dtd: &Dtd,
    texts: &mut Texts,
    starts: &[u8],
    out: &mut Vec<u8>,
) -> Result<(), Memory> {
    let mut currents = Currents::new(alloc, dtd.lists())?;
    answer_each(alloc, dtd, texts, &mut currents, starts, out)
}
