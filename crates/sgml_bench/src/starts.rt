// The values of starts, one after another, each with the end of its values.
ghost use Rattle.std.specs.Prelude.{◌≡◌, ◌<◌, ◌≤◌, true, Some, IfSome, length};
ghost use Rattle.sgml_dtd.specs.dtd_elements.Types.{types};
ghost use Rattle.sgml_starts.specs.Starts.{StandsThere, input_of};
ghost use Rattle.sgml_starts.specs.decl_lexemes.Sources.{text_at, or_empty};

use sgml_attr::Currents;
use sgml_dtd::Dtd;
use sgml_entity::{InputStack, Texts};
use sgml_starts::start_values;
use sgml_syntax::implied;
use sgml_text::{Memory, Name};
use sgml_trial_tables::add;
use std::alloc::Global;
use std::time::Instant;

// So many element types have an attribute list that these are found by hashing.
const DECLARATIONS: [&[u8]; 3] = [
    b"<!ELEMENT (PLAIN|LISTED) - - (#PCDATA)>",
    b"<!ATTLIST LISTED TITLE CDATA #IMPLIED KEY NMTOKEN #IMPLIED>",
    b"<!ATTLIST (A|B|C|D|E|F|G|H|I|J) KEY NMTOKEN #IMPLIED>",
];

// Element types, their tags, and what is written about them.
const STARTS: [(&[u8], &[u8], &str); 4] = [
    (b"PLAIN", b"<plain>", "no attribute list"),
    (b"LISTED", b"<listed>", "a list and nothing specified"),
    (b"LISTED", b"<listed title=\"a title\">", "one attribute"),
    (
        b"LISTED",
        b"<listed title=\"a title\" key=k1>",
        "two attributes",
    ),
];

// The fastest of so many rounds counts.
const ROUNDS: u32 = 9;

fn document_type(alloc: Global) -> Result<Dtd, Memory> {
    let mut dtd = Dtd::new(alloc, &implied())?;
    for declaration in &DECLARATIONS {
        if add(alloc, &mut dtd, declaration).is_err() {
            return Err(Memory);
        }
    }
    Ok(dtd)
}

fn element_of(alloc: Global, dtd: &Dtd, name: &[u8]) -> Option<u32>
    ensures { IfSome result (λ n. n < length (types dtd.now.elements)) }
{
    if name.is_empty() {
        return None;
    }
    let Ok(name) = Name::copied(alloc, name) else {
        return None;
    };
    match dtd.element(&name) {
        Some(number) if number < dtd.elements() => Some(number),
        _ => None,
    }
}

// Whether so many bytes stand at the front of the document.
fn stand_there(dtd: &Dtd, texts: &Texts, size: u64) -> bool
    ensures { result ≡ true → size ≤ length (or_empty (text_at dtd.now.entities texts.now 0)) }
{
    match (dtd.entities().get(0), texts.get(0)) {
        (None, Some(text)) => text.len() as u64 >= size,
        _ => false,
    }
}

// Whether the start-tag at the top has values. The stack stands before it again.
#[inline(always)]
fn has_values(
    alloc: Global,
    dtd: &Dtd,
    element: u32,
    size: u64,
    stack: &mut InputStack,
    texts: &Texts,
    currents: &mut Currents,
) -> bool
    requires element { element < length (types dtd.now.elements) }
    requires lists { length currents.old ≡ length dtd.now.lists }
    requires tag { StandsThere (input_of dtd.now.syntax dtd.now texts.now stack.old) (Some size) }
    ensures lists { length currents.new ≡ length dtd.now.lists }
    ensures stack { stack.new ≡ stack.old }
{
    let mark = stack.mark();
    let tag = Some(size);
    let answer = start_values(
        alloc,
        dtd.syntax(),
        dtd,
        element,
        tag,
        stack,
        texts,
        currents,
    );
    stack.rewind(mark);
    answer.is_ok()
}

// Whether it has values so many times.
#[inline(never)]
fn have_values(
    alloc: Global,
    dtd: &Dtd,
    element: u32,
    size: u64,
    stack: &mut InputStack,
    texts: &Texts,
    currents: &mut Currents,
    count: u32,
) -> bool
    requires element { element < length (types dtd.now.elements) }
    requires lists { length currents.old ≡ length dtd.now.lists }
    requires tag { StandsThere (input_of dtd.now.syntax dtd.now texts.now stack.old) (Some size) }
    ensures lists { length currents.new ≡ length dtd.now.lists }
    ensures stack { stack.new ≡ stack.old }
{
    'starts: for _ in 0..count {
        if !has_values(alloc, dtd, element, size, stack, texts, currents) {
            return false;
        }
    }
    true
}

// The nanoseconds of a round, where all have values.
fn time(
    rt: &HostRuntime,
    dtd: &Dtd,
    element: u32,
    size: u64,
    texts: &Texts,
    count: u32,
) -> Option<u128>
    requires { element < length (types dtd.now.elements) }
{
    if !stand_there(dtd, texts, size) {
        return None;
    }
    let alloc = rt.alloc();
    let Ok(mut stack) = InputStack::new(alloc, 16, 1_000_000) else {
        return None;
    };
    let Ok(mut currents) = Currents::new(alloc, dtd.lists()) else {
        return None;
    };
    let Ok(start) = Instant::now(rt) else {
        return None;
    };
    let all = have_values(
        alloc,
        dtd,
        element,
        size,
        &mut stack,
        texts,
        &mut currents,
        count,
    );
    match start.elapsed(rt) {
        Ok(time) if all => Some(time.as_nanos()),
        _ => None,
    }
}

fn fastest(
    rt: &HostRuntime,
    dtd: &Dtd,
    element: u32,
    size: u64,
    texts: &Texts,
    count: u32,
) -> Option<u128>
    requires { element < length (types dtd.now.elements) }
{
    let mut best = None;
    for _ in 0..ROUNDS {
        match (time(rt, dtd, element, size, texts, count), best) {
            (Some(time), Some(least)) => best = Some(time.min(least)),
            (Some(time), None) => best = Some(time),
            (None, _) => return None,
        }
    }
    best
}

// The document is the tag and what follows it.
fn document(alloc: Global, tag: &[u8]) -> Result<Box<Texts>, Memory> {
    let mut texts = Box::new(alloc, Texts::new(alloc))?;
    texts.append(0, tag)?;
    texts.append(0, b"text")?;
    Ok(texts)
}

#[inline(never)]
fn measure_start(
    rt: &HostRuntime,
    dtd: &Dtd,
    name: &[u8],
    tag: &[u8],
    words: &str,
    count: u32,
) -> Result<(), Memory> {
    let alloc = rt.alloc();
    let texts = document(alloc, tag)?;
    let Some(element) = element_of(alloc, dtd, name) else {
        return Ok(());
    };
    if let Some(time) = fastest(rt, dtd, element, tag.len() as u64, &texts, count) {
        let _ = println!(rt; "{words}: {} ns", time / count.max(1) as u128);
    }
    Ok(())
}

fn measure_starts(rt: &HostRuntime, count: u32) -> Result<(), Memory> {
    let dtd = document_type(rt.alloc())?;
    for (name, tag, words) in &STARTS {
        measure_start(rt, &dtd, name, tag, words, count)?;
    }
    Ok(())
}

pub fn measure(rt: &HostRuntime, size: &str) {
    if let Ok(count) = size.parse::<u32>() {
        let _ = measure_starts(rt, count);
    }
}
