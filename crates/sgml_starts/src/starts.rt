// The values of a start.
ghost use Rattle.std.specs.Prelude.{◌≡◌, ◌<◌, ◌+◌, ◌^◌, [], None, Some, false, length, slice_get, take, IfOk, IfErr, IfSome, IsTrue, OnOk, OnErr};
ghost use Rattle.sgml_dtd.specs.dtd_elements.Types.{types};
ghost use Rattle.sgml_entity.specs.Stack.{offset_of};
ghost use Rattle.sgml_starts.specs.Specified.{specified, rest};
ghost use Rattle.sgml_starts.specs.Read.{StandsAlike};
ghost use Rattle.sgml_starts.specs.Values.{Start};
ghost use Rattle.sgml_starts.specs.Starts.{input_of, definitions_of, StandsThere, after};
ghost use Rattle.sgml_starts.specs.Answered.{HasValuesOf, HasNoValues, after_tag, SpecifiesNothing, TagHasValues, TagHasNone, spent_in_tag, ReadHasValues, ReadHasNone, IsRefusedAlone};

use crate::error::StartError;
use crate::filling::Start;
use crate::reading::{Read, move_to, nothing, read_tag};
use crate::setting::set_all;
use sgml_attr::{Currents, Definition, Values};
use sgml_decl_lexemes::unread;
use sgml_dtd::Dtd;
use sgml_entity::{InputStack, Texts};
use sgml_markup::lone_name;
use sgml_syntax::Syntax;
use sgml_text::Reason;
use std::alloc::Global;

/// The values of the attributes of a start.
#[derive(Drop)]
pub struct StartValues {
    /// In the order of the definitions of its element type.
    pub values: Values,
    /// An attribute whose default is #CONREF is specified, so that the element has no content.
    pub conref: bool,
}

/// The values of the attributes of a start of an element type (7.9, 11.3): of the start-tag of so
/// many bytes at the top of the stack, or of a start without a tag, which specifies nothing. The stack
/// then stands directly after the tag, and the values that were specified of attributes whose default
/// is #CURRENT are the current values of the element type's attribute list.
///
/// It is refused by the first reason that holds: of the specifications in their order, the first row
/// of a reference in the literal, else `UnknownAttribute`, else of `NameLength`, `LiteralLimit`,
/// `NotationUnknown`, `Twice`, `NotAToken`, `NotInGroup`, `FixedDiffers` and `EntityUnknown`; then, of
/// the definitions without a specification in their order, `Required`, `NoCurrent`, or a row of the
/// default. An error leaves the stack and the current values as they were.
#[inline(always)]
pub fn start_values(
    alloc: Global,
    syntax: &Syntax,
    dtd: &Dtd,
    element: u32,
    tag: Option<u64>,
    stack: &mut InputStack,
    texts: &Texts,
    currents: &mut Currents,
) -> Result<StartValues, StartError>
    requires element { element < length (types dtd.now.elements) }
    requires lists { length currents.old ≡ length dtd.now.lists }
    requires tag { StandsThere (input_of syntax.now dtd.now texts.now stack.old) tag }
    ensures ok { IfOk result (λ v. HasValuesOf syntax.now dtd.now element currents.old texts.now stack.old tag v currents.new) }
    ensures after { OnOk result (stack.new ≡ after_tag syntax.now dtd.now texts.now stack.old tag) }
    ensures err { IfErr result (HasNoValues syntax.now dtd.now element currents.old texts.now stack.old tag) }
    ensures err_stack { OnErr result (stack.new ≡ stack.old) }
    ensures err_currents { OnErr result (currents.new ≡ currents.old) }
{
    match tag {
        None => values_of(alloc, syntax, dtd, element, &nothing(alloc), currents),
        Some(size) => { tag_values(alloc, syntax, dtd, element, size, stack, texts, currents) }
    }
}

// The values of a start-tag.
#[inline(always)]
fn tag_values(
    alloc: Global,
    syntax: &Syntax,
    dtd: &Dtd,
    element: u32,
    size: u64,
    stack: &mut InputStack,
    texts: &Texts,
    currents: &mut Currents,
) -> Result<StartValues, StartError>
    requires element { element < length (types dtd.now.elements) }
    requires lists { length currents.old ≡ length dtd.now.lists }
    requires tag { StandsThere (input_of syntax.now dtd.now texts.now stack.old) (Some size) }
    ensures ok { IfOk result (λ v. HasValuesOf syntax.now dtd.now element currents.old texts.now stack.old (Some size) v currents.new) }
    ensures after { OnOk result (stack.new ≡ after_tag syntax.now dtd.now texts.now stack.old (Some size)) }
    ensures err { IfErr result (HasNoValues syntax.now dtd.now element currents.old texts.now stack.old (Some size)) }
    ensures err_stack { OnErr result (stack.new ≡ stack.old) }
    ensures err_currents { OnErr result (currents.new ≡ currents.old) }
{
    let definitions = dtd.definitions(element);
    if is_lone(syntax, dtd, definitions, size, stack, texts) {
        stack.advance(size);
        return Ok(no_values(alloc));
    }
    specified_values(
        alloc,
        syntax,
        dtd,
        element,
        definitions,
        size,
        stack,
        texts,
        currents,
    )
}

// The same of a tag that may specify something, of an element type with these attribute definitions.
#[inline(never)]
fn specified_values(
    alloc: Global,
    syntax: &Syntax,
    dtd: &Dtd,
    element: u32,
    definitions: &[Definition],
    size: u64,
    stack: &mut InputStack,
    texts: &Texts,
    currents: &mut Currents,
) -> Result<StartValues, StartError>
    requires element { element < length (types dtd.now.elements) }
    requires lists { length currents.old ≡ length dtd.now.lists }
    requires definitions { definitions.now ≡ definitions_of dtd.now element }
    requires tag { StandsThere (input_of syntax.now dtd.now texts.now stack.old) (Some size) }
    ensures ok { IfOk result (λ v. HasValuesOf syntax.now dtd.now element currents.old texts.now stack.old (Some size) v currents.new) }
    ensures after { OnOk result (stack.new ≡ after_tag syntax.now dtd.now texts.now stack.old (Some size)) }
    ensures err { IfErr result (HasNoValues syntax.now dtd.now element currents.old texts.now stack.old (Some size)) }
    ensures err_stack { OnErr result (stack.new ≡ stack.old) }
    ensures err_currents { OnErr result (currents.new ≡ currents.old) }
{
    let mark = stack.mark();
    match read_values(
        alloc,
        syntax,
        dtd,
        element,
        definitions,
        mark.at,
        size,
        stack,
        texts,
        currents,
    ) {
        Ok(values) => {
            move_to(stack, mark.at + size);
            Ok(values)
        }
        Err(error) => {
            stack.rewind(mark);
            Err(error)
        }
    }
}

// Whether the tag is a name alone, and its element type has no attributes.
#[inline(always)]
fn is_lone(
    syntax: &Syntax,
    dtd: &Dtd,
    definitions: &[Definition],
    size: u64,
    stack: &InputStack,
    texts: &Texts,
) -> bool
    requires tag { StandsThere (input_of syntax.now dtd.now texts.now stack.now) (Some size) }
    ensures none { IsTrue result → definitions.now ≡ [] }
    ensures specified { IsTrue result → SpecifiesNothing syntax.now dtd.now texts.now stack.now size }
    ensures fits { IsTrue result → offset_of stack.now.places + size < 2 ^ 64 }
{
    if !definitions.is_empty() {
        return false;
    }
    let tag = &unread(dtd.entities(), texts, stack)[..size as usize];
    lone_name(syntax, tag).is_some()
}

// The values of no attributes.
fn no_values(alloc: Global) -> StartValues
    ensures values { result.values ≡ [] }
    ensures conref { result.conref ≡ false }
{
    StartValues {
        values: Values::of(Vec::new(alloc)),
        conref: false,
    }
}

// A tag of so many bytes is read part by part; a longer one is read as a whole, and what it specifies is
// found by hashing where that is much.
const SHORT: usize = 256;

// The same, with the stack anywhere in its text.
fn read_values(
    alloc: Global,
    syntax: &Syntax,
    dtd: &Dtd,
    element: u32,
    definitions: &[Definition],
    at: u64,
    size: u64,
    stack: &mut InputStack,
    texts: &Texts,
    currents: &mut Currents,
) -> Result<StartValues, StartError>
    requires element { element < length (types dtd.now.elements) }
    requires lists { length currents.old ≡ length dtd.now.lists }
    requires definitions { definitions.now ≡ definitions_of dtd.now element }
    requires at { at ≡ offset_of stack.old.places }
    requires tag { StandsThere (input_of syntax.now dtd.now texts.now stack.old) (Some size) }
    ensures ok { IfOk result (λ v. HasValuesOf syntax.now dtd.now element currents.old texts.now stack.old (Some size) v currents.new) }
    ensures spent { OnOk result (stack.new.spent ≡ (specified (input_of syntax.now dtd.now texts.now stack.old) (Some size)).spent) }
    ensures err { IfErr result (HasNoValues syntax.now dtd.now element currents.old texts.now stack.old (Some size)) }
    ensures err_currents { OnErr result (currents.new ≡ currents.old) }
    ensures fits { OnOk result (at + size < 2 ^ 64) }
    ensures alike { StandsAlike stack.old stack.new }
{
    let entities = dtd.entities();
    let tag = &unread(entities, texts, stack)[..size as usize];
    if tag.len() <= SHORT {
        return short_values(
            alloc,
            syntax,
            dtd,
            element,
            definitions,
            tag,
            at,
            stack,
            texts,
            currents,
        );
    }
    let read = read_tag(alloc, syntax, entities, texts, stack, tag, at)?;
    values_of(alloc, syntax, dtd, element, &read, currents)
}

// The values of a tag at this place of the text at the top, of an element type with these definitions.
fn short_values(
    alloc: Global,
    syntax: &Syntax,
    dtd: &Dtd,
    element: u32,
    definitions: &[Definition],
    tag: &[u8],
    at: u64,
    stack: &mut InputStack,
    texts: &Texts,
    currents: &mut Currents,
) -> Result<StartValues, StartError>
    requires element { element < length (types dtd.now.elements) }
    requires lists { length currents.old ≡ length dtd.now.lists }
    requires definitions { definitions.now ≡ definitions_of dtd.now element }
    requires some { 0 < length stack.old.places }
    requires at { at ≡ offset_of stack.old.places }
    requires fits { at + length tag.now < 2 ^ 64 }
    requires text { tag.now ≡ take (length tag.now) (rest (input_of syntax.now dtd.now texts.now stack.old)) }
    ensures ok { IfOk result (λ told. TagHasValues syntax.now dtd.now element currents.old texts.now stack.old tag.now told currents.new) }
    ensures spent { OnOk result (stack.new.spent ≡ spent_in_tag syntax.now dtd.now element currents.old texts.now stack.old tag.now) }
    ensures err { IfErr result (TagHasNone syntax.now dtd.now element currents.old texts.now stack.old tag.now) }
    ensures err_currents { OnErr result (currents.new ≡ currents.old) }
    ensures alike { StandsAlike stack.old stack.new }
{
    let start = Start {
        alloc,
        syntax,
        dtd,
        element,
        entities: dtd.entities(),
        definitions,
        currents,
    };
    let mut filled = start.unfilled()?;
    if let Err(error) = start.take_all(&mut filled, texts, stack, tag, at) {
        return Err(error);
    }
    set_all(
        alloc,
        dtd,
        element,
        &filled.current,
        &filled.values,
        currents,
    )?;
    Ok(StartValues {
        conref: filled.conref,
        values: Values::of(filled.values),
    })
}

// The values of a start that specifies this.
#[inline(always)]
fn values_of(
    alloc: Global,
    syntax: &Syntax,
    dtd: &Dtd,
    element: u32,
    read: &Read,
    currents: &mut Currents,
) -> Result<StartValues, StartError>
    requires element { element < length (types dtd.now.elements) }
    requires lists { length currents.old ≡ length dtd.now.lists }
    ensures ok { IfOk result (λ told. ReadHasValues syntax.now dtd.now element currents.old read.now told currents.new) }
    ensures stop { OnOk result (read.now.stop ≡ None) }
    ensures err { IfErr result (ReadHasNone syntax.now dtd.now element currents.old read.now) }
    ensures err_currents { OnErr result (currents.new ≡ currents.old) }
{
    let definitions = dtd.definitions(element);
    if definitions.is_empty() {
        return without_attributes(alloc, read);
    }
    defined_values(alloc, syntax, dtd, element, definitions, read, currents)
}

// The same of an element type with these attribute definitions.
#[inline(always)]
fn defined_values(
    alloc: Global,
    syntax: &Syntax,
    dtd: &Dtd,
    element: u32,
    definitions: &[Definition],
    read: &Read,
    currents: &mut Currents,
) -> Result<StartValues, StartError>
    requires element { element < length (types dtd.now.elements) }
    requires lists { length currents.old ≡ length dtd.now.lists }
    requires definitions { definitions.now ≡ definitions_of dtd.now element }
    ensures ok { IfOk result (λ told. ReadHasValues syntax.now dtd.now element currents.old read.now told currents.new) }
    ensures stop { OnOk result (read.now.stop ≡ None) }
    ensures err { IfErr result (ReadHasNone syntax.now dtd.now element currents.old read.now) }
    ensures err_currents { OnErr result (currents.new ≡ currents.old) }
{
    let start = Start {
        alloc,
        syntax,
        dtd,
        element,
        entities: dtd.entities(),
        definitions,
        currents,
    };
    let filled = match start.filled(read) {
        Ok(filled) => filled,
        Err(error) => return Err(error),
    };
    set_all(
        alloc,
        dtd,
        element,
        &filled.current,
        &filled.values,
        currents,
    )?;
    Ok(StartValues {
        conref: filled.conref,
        values: Values::of(filled.values),
    })
}

// The values of a start whose element type has no attributes.
fn without_attributes(alloc: Global, read: &Read) -> Result<StartValues, StartError>
    ensures specs { OnOk result (read.now.specs.items ≡ []) }
    ensures stop { OnOk result (read.now.stop ≡ None) }
    ensures values { IfOk result (λ told. told.values ≡ []) }
    ensures conref { IfOk result (λ told. told.conref ≡ false) }
    ensures err { IfErr result (IsRefusedAlone read.now) }
{
    if !read.specs.is_empty() {
        return Err(StartError::Refused(Reason::UnknownAttribute));
    }
    match read.stop {
        Some(stop) => Err(stop),
        None => Ok(StartValues {
            values: Values::of(Vec::new(alloc)),
            conref: false,
        }),
    }
}
