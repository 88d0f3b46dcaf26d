// The values of a visible start.
ghost use Rattle.std.specs.Prelude.{◌≡◌, ◌<◌, [], take, false, slice_get, None, IsTrue, IfOk, IfErr, OnOk, OnErr, Option, Some, IsSome};
ghost use Rattle.sgml_dtd.specs.dtd_elements.Types.{types};
ghost use Rattle.sgml_infer.specs.Tables.{IsNumber};
ghost use Rattle.sgml_starts.specs.Values.{unvalued};
ghost use Rattle.sgml_starts.specs.Starts.{after, list_in, StandsThere, IsUnvalued};
ghost use Rattle.sgml_content_steps.specs.theory_starts.There.{input_at};
ghost use Rattle.sgml_content_steps.specs.Content.{IsContent};
ghost use Rattle.sgml_prolog_steps.specs.Found.{rest_in};
ghost use Rattle.sgml_content_tags.specs.Named.{IsAlone, IsLone};
ghost use Rattle.sgml_content_tags.specs.Values.{IsFileOf, WantsBy, StopsFor, start_for, specified_in, after_tag, HasValuesOf};

use crate::starts::pass;
use sgml_attr::Values;
use sgml_content_steps::Content;
use sgml_declared::Options;
use sgml_entity::Texts;
use sgml_markup::Part;
use sgml_prolog_steps::{Kept, Stop};
use sgml_starts::{StartError, StartValues, start_values};
use sgml_text::{Memory, Reason, Text};
use std::alloc::Global;

/// The values of a start of an element of this type, of the start-tag of so many bytes at the top of the stack or
/// of an empty one. The stack then stands after the tag, and what was specified of attributes whose default is
/// #CURRENT are the current values.
#[inline(always)]
pub(crate) fn values_of(
    alloc: Global,
    content: &mut Content,
    texts: &Texts,
    number: u32,
    tag: Option<u64>,
) -> Result<StartValues, StartError>
    requires content { IsContent content.old }
    requires number { IsNumber content.old.kept.doctype number }
    requires tag { StandsThere (input_at content.old.kept texts.now) tag }
    ensures ok { IfOk result (λ start. HasValuesOf content.old texts.now number tag start content.new.currents) }
    ensures after { OnOk result (content.new ≡ after_tag content.old texts.now tag content.new.currents) }
    ensures err { IfErr result (IsUnvalued (unvalued (start_for content.old number) (specified_in content.old texts.now tag))) }
    ensures left { OnErr result (content.new ≡ content.old) }
{
    match start_values(
        alloc,
        content.kept.dtd.syntax(),
        &content.kept.dtd,
        number,
        tag,
        &mut content.kept.stack,
        texts,
        &mut content.currents,
    ) {
        Ok(start) => Ok(start),
        Err(error) => Err(error),
    }
}

/// The same of a start-tag of so many bytes, which may be a name alone.
#[inline(always)]
pub(crate) fn values_in(
    alloc: Global,
    content: &mut Content,
    texts: &Texts,
    number: u32,
    n: u64,
    lone: Option<Part>,
) -> Result<StartValues, StartError>
    requires content { IsContent content.old }
    requires number { IsNumber content.old.kept.doctype number }
    requires tag { StandsThere (input_at content.old.kept texts.now) (Some n) }
    requires lone { IsLone content.old.kept.doctype.syntax (take n (rest_in content.old.kept texts.now)) lone }
    ensures ok { IfOk result (λ start. HasValuesOf content.old texts.now number (Some n) start content.new.currents) }
    ensures after { OnOk result (content.new ≡ after_tag content.old texts.now (Some n) content.new.currents) }
    ensures err { IfErr result (IsUnvalued (unvalued (start_for content.old number) (specified_in content.old texts.now (Some n)))) }
    ensures left { OnErr result (content.new ≡ content.old) }
{
    if let Some(part) = lone {
        if is_listless(content, number) {
            return Ok(take_lone(alloc, content, texts, number, n, part));
        }
    }
    values_of(alloc, content, texts, number, Some(n))
}

/// Whether the type has no attribute list.
#[inline(always)]
pub(crate) fn is_listless(content: &Content, number: u32) -> bool
    requires content { IsContent content.now }
    requires number { IsNumber content.now.kept.doctype number }
    ensures { IsTrue result → list_in content.now.kept.doctype (slice_get (types content.now.kept.doctype.elements) number) ≡ None }
{
    if content.tree.has_list(number) {
        return false;
    }
    true
}

// A start-tag that is a name alone, of an element type without a list.
#[inline(always)]
fn take_lone(
    alloc: Global,
    content: &mut Content,
    texts: &Texts,
    number: u32,
    n: u64,
    part: Part,
) -> StartValues
    requires listless { list_in content.old.kept.doctype (slice_get (types content.old.kept.doctype.elements) number) ≡ None }
    requires tag { StandsThere (input_at content.old.kept texts.now) (Some n) }
    requires alone { IsAlone content.old.kept.doctype.syntax (take n (rest_in content.old.kept texts.now)) part }
    ensures ok { HasValuesOf content.old texts.now number (Some n) result content.new.currents }
    ensures after { content.new ≡ after_tag content.old texts.now (Some n) content.new.currents }
{
    pass(content, texts, n);
    no_values(alloc)
}

/// The values of no attributes.
#[inline(always)]
pub(crate) fn no_values(alloc: Global) -> StartValues
    ensures values { result.values ≡ [] }
    ensures conref { result.conref ≡ false }
{
    StartValues {
        values: Values::of(Vec::new(alloc)),
        conref: false,
    }
}

/// Why nothing is taken of a start that has no values for this reason.
pub(crate) fn stop_for(options: &Options, alloc: Global, kept: &Kept, error: StartError) -> Stop
    requires named { IsSome kept.now.subset → IsSome kept.now.doctype.name }
    ensures { StopsFor options.now kept.now error result }
{
    match error {
        StartError::Refused(reason) => Stop::Refused(reason),
        StartError::Wanted(number) => want(options, alloc, kept, number),
        StartError::Memory => Stop::Memory,
    }
}

// The file of this entity is to be fetched first (10.1.6).
fn want(options: &Options, alloc: Global, kept: &Kept, number: u32) -> Stop
    requires named { IsSome kept.now.subset → IsSome kept.now.doctype.name }
    ensures { WantsBy options.now kept.now number result }
{
    match file_of(options, alloc, kept, number) {
        Ok(Some(file)) => Stop::Wanted {
            entity: number,
            file,
        },
        Ok(None) => Stop::Refused(Reason::Unresolved),
        Err(_) => Stop::Memory,
    }
}

fn file_of(
    options: &Options,
    alloc: Global,
    kept: &Kept,
    number: u32,
) -> Result<Option<Text>, Memory>
    requires named { IsSome kept.now.subset → IsSome kept.now.doctype.name }
    ensures { IfOk result (IsFileOf options.now kept.now number) }
{
    options.file_of(alloc, &kept.dtd, &kept.subset, number)
}
