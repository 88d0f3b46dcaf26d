// What a document type says of its element types, by their numbers.
ghost use Rattle.std.specs.Prelude.{◌≡◌, ◌<◌, IfOk, Some, is_some, length, slice_get};
ghost use Rattle.sgml_dtd.specs.dtd_attlists.Tables.{list_of};
ghost use Rattle.sgml_theory_reading.specs.Types.{Model, content_of, map_of_type};
ghost use Rattle.sgml_automaton.specs.Automaton.{whole_of};
ghost use Rattle.sgml_theory_reading.specs.Characters.{content_has_text};
ghost use Rattle.sgml_infer.specs.Tables.{name_at, type_at, IsNumber};
ghost use Rattle.sgml_infer.specs.Known.{content_kind, first_in, first_at, known_of, is_model, is_declared_content, is_empty, AreKnown};

use crate::mentions::mentions_text;
use crate::{element, exceptions};
use sgml_automaton::Automaton;
use sgml_dtd::Dtd;
use sgml_dtd_elements::Content;
use sgml_dtd_maps::MapOf;
use sgml_text::{Memory, Name};
use std::alloc::Global;

/// What may stand in the elements of a type, without the model (11.2.3, 11.2.4).
#[derive(Clone, Copy, Debug, PartialEq, Eq)]
pub enum ContentKind {
    /// What a model takes.
    Model,
    /// `#PCDATA` and every declared element type.
    Any,
    /// Characters.
    Cdata,
    /// Characters and references.
    Rcdata,
    /// Nothing.
    Empty,
}

#[derive(Drop)]
pub(crate) struct Known {
    pub(crate) name: Name,
    pub(crate) content: ContentKind,
    // `#PCDATA` is a token of its content.
    pub(crate) has_text: bool,
    // O stands for these tags of it.
    pub(crate) omits_start: bool,
    pub(crate) omits_end: bool,
    // Each start-tag has to specify an attribute.
    pub(crate) has_required: bool,
    // It has inclusions or exclusions.
    pub(crate) has_exceptions: bool,
    // It has an attribute list.
    pub(crate) has_list: bool,
    // Its short reference map.
    pub(crate) map: MapOf,
    // The element type that must come first in it, where its model has no AND groups.
    pub(crate) first: Option<u32>,
}

#[inline(always)]
pub(crate) fn is_model(content: ContentKind) -> bool
    ensures { result ≡ is_model content }
{
    match content {
        ContentKind::Model => true,
        _ => false,
    }
}

#[inline(always)]
pub(crate) fn is_declared_content(content: ContentKind) -> bool
    ensures { result ≡ is_declared_content content }
{
    match content {
        ContentKind::Model => false,
        ContentKind::Any => false,
        ContentKind::Cdata => true,
        ContentKind::Rcdata => true,
        ContentKind::Empty => true,
    }
}

#[inline(always)]
pub(crate) fn is_empty(content: ContentKind) -> bool
    ensures { result ≡ is_empty content }
{
    match content {
        ContentKind::Empty => true,
        _ => false,
    }
}

// The element type of this number.
#[inline(always)]
pub(crate) fn known_at(known: &[Known], element: u32) -> &Known
    requires { element < length known.now }
    ensures { slice_get known.now element ≡ Some result.now }
{
    &known[element as usize]
}

// All element types, in order of declaration.
pub(crate) fn known_types(alloc: Global, dtd: &Dtd) -> Result<Vec<Known>, Memory>
    ensures { IfOk result (λ known. AreKnown dtd.now known.items) }
{
    let mut known = Vec::new(alloc);
    for element in 0..dtd.elements() {
        known.push(known_type(alloc, dtd, element)?)?;
    }
    Ok(known)
}

fn known_type(alloc: Global, dtd: &Dtd, element: u32) -> Result<Known, Memory>
    requires { IsNumber dtd.now element }
    ensures { IfOk result (λ known. known ≡ known_of dtd.now element) }
{
    let name = element::name_of(dtd, element).copy(alloc)?;
    let omits = dtd.omits(element);
    Ok(Known {
        name,
        content: content_kind(dtd, element),
        has_text: has_text(dtd, element),
        omits_start: omits.start,
        omits_end: omits.end,
        has_required: element::has_required(dtd, element),
        has_exceptions: exceptions::has_exceptions(dtd, element),
        has_list: has_list(dtd, element),
        map: map_of(dtd, element),
        first: first(dtd, element),
    })
}

fn content_kind(dtd: &Dtd, element: u32) -> ContentKind
    requires { IsNumber dtd.now element }
    ensures { result ≡ content_kind (content_of (type_at dtd.now element)) }
{
    match dtd.content(element) {
        Content::Model(_) => ContentKind::Model,
        Content::Any => ContentKind::Any,
        Content::Cdata => ContentKind::Cdata,
        Content::Rcdata => ContentKind::Rcdata,
        Content::Empty => ContentKind::Empty,
    }
}

fn first(dtd: &Dtd, element: u32) -> Option<u32>
    requires { IsNumber dtd.now element }
    ensures { result ≡ first_at dtd.now element }
{
    match dtd.content(element) {
        Content::Model(automaton) => first_of(dtd, automaton),
        _ => None,
    }
}

fn first_of(dtd: &Dtd, automaton: &Automaton) -> Option<u32>
    ensures { result ≡ first_in dtd.now (Model (whole_of automaton.now)) }
{
    if automaton.room() > 0 {
        return None;
    }
    match automaton.model().term().required() {
        Some(name) => dtd.element(name),
        None => None,
    }
}

fn has_list(dtd: &Dtd, element: u32) -> bool
    requires { IsNumber dtd.now element }
    ensures { result ≡ is_some (list_of dtd.now.lists (name_at dtd.now element)) }
{
    dtd.list(element).is_some()
}

fn map_of(dtd: &Dtd, element: u32) -> MapOf
    requires { IsNumber dtd.now element }
    ensures { result ≡ map_of_type dtd.now (name_at dtd.now element) }
{
    dtd.map_of(element)
}

fn has_text(dtd: &Dtd, element: u32) -> bool
    requires { IsNumber dtd.now element }
    ensures { result ≡ content_has_text (content_of (type_at dtd.now element)) }
{
    match dtd.content(element) {
        Content::Model(automaton) => mentions_text(automaton.model().term()),
        Content::Any => true,
        Content::Cdata => true,
        Content::Rcdata => true,
        Content::Empty => false,
    }
}
