// What the content of one open element takes.
ghost use Rattle.std.specs.Prelude.{◌≡◌, Some, All};
ghost use Rattle.std.specs.List.{list_any};
ghost use Rattle.std.specs.Option.{option_copied};
ghost use Rattle.sgml_automaton.specs.model.Term.{required as term_required};
ghost use Rattle.sgml_dtd_elements.specs.Laws.{AreDistinct};
ghost use Rattle.sgml_dtd.specs.Doctypes.{definitions_for};
ghost use Rattle.sgml_theory_reading.specs.Types.{type_of, has_declared_content, is_required as is_required_in, content_of};
ghost use Rattle.sgml_theory_reading.specs.Context.{token_left};
ghost use Rattle.sgml_infer.specs.Known.{AreKnown};
ghost use Rattle.sgml_infer.specs.Tables.{name_at, type_at, must_be_written, IsNumber};
ghost use Rattle.sgml_infer.specs.Trees.{left_at, finished_at, may_take, takes_itself, IsStateIn, IsPosition, HasRoom, IsFresh, IsLevel, IsStep, AreSteps};
ghost use Rattle.sgml_infer.specs.Visibles.{IsNumbered};

use crate::known::{Known, known_at};
use crate::level::Level;
use crate::steps::{Step, Steps};
use crate::visible::Visible;
use sgml_attr::{Default, Definition};
use sgml_automaton::{Automaton, ModelState};
use sgml_dtd::Dtd;
use sgml_dtd_elements::Content;
use sgml_text::Name;

// The name of an element type.
#[inline(always)]
pub(crate) fn name_of(dtd: &Dtd, element: u32) -> &Name
    requires { IsNumber dtd.now element }
    ensures { result.now ≡ name_at dtd.now element }
{
    dtd.element_name(element)
}

// The content takes the token, but for what open elements include; each element type is declared.
#[inline(always)]
pub(crate) fn fits(dtd: &Dtd, element: u32, state: &ModelState, token: Option<&Name>) -> bool
    requires number { IsNumber dtd.now element }
    requires state { IsStateIn (content_of (type_at dtd.now element)) state.now }
    requires room { HasRoom dtd.now state.now }
    ensures { result ≡ may_take (content_of (type_at dtd.now element)) state.now (option_copied token.entry) }
{
    match dtd.content(element) {
        Content::Model(automaton) => automaton.takes(state, token),
        Content::Any => true,
        Content::Cdata => token.is_none(),
        Content::Rcdata => token.is_none(),
        Content::Empty => false,
    }
}

// The model's next token may be this one, or each declared type may stand in the element.
#[inline(always)]
pub(crate) fn is_proper(dtd: &Dtd, element: u32, state: &ModelState, token: Option<&Name>) -> bool
    requires number { IsNumber dtd.now element }
    requires state { IsStateIn (content_of (type_at dtd.now element)) state.now }
    requires room { HasRoom dtd.now state.now }
    ensures { result ≡ takes_itself (content_of (type_at dtd.now element)) state.now (option_copied token.entry) }
{
    match dtd.content(element) {
        Content::Model(automaton) => automaton.takes(state, token),
        Content::Any => true,
        _ => false,
    }
}

// Whether it is declared CDATA, RCDATA or EMPTY.
fn has_declared_content(dtd: &Dtd, element: u32) -> bool
    requires { IsNumber dtd.now element }
    ensures { result ≡ has_declared_content (content_of (type_at dtd.now element)) }
{
    match dtd.content(element) {
        Content::Empty => true,
        Content::Cdata => true,
        Content::Rcdata => true,
        Content::Any => false,
        Content::Model(_) => false,
    }
}

// Nothing more need come.
#[inline(always)]
pub(crate) fn is_finished(dtd: &Dtd, element: u32, state: &ModelState) -> bool
    requires number { IsNumber dtd.now element }
    requires state { IsStateIn (content_of (type_at dtd.now element)) state.now }
    requires room { HasRoom dtd.now state.now }
    ensures { result ≡ finished_at dtd.now element state.now }
{
    match dtd.content(element) {
        Content::Model(automaton) => automaton.finished(state),
        _ => true,
    }
}

// The element type that must come next.
#[inline(always)]
pub(crate) fn required<'a>(dtd: &'a Dtd, element: u32, state: &ModelState) -> Option<&'a Name>
    requires number { IsNumber dtd.now element }
    requires state { IsStateIn (content_of (type_at dtd.now element)) state.now }
    requires room { HasRoom dtd.now state.now }
    ensures { option_copied result ≡ term_required (left_at dtd.now element state.now) }
{
    match dtd.content(element) {
        Content::Model(automaton) => automaton.required(state),
        _ => None,
    }
}

// The state that is left after a token, and its position; one that isn't taken leaves it.
#[inline(always)]
pub(crate) fn advance(
    dtd: &Dtd,
    element: u32,
    state: &mut ModelState,
    position: u64,
    token: Option<&Name>,
) -> u64
    requires number { IsNumber dtd.now element }
    requires state { IsStateIn (content_of (type_at dtd.now element)) state.old }
    requires position { IsPosition dtd.now element position state.old }
    requires room { HasRoom dtd.now state.old }
    ensures left { left_at dtd.now element state.new
        ≡ token_left (left_at dtd.now element state.old) (option_copied token.entry) }
    ensures state { IsStateIn (content_of (type_at dtd.now element)) state.new }
    ensures position { IsPosition dtd.now element result state.new }
    ensures room { HasRoom dtd.now state.new }
{
    match dtd.content(element) {
        Content::Model(automaton) => match automaton.next(state, token) {
            Some(found) => {
                automaton.step_to(state, token, found);
                found as u64 + 1
            }
            None => position,
        },
        _ => position,
    }
}

// The same of a start whose step was found.
#[inline(always)]
fn advance_by(
    dtd: &Dtd,
    known: &[Known],
    element: u32,
    state: &mut ModelState,
    position: u64,
    number: u32,
    token: Option<u32>,
) -> u64
    requires number { IsNumber dtd.now element }
    requires start { IsNumber dtd.now number }
    requires state { IsStateIn (content_of (type_at dtd.now element)) state.old }
    requires position { IsPosition dtd.now element position state.old }
    requires room { HasRoom dtd.now state.old }
    requires step { IsStep dtd.now element position number token }
    requires known { AreKnown dtd.now known.now }
    ensures left { left_at dtd.now element state.new
        ≡ token_left (left_at dtd.now element state.old) (Some (name_at dtd.now number)) }
    ensures state { IsStateIn (content_of (type_at dtd.now element)) state.new }
    ensures position { IsPosition dtd.now element result state.new }
    ensures room { HasRoom dtd.now state.new }
{
    match token {
        None => position,
        Some(found) => match dtd.content(element) {
            Content::Model(automaton) => {
                automaton.step_to(state, Some(&known_at(known, number).name), found);
                found as u64 + 1
            }
            _ => position,
        },
    }
}

// The same of a start, whose step is noted where it wasn't found before.
#[inline(always)]
pub(crate) fn advance_start(
    dtd: &Dtd,
    known: &[Known],
    steps: &mut Steps,
    element: u32,
    state: &mut ModelState,
    position: u64,
    number: u32,
) -> u64
    requires number { IsNumber dtd.now element }
    requires start { IsNumber dtd.now number }
    requires state { IsStateIn (content_of (type_at dtd.now element)) state.old }
    requires position { IsPosition dtd.now element position state.old }
    requires room { HasRoom dtd.now state.old }
    requires steps { AreSteps dtd.now steps.old }
    requires known { AreKnown dtd.now known.now }
    ensures left { left_at dtd.now element state.new
        ≡ token_left (left_at dtd.now element state.old) (Some (name_at dtd.now number)) }
    ensures state { IsStateIn (content_of (type_at dtd.now element)) state.new }
    ensures position { IsPosition dtd.now element result state.new }
    ensures room { HasRoom dtd.now state.new }
    ensures steps { AreSteps dtd.now steps.new }
{
    match steps.found(element, position, number) {
        Some(token) => advance_by(dtd, known, element, state, position, number, token),
        None => {
            note(dtd, steps, element, state, position, number);
            advance(dtd, element, state, position, Some(name_of(dtd, number)))
        }
    }
}

// Finds a step and notes it, where the model has no AND groups.
#[inline(never)]
fn note(dtd: &Dtd, steps: &mut Steps, element: u32, state: &ModelState, position: u64, number: u32)
    requires number { IsNumber dtd.now element }
    requires start { IsNumber dtd.now number }
    requires state { IsStateIn (content_of (type_at dtd.now element)) state.now }
    requires position { IsPosition dtd.now element position state.now }
    requires room { HasRoom dtd.now state.now }
    requires steps { AreSteps dtd.now steps.old }
    ensures { AreSteps dtd.now steps.new }
{
    match dtd.content(element) {
        Content::Model(automaton) => {
            if automaton.room() == 0 {
                let token = automaton.next(state, Some(name_of(dtd, number)));
                steps.add(Step {
                    element,
                    number,
                    position,
                    token,
                });
            }
        }
        _ => {}
    }
}

// Notes the steps of a start in open elements.
fn note_steps(dtd: &Dtd, steps: &mut Steps, levels: &[Level], number: u32)
    requires start { IsNumber dtd.now number }
    requires levels { All (IsLevel dtd.now) levels.now }
    requires steps { AreSteps dtd.now steps.old }
    ensures { AreSteps dtd.now steps.new }
{
    for level in levels {
        let element = level.element;
        let position = level.position;
        if steps.found(element, position, number).is_none() {
            note(dtd, steps, element, &level.state, position, number);
        }
    }
}

// Notes the steps of a start in the open elements that end before it, where it is one.
pub(crate) fn note_ended(
    dtd: &Dtd,
    steps: &mut Steps,
    levels: &[Level],
    kept: usize,
    visible: Visible,
)
    requires number { IsNumbered dtd.now visible }
    requires levels { All (IsLevel dtd.now) levels.now }
    requires steps { AreSteps dtd.now steps.old }
    ensures { AreSteps dtd.now steps.new }
{
    match visible {
        Visible::Start(number) => {
            if kept <= levels.len() {
                note_steps(dtd, steps, &levels[kept..], number);
            }
        }
        _ => {}
    }
}

// The model's next token may be this element type, or each declared one may stand in the element.
#[inline(always)]
pub(crate) fn is_proper_start(
    dtd: &Dtd,
    steps: &Steps,
    element: u32,
    state: &ModelState,
    position: u64,
    number: u32,
) -> bool
    requires number { IsNumber dtd.now element }
    requires start { IsNumber dtd.now number }
    requires state { IsStateIn (content_of (type_at dtd.now element)) state.now }
    requires position { IsPosition dtd.now element position state.now }
    requires room { HasRoom dtd.now state.now }
    requires steps { AreSteps dtd.now steps.now }
    ensures { result ≡ takes_itself (content_of (type_at dtd.now element)) state.now (Some (name_at dtd.now number)) }
{
    match steps.found(element, position, number) {
        Some(token) => token.is_some(),
        None => is_proper_by_name(dtd, element, state, number),
    }
}

// The same, by its name.
#[inline(never)]
fn is_proper_by_name(dtd: &Dtd, element: u32, state: &ModelState, number: u32) -> bool
    requires number { IsNumber dtd.now element }
    requires start { IsNumber dtd.now number }
    requires state { IsStateIn (content_of (type_at dtd.now element)) state.now }
    requires room { HasRoom dtd.now state.now }
    ensures { result ≡ takes_itself (content_of (type_at dtd.now element)) state.now (Some (name_at dtd.now number)) }
{
    is_proper(dtd, element, state, Some(name_of(dtd, number)))
}

// A state at the start of the model.
#[inline(always)]
pub(crate) fn restart(dtd: &Dtd, element: u32, state: &mut ModelState)
    requires number { IsNumber dtd.now element }
    requires room { HasRoom dtd.now state.old }
    ensures fresh { IsFresh dtd.now element state.new }
    ensures room { HasRoom dtd.now state.new }
{
    if let Content::Model(automaton) = dtd.content(element) {
        automaton.reset(state);
    }
}

fn is_required(definition: &Definition) -> bool
    ensures { result ≡ is_required_in definition.now }
{
    match definition.default {
        Default::Required => true,
        _ => false,
    }
}

fn any_required(definitions: &[Definition]) -> bool
    ensures { result ≡ list_any is_required_in definitions.now }
{
    for definition in definitions {
        if is_required(definition) {
            return true;
        }
    }
    false
}

// Whether each start-tag has to specify an attribute.
pub(crate) fn has_required(dtd: &Dtd, element: u32) -> bool
    requires { IsNumber dtd.now element }
    ensures { result ≡ list_any is_required_in (definitions_for dtd.now.lists (name_at dtd.now element)) }
{
    any_required(dtd.definitions(element))
}

// Whether O stands for its start-tag, of an element type that may lack a declaration.
pub(crate) fn start_omissible(dtd: &Dtd, name: &Name) -> bool
    requires { AreDistinct dtd.now.elements }
    ensures { result ≡ (type_of dtd.now name.now).omits.start }
{
    match dtd.element(name) {
        Some(n) => dtd.omits(n).start,
        None => false,
    }
}

// Whether it has a required attribute or declared content.
pub(crate) fn must_be_written(dtd: &Dtd, name: &Name) -> bool
    requires { AreDistinct dtd.now.elements }
    ensures { result ≡ must_be_written dtd.now name.now }
{
    match dtd.element(name) {
        Some(n) => has_required(dtd, n) || has_declared_content(dtd, n),
        None => true,
    }
}
