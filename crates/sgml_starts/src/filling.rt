// The values of all attributes: those that are specified, and then the others.
ghost use Rattle.std.specs.Prelude.{◌≡◌, ◌<◌, ◌+◌, [], List, ℕ, None, Some, Ok, false, length, slice_get, ◌||◌, IfOk, IfSome, IfErr, OnOk};
ghost use Rattle.sgml_attr.specs.declared.definition.Definition.{Definition};
ghost use Rattle.sgml_attr.specs.declared.definition.Spec.{Spec};
ghost use Rattle.sgml_starts.specs.Starts.{IsUnvalued};
ghost use Rattle.sgml_starts.specs.Rows.{reason_of_specs};
ghost use Rattle.sgml_starts.specs.Numbers.{unnamed};
ghost use Rattle.sgml_starts.specs.Currents.{is_current};
ghost use Rattle.sgml_starts.specs.Values.{current_in, is_conref, refused, any_conref, AreValues};
ghost use Rattle.sgml_starts.specs.Filled.{is_among, gives_current, AreFilled};
ghost use Rattle.sgml_starts.specs.Answered.{with_current, FillsIn, HasNoReason, HasReason, FillsNext, RefusesNext, IsItsDefault, HasNoDefault, HasNoCurrent, DefaultsStand, DefaultsAreRefused, DefaultStands, FillsUpNext, DefaultIsRefused, ReadIsFilled, ReadIsRefused};

use crate::error::StartError;
use crate::flags::Flags;
use crate::judging::{judged, told};
use crate::matching::{Numbers, numbers_of};
use crate::reading::Read;
use sgml_attr::{AttrValue, Currents, Default, Definition, Spec, value_of};
use sgml_dtd::Dtd;
use sgml_entity::Entities;
use sgml_syntax::Syntax;
use sgml_text::{Memory, Reason, Units};
use std::alloc::Global;
use std::marker::Model;

/// What the values of a start depend on. Its attribute list is looked for where current values are.
#[derive(Drop)]
pub(crate) struct Start<'a> {
    pub(crate) alloc: Global,
    pub(crate) syntax: &'a Syntax,
    pub(crate) dtd: &'a Dtd,
    pub(crate) element: u32,
    pub(crate) entities: &'a Entities,
    pub(crate) definitions: &'a [Definition],
    pub(crate) currents: &'a Currents,
}

impl<'a> Model for Start<'a> {
    ghost use Rattle.std.specs.Prelude.{◌<◌, length};
    ghost use Rattle.sgml_dtd.specs.dtd_elements.Types.{types};
    ghost use Rattle.sgml_starts.specs.Values.{Start};
    ghost use Rattle.sgml_starts.specs.Starts.{list_for};

    ghost Value = { Start };

    ghost view = { λ a. record { syntax = a.syntax.now; tables = a.entities.now; definitions = a.definitions.now; list = list_for a.dtd.now a.element; currents = a.currents.now } };

    ghost invariant = { λ a. a.element < length (types a.dtd.now.elements) };
}

/// The values so far, whether each was specified, the attributes among these whose default is
/// #CURRENT, and whether one of them has the default #CONREF.
#[derive(Drop)]
pub(crate) struct Filled {
    pub(crate) values: Vec<AttrValue>,
    pub(crate) specified: Flags,
    pub(crate) current: Vec<u32>,
    pub(crate) conref: bool,
}

pub(crate) fn is_current(default: &Default) -> bool
    ensures { result ≡ is_current default.now }
{
    match default {
        Default::Current => true,
        _ => false,
    }
}

pub(crate) fn is_conref(default: &Default) -> bool
    ensures { result ≡ is_conref default.now }
{
    match default {
        Default::Conref => true,
        _ => false,
    }
}

// The number of an attribute among the current values, unless there are more attributes than these have.
fn counted(number: usize) -> Result<u32, Memory>
    ensures { IfOk result (λ n. n ≡ number) }
{
    match u32::try_from(number) {
        Ok(n) => Ok(n),
        Err(_) => Err(Memory),
    }
}

// Notes the attribute of a number where its default is #CURRENT.
pub(crate) fn note_current(
    current: &mut Vec<u32>,
    definition: &Definition,
    number: usize,
) -> Result<(), Memory>
    ensures { OnOk result (current.new.items ≡ with_current definition.now number current.old.items) }
{
    if is_current(&definition.default) {
        current.push(counted(number)?)?;
    }
    Ok(())
}

pub(crate) fn either(a: bool, b: bool) -> bool
    ensures { result ≡ (a || b) }
{
    a || b
}

// The attribute that the specification of this number names, where it was told.
fn number_at(numbers: &Numbers, j: usize) -> Option<usize>
    ensures { IfSome result (λ i. slice_get numbers.now.named.items j ≡ Some (Some i)) }
{
    match numbers.named.get(j) {
        Some(number) => *number,
        None => None,
    }
}

// Why the specification of this number has none; one of the two is there.
fn unnamed(numbers: &Numbers, j: usize) -> StartError
    ensures { result ≡ unnamed numbers.now.unknown j }
{
    match numbers.unknown {
        Some(unknown) => {
            if unknown == j {
                StartError::Refused(Reason::UnknownAttribute)
            } else {
                StartError::Memory
            }
        }
        None => StartError::Memory,
    }
}

impl<'a> Start<'a> {
    // No value yet.
    #[inline(always)]
    pub(crate) fn unfilled(&self) -> Result<Filled, Memory>
        ensures { IfOk result (λ filled. AreFilled self.now [] filled) }
    {
        let many = self.definitions.len();
        let mut values = Vec::with_capacity(self.alloc, many)?;
        'values: while values.len() < many {
            values.push(AttrValue::Implied)?;
        }
        Ok(Filled {
            values,
            specified: Flags::none(self.alloc, many)?,
            current: Vec::new(self.alloc),
            conref: false,
        })
    }

    // Fills in what is specified for the attribute of a number.
    fn add(&self, filled: &mut Filled, number: usize, units: &Units) -> Result<(), StartError>
        requires number { number < length self.now.definitions }
        requires values { length filled.old.values.items ≡ length self.now.definitions }
        requires flags { length filled.old.specified.items ≡ length self.now.definitions }
        ensures ok { OnOk result (FillsIn self.now number units.now filled.old filled.new) }
        ensures none { OnOk result (HasNoReason self.now number units.now filled.old) }
        ensures err { IfErr result (HasReason self.now number units.now filled.old) }
    {
        let definitions = self.definitions;
        let definition = &definitions[number];
        let twice = filled.specified.has(number);
        let value = match judged(
            self.alloc,
            self.syntax,
            self.entities,
            definition,
            twice,
            units,
        ) {
            Ok(value) => value,
            Err(error) => return Err(error),
        };
        note_current(&mut filled.current, definition, number)?;
        filled.values[number] = value;
        filled.specified.note(number);
        filled.conref = either(filled.conref, is_conref(&definition.default));
        Ok(())
    }

    // Fills in the specification of this number.
    fn add_spec(
        &self,
        filled: &mut Filled,
        numbers: &Numbers,
        j: usize,
        units: &Units,
    ) -> Result<(), StartError>
        requires values { length filled.old.values.items ≡ length self.now.definitions }
        requires flags { length filled.old.specified.items ≡ length self.now.definitions }
        requires within { (i : ℕ) → slice_get numbers.now.named.items j ≡ Some (Some i) → i < length self.now.definitions }
        ensures ok { OnOk result (FillsNext self.now numbers.now j units.now filled.old filled.new) }
        ensures err { IfErr result (RefusesNext self.now numbers.now j units.now filled.old) }
    {
        let Some(number) = number_at(numbers, j) else {
            return Err(unnamed(numbers, j));
        };
        match self.add(filled, number, units) {
            Ok(()) => Ok(()),
            Err(error) => Err(error),
        }
    }

    /// Fills in what is specified, in order, up to the first specification that is refused.
    pub(crate) fn fill(&self, specs: &[Spec]) -> Result<Filled, StartError>
        ensures none { OnOk result (reason_of_specs self.now.syntax self.now.tables self.now.definitions [] specs.now ≡ None) }
        ensures ok { IfOk result (λ filled. AreFilled self.now specs.now filled) }
        ensures err { IfErr result (IsUnvalued (refused (reason_of_specs self.now.syntax self.now.tables self.now.definitions [] specs.now))) }
    {
        let mut filled = self.unfilled()?;
        if specs.is_empty() {
            return Ok(filled);
        }
        let numbers = numbers_of(self.alloc, self.syntax, self.definitions, specs)?;
        'specs: for (j, spec) in specs.iter().enumerate() {
            if let Err(error) = self.add_spec(&mut filled, &numbers, j, &spec.value) {
                return Err(error);
            }
        }
        Ok(filled)
    }

    // The current value.
    #[inline(never)]
    fn current(&self, number: usize) -> Result<AttrValue, StartError>
        ensures ok { IfOk result (λ v. current_in self.now.currents self.now.list number ≡ Some v) }
        ensures err { IfErr result (HasNoCurrent self.now number) }
    {
        let attribute = counted(number)?;
        let Some(list) = self.dtd.list(self.element) else {
            return Err(StartError::Refused(Reason::NoCurrent));
        };
        match self.currents.get(list, attribute) {
            Some(value) => Ok(value.copy(self.alloc)?),
            None => Err(StartError::Refused(Reason::NoCurrent)),
        }
    }

    // The value without a specification.
    #[inline(always)]
    fn default(&self, number: usize) -> Result<AttrValue, StartError>
        requires { number < length self.now.definitions }
        ensures ok { IfOk result (IsItsDefault self.now number) }
        ensures err { IfErr result (HasNoDefault self.now number) }
    {
        let definitions = self.definitions;
        let definition = &definitions[number];
        if is_current(&definition.default) {
            return self.current(number);
        }
        // no current value is asked for, so of which list and attribute doesn't matter
        match value_of(
            self.alloc,
            self.syntax,
            definition,
            None,
            self.currents,
            0,
            0,
            self.entities,
        ) {
            Ok(value) => Ok(value),
            Err(error) => Err(told(error)),
        }
    }

    /// Fills in the values without a specification, in order, up to the first that there isn't.
    #[inline(always)]
    pub(crate) fn fill_up(&self, filled: &mut Filled) -> Result<(), StartError>
        requires values { length filled.old.values.items ≡ length self.now.definitions }
        requires flags { length filled.old.specified.items ≡ length self.now.definitions }
        ensures none { OnOk result (DefaultsStand self.now filled.old) }
        ensures ok { OnOk result ((ss : List Spec) → AreFilled self.now ss filled.old → AreValues self.now ss filled.new.values.items) }
        ensures rest { filled.new ≡ record filled.old { values = filled.new.values } }
        ensures err { IfErr result (DefaultsAreRefused self.now filled.old) }
    {
        let mut i = 0;
        'definitions: while i < self.definitions.len() {
            if let Err(error) = self.fill_one(filled, i) {
                return Err(error);
            }
            i += 1;
        }
        Ok(())
    }

    // Fills in the value of an attribute that isn't specified.
    #[inline(always)]
    fn fill_one(&self, filled: &mut Filled, number: usize) -> Result<(), StartError>
        requires number { number < length self.now.definitions }
        requires values { length filled.old.values.items ≡ length self.now.definitions }
        requires flags { length filled.old.specified.items ≡ length self.now.definitions }
        ensures none { OnOk result (DefaultStands self.now number filled.old) }
        ensures ok { OnOk result (FillsUpNext self.now number filled.old filled.new) }
        ensures rest { filled.new ≡ record filled.old { values = filled.new.values } }
        ensures many { length filled.new.values.items ≡ length filled.old.values.items }
        ensures err { IfErr result (DefaultIsRefused self.now number filled.old) }
    {
        if filled.specified.has(number) {
            return Ok(());
        }
        match self.default(number) {
            Ok(value) => {
                filled.values[number] = value;
                Ok(())
            }
            Err(error) => Err(error),
        }
    }

    /// The values of all attributes of a start that specifies this.
    pub(crate) fn filled(&self, read: &Read) -> Result<Filled, StartError>
        ensures none { OnOk result (ReadIsFilled self.now read.now) }
        ensures stop { OnOk result (read.now.stop ≡ None) }
        ensures values { IfOk result (λ filled. AreValues self.now read.now.specs.items filled.values.items) }
        ensures current { IfOk result (λ filled. (i : ℕ) → is_among i filled.current.items ≡ gives_current self.now read.now.specs.items i) }
        ensures conref { IfOk result (λ filled. filled.conref ≡ any_conref self.now read.now.specs.items) }
        ensures err { IfErr result (ReadIsRefused self.now read.now) }
    {
        let mut filled = match self.fill(&read.specs) {
            Ok(filled) => filled,
            Err(error) => return Err(error),
        };
        if let Some(stop) = read.stop {
            return Err(stop);
        }
        match self.fill_up(&mut filled) {
            Ok(()) => Ok(filled),
            Err(error) => Err(error),
        }
    }
}
