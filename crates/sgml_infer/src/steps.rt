// Steps of models that were found before.
ghost use Rattle.std.specs.Prelude.{IfOk, IfSome};
ghost use Rattle.sgml_dtd.specs.Doctypes.{Doctype};
ghost use Rattle.sgml_infer.specs.Trees.{IsStep, IsStepOf, AreSteps};

use sgml_text::Memory;
use std::alloc::Global;

// The token of an element type's name at a position of the model of an element, where one can come.
#[derive(Clone, Copy)]
pub(crate) struct Step {
    pub(crate) element: u32,
    pub(crate) number: u32,
    pub(crate) position: u64,
    pub(crate) token: Option<u32>,
}

// Each in a slot of its own.
#[derive(Drop)]
pub(crate) struct Steps {
    pub(crate) slots: Vec<Option<Step>>,
}

const SLOTS: usize = 512;

#[inline(always)]
fn slot_of(element: u32, position: u64, number: u32) -> usize {
    let behind = ((position % 512) as u32).wrapping_mul(9);
    let mixed = element
        .wrapping_mul(67)
        .wrapping_add(behind)
        .wrapping_add(number);
    (mixed & 511) as usize
}

impl Steps {
    // None is found.
    pub(crate) fn new(alloc: Global) -> Result<Steps, Memory>
        ensures { IfOk result (λ steps. (t : Doctype) → AreSteps t steps) }
    {
        Ok(Steps {
            slots: vec![in alloc; None; SLOTS]?,
        })
    }

    // The token, where it was found.
    #[inline(always)]
    pub(crate) fn found(&self, element: u32, position: u64, number: u32) -> Option<Option<u32>>
        ensures { (t : Doctype) → AreSteps t self.now → IfSome result (IsStep t element position number) }
    {
        let slot = slot_of(element, position, number);
        if slot >= self.slots.len() {
            return None;
        }
        let step = self.slots[slot]?;
        if step.element == element && step.number == number && step.position == position {
            Some(step.token)
        } else {
            None
        }
    }

    // Notes one in place of that which has its slot.
    pub(crate) fn add(&mut self, step: Step)
        ensures { (t : Doctype) → AreSteps t self.old → IsStepOf t step → AreSteps t self.new }
    {
        let slot = slot_of(step.element, step.position, step.number);
        if slot < self.slots.len() {
            self.slots[slot] = Some(step);
        }
    }
}
