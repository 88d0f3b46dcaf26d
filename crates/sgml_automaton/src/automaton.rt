// Automata over positions.
ghost use Rattle.std.specs.Prelude.{◌≡◌};
ghost use Rattle.sgml_model.specs.Model.{model_of};
ghost use Rattle.sgml_ambiguity.specs.Ambiguity.{IsUnambiguous};
ghost use Rattle.sgml_automaton.specs.Position.{room as room_in};
ghost use Rattle.sgml_automaton.specs.Unique.{IsUnambiguous-prop};
ghost use Rattle.sgml_automaton.specs.Known.{IsIndexOf, IsIndexOf-prop, KnowsTexts, KnowsTexts-prop};

use crate::moves::{enter, go};
use crate::nexts::{first_by, next_at};
use crate::place::finished_at;
use crate::plan::Index;
use crate::planning::of_model;
use crate::requiring::required_at;
use crate::same::{alike, unmoved};
use crate::state::ModelState;
use sgml_model::Model;
use sgml_text::{Memory, Name};
use std::alloc::Global;

/// The automaton of an unambiguous content model.
#[derive(Drop)]
pub struct Automaton {
    pub(crate) model: Model,
    pub(crate) room: u32,
    pub(crate) index: Index,
    pub ghost counted: { room ≡ room_in (model_of model) },
    pub ghost unambiguous: { IsUnambiguous (model_of model) } by { IsUnambiguous-prop (model_of model) },
    pub ghost known: { IsIndexOf index (model_of model) } by { IsIndexOf-prop index (model_of model) },
    pub ghost texts: { KnowsTexts index } by { KnowsTexts-prop index },
}

impl Automaton {
    ghost use Rattle.std.specs.Prelude.{◌≡◌, ◌≤◌, ◌<◌, ◌^◌, ◌↔◌, IsTrue, MatchBool, IfOk, OnErr, Some, length};
    ghost use Rattle.std.specs.Option.{option_copied};
    ghost use Rattle.sgml_model.specs.Term.{Term, done, required};
    ghost use Rattle.sgml_model.specs.Left.{Leaves};
    ghost use Rattle.sgml_model.specs.Model.{model_of};
    ghost use Rattle.sgml_ambiguity.specs.Ambiguity.{IsUnambiguous};
    ghost use Rattle.sgml_automaton.specs.Position.{room, next_by};
    ghost use Rattle.sgml_automaton.specs.Moved.{moved_l};
    ghost use Rattle.sgml_automaton.specs.Alike.{same_place};
    ghost use Rattle.sgml_automaton.specs.Automaton.{whole_of, room_of, has_tables, bits_in, term_of, IsStateOf};

    /// The model that was built.
    pub fn model(&self) -> &Model
        ensures model { model_of result.now ≡ whole_of self.now }
        ensures unambiguous { IsUnambiguous (whole_of self.now) }
    {
        &self.model
    }

    /// The number of AND members: the bits that a state has.
    pub fn room(&self) -> u32
        ensures room { result ≡ room_of self.now }
        ensures members { result ≡ room (whole_of self.now) }
    {
        self.room
    }

    /// Whether steps and questions are answered from tables, in a time that the model's size hardly
    /// matters to. `prepare` makes them.
    pub fn has_tables(&self) -> bool
        ensures { result ≡ has_tables self.now }
    {
        self.index.counts
    }

    /// Makes the tables, where the model has some and they weren't made. The automaton and its
    /// states stay what they are.
    pub fn prepare(&mut self, alloc: Global) -> Result<(), Memory>
        ensures model { whole_of self.new ≡ whole_of self.old }
        ensures room { room_of self.new ≡ room_of self.old }
        ensures tables { IsTrue (has_tables self.old) → self.new ≡ self.old }
        ensures err { OnErr result (self.new ≡ self.old) }
    {
        if !self.index.counts {
            self.index = of_model(alloc, &self.model)?;
        }
        Ok(())
    }

    /// A state at the start.
    pub fn state(&self, alloc: Global) -> Result<ModelState, Memory>
        ensures state { IfOk result (λ state. IsStateOf self.now state) }
        ensures start { IfOk result (λ state. term_of self.now state ≡ whole_of self.now) }
        ensures room { IfOk result (λ state. bits_in state ≡ room_of self.now) }
    {
        Ok(ModelState {
            last: None,
            bits: vec![in alloc; false; self.room as usize]?,
        })
    }

    /// Makes the state one of this automaton, at its start.
    pub fn reset(&self, state: &mut ModelState)
        requires { room_of self.now ≤ bits_in state.old }
        ensures state { IsStateOf self.now state.new }
        ensures start { term_of self.now state.new ≡ whole_of self.now }
        ensures room { bits_in state.new ≡ bits_in state.old }
    {
        state.last = None;
    }

    /// Nothing more need come.
    pub fn finished(&self, state: &ModelState) -> bool
        requires { IsStateOf self.now state.now }
        ensures { result ≡ done (term_of self.now state.now) }
    {
        if self.index.counts {
            return self.index.finished(state.last);
        }
        match state.last {
            None => self.model.term().finished(),
            Some(k) => finished_at(self.model.term(), 0, k, &state.bits),
        }
    }

    /// The element that must come next, where there is one.
    pub fn required<'a>(&'a self, state: &ModelState) -> Option<&'a Name>
        requires { IsStateOf self.now state.now }
        ensures { option_copied result ≡ required (term_of self.now state.now) }
    {
        if self.index.counts {
            return self.index.required(state.last);
        }
        match state.last {
            None => self.model.term().required(),
            Some(k) => required_at(self.model.term(), 0, k, &state.bits),
        }
    }

    /// The token that a step by the name would take, where one can come; None as name is `#PCDATA`.
    #[inline(always)]
    pub fn next(&self, state: &ModelState, name: Option<&Name>) -> Option<u32>
        requires { IsStateOf self.now state.now }
        ensures { result ≡ next_by (term_of self.now state.now) (option_copied name.entry) }
    {
        if !self.index.counts {
            return self.next_without_tables(state, name);
        }
        match name {
            None => self.index.text(state.last),
            Some(name) => self.index.next(state.last, name),
        }
    }

    // The same, by walking the model.
    #[inline(never)]
    fn next_without_tables(&self, state: &ModelState, name: Option<&Name>) -> Option<u32>
        requires { IsStateOf self.now state.now }
        ensures { result ≡ next_by (term_of self.now state.now) (option_copied name.entry) }
    {
        match state.last {
            None => first_by(self.model.term(), name),
            Some(k) => next_at(self.model.term(), 0, k, &state.bits, name),
        }
    }

    /// What a step would answer; None as name is `#PCDATA`.
    #[inline(always)]
    pub fn takes(&self, state: &ModelState, name: Option<&Name>) -> bool
        requires { IsStateOf self.now state.now }
        ensures { MatchBool result
            ((r : Term) × Leaves (term_of self.now state.now) (option_copied name.entry) r)
            ((r : Term) → Leaves (term_of self.now state.now) (option_copied name.entry) r → ⊥) }
    {
        self.next(state, name).is_some()
    }

    // The bits after the token j of the name.
    #[inline(always)]
    fn mark(&self, last: Option<u32>, j: u32, name: Option<&Name>, bits: &mut [bool])
        requires { room (whole_of self.now) ≤ length bits.old }
        ensures { bits.new ≡ moved_l (whole_of self.now) last j (option_copied name.entry) bits.old }
    {
        // without AND groups there are no bits
        if self.room == 0 {
            return;
        }
        self.mark_members(last, j, name, bits);
    }

    // The same, where there may be AND groups.
    #[inline(never)]
    fn mark_members(&self, last: Option<u32>, j: u32, name: Option<&Name>, bits: &mut [bool])
        requires { room (whole_of self.now) ≤ length bits.old }
        ensures { bits.new ≡ moved_l (whole_of self.now) last j (option_copied name.entry) bits.old }
    {
        match last {
            None => enter(self.model.term(), 0, j, bits),
            Some(k) => go(self.model.term(), 0, k, j, name, bits),
        }
    }

    /// Takes a token of the name, or of `#PCDATA` for None, where one can come; else the state
    /// stays.
    #[inline(always)]
    pub fn step(&self, state: &mut ModelState, name: Option<&Name>) -> bool
        requires { IsStateOf self.now state.old }
        ensures state { IsStateOf self.now state.new }
        ensures answer { MatchBool result
            (Leaves (term_of self.now state.old) (option_copied name.entry) (term_of self.now state.new))
            ((r : Term) → Leaves (term_of self.now state.old) (option_copied name.entry) r → ⊥) }
        ensures stays { MatchBool result (Unit {0}) (state.new ≡ state.old) }
        ensures room { bits_in state.new ≡ bits_in state.old }
    {
        let Some(token) = self.next(state, name) else {
            return false;
        };
        self.step_to(state, name, token);
        true
    }

    /// Takes the token that `next` found for the name.
    #[inline(always)]
    pub fn step_to(&self, state: &mut ModelState, name: Option<&Name>, token: u32)
        requires state { IsStateOf self.now state.old }
        requires token { next_by (term_of self.now state.old) (option_copied name) ≡ Some token }
        ensures state { IsStateOf self.now state.new }
        ensures left { Leaves (term_of self.now state.old) (option_copied name.entry) (term_of self.now state.new) }
        ensures room { bits_in state.new ≡ bits_in state.old }
    {
        self.mark(state.last, token, name, &mut state.bits);
        state.last = Some(token);
    }

    // The two places are one.
    fn same_place(
        &self,
        last: Option<u32>,
        bits: &[bool],
        next: Option<u32>,
        others: &[bool],
    ) -> bool
        requires { room (whole_of self.now) < 2 ^ 64 }
        ensures { result ≡ same_place (whole_of self.now) last bits.now next others.now }
    {
        match last {
            None => match next {
                None => true,
                Some(j) => unmoved(self.model.term(), j),
            },
            Some(k) => match next {
                None => unmoved(self.model.term(), k),
                Some(j) => alike(self.model.term(), 0, k, bits, j, others),
            },
        }
    }

    /// Whether both states stand for one term, also where their last tokens differ.
    pub fn same(&self, first: &ModelState, second: &ModelState) -> bool
        requires first { IsStateOf self.now first.now }
        requires second { IsStateOf self.now second.now }
        ensures { IsTrue result ↔ (term_of self.now first.now ≡ term_of self.now second.now) }
    {
        self.same_place(first.last, &first.bits, second.last, &second.bits)
    }
}
