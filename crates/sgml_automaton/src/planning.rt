// Making the tables of a model without AND groups.
ghost use Rattle.std.specs.Prelude.{◌≡◌, false, None, IfOk, IfSome};
ghost use Rattle.std.specs.Option.{option_copied};
ghost use Rattle.sgml_model.specs.View.{view};
ghost use Rattle.sgml_automaton.specs.Members.{terms_of};
ghost use Rattle.sgml_automaton.specs.Plan.{begins, begins_of, ends, ends_of, tables_of, bare, begun};
ghost use Rattle.sgml_automaton.specs.Known.{IsIndexOf, KnowsTexts};
ghost use Rattle.sgml_model.specs.Model.{model_of};

use crate::plan::{Exit, Index, Place, Plan, Run, Scope};
use sgml_model::{Model, Term, all_finished, first_required};
use sgml_text::{Memory, Name};
use std::alloc::Global;

const NOWHERE: Place = Place {
    exit: None,
    finished: true,
    needed: None,
};

// The number of the first token.
#[cycle(start)]
fn start_of(term: &Term) -> u32
    ensures { result ≡ begins (view term.now) }
{
    match term {
        Term::Empty => 0,
        Term::Name(number, _) => *number,
        Term::Pcdata(number) => *number,
        Term::Seq(members) => start_among(members, 0),
        Term::Or(members) => start_among(members, 0),
        Term::And(members) => start_among(members, 0),
        Term::Opt(member) => start_of(member),
        Term::Plus(member) => start_of(member),
        Term::Rep(member) => start_of(member),
        Term::Member(_, _) => 0,
        Term::Round(_, _) => 0,
    }
}

// That of the first member, or the end.
#[cycle(start)]
fn start_among(members: &[Term], end: u32) -> u32
    ensures { result ≡ begins_of (terms_of members.now) end }
{
    match members {
        [] => end,
        [first, ..] => start_of(first),
    }
}

// The number behind that of the last token, where it is a u32.
#[cycle(end)]
fn end_of(term: &Term) -> Option<u32>
    ensures { IfSome result (λ z. z ≡ ends (view term.now)) }
{
    match term {
        Term::Empty => None,
        Term::Name(number, _) => number.checked_add(1),
        Term::Pcdata(number) => number.checked_add(1),
        Term::Seq(members) => end_among(members),
        Term::Or(members) => end_among(members),
        Term::And(members) => end_among(members),
        Term::Opt(member) => end_of(member),
        Term::Plus(member) => end_of(member),
        Term::Rep(member) => end_of(member),
        Term::Member(_, _) => None,
        Term::Round(_, _) => None,
    }
}

#[cycle(end)]
fn end_among(members: &[Term]) -> Option<u32>
    ensures { IfSome result (λ z. z ≡ ends_of (terms_of members.now) 0) }
{
    let mut end = 0;
    for i in 0..members.len() {
        end = end_of(&members[i])?;
    }
    Some(end)
}

impl Plan {
    ghost use Rattle.std.specs.Prelude.{◌≡◌, [], ◌∷◌, ◌++◌, None, Some, IfOk, length, option_map};
    ghost use Rattle.std.specs.Option.{option_copied};
    ghost use Rattle.sgml_model.specs.View.{view};
    ghost use Rattle.sgml_automaton.specs.Members.{terms_of};
    ghost use Rattle.sgml_automaton.specs.Plan.{tables_of, tables_if, told, leading, naming, running, opened, next_run, beyond, again, planned, planned_in_order, planned_some};

    // The token gets into the scope, and has this place.
    fn tell(
        &mut self,
        number: u32,
        name: Option<&Name>,
        scope: usize,
        place: Place,
    ) -> Result<bool, Memory>
        ensures { IfOk result (λ new. told number (option_copied name.entry) scope place (tables_of self.old)
            ≡ tables_if new self.new) }
    {
        if number as usize >= self.places.len() || scope >= self.scopes.len() {
            return Ok(false);
        }
        if !self.scopes[scope].add(name, number)? {
            return Ok(false);
        }
        self.places[number as usize] = place;
        Ok(true)
    }

    // One exit more, and its index.
    fn lead(&mut self, exit: Exit) -> Result<usize, Memory>
        ensures { IfOk result (λ i. (i ≡ length self.old.exits.items)
            × (tables_of self.new ≡ leading (tables_of self.old) exit)) }
    {
        let index = self.exits.len();
        self.exits.push(exit)?;
        Ok(index)
    }

    // The index of a name that is needed.
    fn need(&mut self, name: Option<Name>) -> Result<Option<usize>, Memory>
        ensures { IfOk result (λ i. naming name (tables_of self.old) ≡ (i, tables_of self.new)) }
    {
        match name {
            None => Ok(None),
            Some(name) => {
                let index = self.names.len();
                self.names.push(name)?;
                Ok(Some(index))
            }
        }
    }

    // The members, with the scope of their first tokens.
    fn run(&mut self, alloc: Global, members: &[Term], scope: usize) -> Result<Run, Memory>
        ensures { IfOk result (λ r. running (terms_of members.now) scope (tables_of self.old) ≡ (r, tables_of self.new)) }
    {
        let done = all_finished(members);
        let name = copied(alloc, first_required(members))?;
        let needed = self.need(name)?;
        Ok(Run {
            scope,
            done,
            needed,
        })
    }

    // The members, with a scope of their own.
    fn open_run(&mut self, alloc: Global, members: &[Term]) -> Result<Run, Memory>
        ensures { IfOk result (λ r. opened (terms_of members.now) (tables_of self.old) ≡ (r, tables_of self.new)) }
    {
        let scope = self.scopes.len();
        self.scopes.push(Scope::new(alloc))?;
        let run = self.run(alloc, members, scope)?;
        Ok(run)
    }

    // The members behind one.
    fn next_run(
        &mut self,
        alloc: Global,
        member: &Term,
        behind: &[Term],
        run: Run,
    ) -> Result<Run, Memory>
        ensures { IfOk result (λ r. next_run (view member.now) (terms_of behind.now) run (tables_of self.old)
            ≡ (r, tables_of self.new)) }
    {
        if member.finished() {
            return Ok(run);
        }
        let next = self.open_run(alloc, behind)?;
        Ok(next)
    }

    // What is known after a member, where these are behind it.
    fn beyond(&mut self, behind: &[Term], run: Run, end: u32, after: Place) -> Result<Place, Memory>
        ensures { IfOk result (λ p. beyond (terms_of behind.now) run end after (tables_of self.old)
            ≡ (p, tables_of self.new)) }
    {
        match behind {
            [] => Ok(after),
            [first, ..] => {
                let from = start_of(first);
                let next = if run.done { after.exit } else { None };
                let exit = self.lead(Exit {
                    scope: run.scope,
                    from,
                    to: end,
                    next,
                })?;
                let needed = if run.done { after.needed } else { run.needed };
                Ok(Place {
                    exit: Some(exit),
                    finished: run.done && after.finished,
                    needed,
                })
            }
        }
    }

    // What is known within a group that can come again.
    fn again(&mut self, scope: usize, from: u32, end: u32, after: Place) -> Result<Place, Memory>
        ensures { IfOk result (λ p. again scope from end after (tables_of self.old) ≡ (p, tables_of self.new)) }
    {
        let exit = self.lead(Exit {
            scope,
            from,
            to: end,
            next: after.exit,
        })?;
        Ok(Place {
            exit: Some(exit),
            finished: after.finished,
            needed: after.needed,
        })
    }

    /// Adds a term up to the number `end`, whose first tokens get into the scope; false where it
    /// has no tables.
    #[cycle(plan)]
    pub fn plan(
        &mut self,
        alloc: Global,
        term: &Term,
        end: u32,
        scope: usize,
        after: Place,
    ) -> Result<bool, Memory>
        ensures { IfOk result (λ all. planned (view term.now) end scope after (tables_of self.old)
            ≡ tables_if all self.new) }
    {
        match term {
            Term::Empty => Ok(false),
            Term::Name(number, name) => {
                let told = self.tell(*number, Some(name), scope, after)?;
                Ok(told)
            }
            Term::Pcdata(number) => {
                let more = self.again(scope, *number, end, after)?;
                let told = self.tell(*number, None, scope, more)?;
                Ok(told)
            }
            Term::Seq(members) => {
                let run = self.run(alloc, members, scope)?;
                let all = self.plan_in_order(alloc, members, run, end, after)?;
                Ok(all)
            }
            Term::Or(members) => {
                let all = self.plan_some(alloc, members, end, scope, after)?;
                Ok(all)
            }
            Term::And(_) => Ok(false),
            Term::Opt(member) => {
                let all = self.plan(alloc, member, end, scope, after)?;
                Ok(all)
            }
            Term::Plus(member) => {
                let more = self.again(scope, start_of(member), end, after)?;
                let all = self.plan(alloc, member, end, scope, more)?;
                Ok(all)
            }
            Term::Rep(member) => {
                let more = self.again(scope, start_of(member), end, after)?;
                let all = self.plan(alloc, member, end, scope, more)?;
                Ok(all)
            }
            Term::Member(_, _) => Ok(false),
            Term::Round(_, _) => Ok(false),
        }
    }

    #[cycle(plan)]
    fn plan_in_order(
        &mut self,
        alloc: Global,
        members: &[Term],
        run: Run,
        end: u32,
        after: Place,
    ) -> Result<bool, Memory>
        ensures { IfOk result (λ all. planned_in_order (terms_of members.now) run end after (tables_of self.old)
            ≡ tables_if all self.new) }
    {
        let mut run = run;
        for i in 0..members.len() {
            let scope = run.scope;
            let behind = &members[i + 1..];
            run = self.next_run(alloc, &members[i], behind, run)?;
            let within = self.beyond(behind, run, end, after)?;
            if !self.plan(alloc, &members[i], start_among(behind, end), scope, within)? {
                return Ok(false);
            }
        }
        Ok(true)
    }

    #[cycle(plan)]
    fn plan_some(
        &mut self,
        alloc: Global,
        members: &[Term],
        end: u32,
        scope: usize,
        after: Place,
    ) -> Result<bool, Memory>
        ensures { IfOk result (λ all. planned_some (terms_of members.now) end scope after (tables_of self.old)
            ≡ tables_if all self.new) }
    {
        for i in 0..members.len() {
            let end = start_among(&members[i + 1..], end);
            if !self.plan(alloc, &members[i], end, scope, after)? {
                return Ok(false);
            }
        }
        Ok(true)
    }
}

// The name, in memory of its own.
fn copied(alloc: Global, name: Option<&Name>) -> Result<Option<Name>, Memory>
    ensures { IfOk result (λ n. n ≡ option_copied name.entry) }
{
    match name {
        None => Ok(None),
        Some(name) => Ok(Some(name.copy(alloc)?)),
    }
}

// Tables without a token.
fn bare(alloc: Global, end: u32) -> Result<Plan, Memory>
    ensures { IfOk result (λ p. tables_of p ≡ bare p.places.items) }
{
    let mut scopes = Vec::new(alloc);
    scopes.push(Scope::new(alloc))?;
    let places = vec![in alloc; NOWHERE; end as usize]?;
    Ok(Plan {
        scopes,
        exits: Vec::new(alloc),
        places,
        names: Vec::new(alloc),
    })
}

// Tables to which a model is added, and what is known at its start.
fn begun(alloc: Global, term: &Term, end: u32) -> Result<Index, Memory>
    ensures none { IfOk result (λ i. i.counts ≡ false) }
    ensures tables { IfOk result (λ i. (i.start, tables_of i.plan) ≡ begun (view term.now) end i.plan.places.items) }
{
    let mut plan = bare(alloc, end)?;
    let name = copied(alloc, term.required())?;
    let needed = plan.need(name)?;
    let exit = plan.lead(Exit {
        scope: 0,
        from: 0,
        to: end,
        next: None,
    })?;
    let start = Place {
        exit: Some(exit),
        finished: term.finished(),
        needed,
    };
    Ok(Index {
        counts: false,
        start,
        plan,
        text: None,
        texts: Vec::new(alloc),
    })
}

/// The tables of a model, which has some unless it has an AND group.
pub fn of_model(alloc: Global, model: &Model) -> Result<Index, Memory>
    ensures known { IfOk result (λ i. IsIndexOf i (model_of model.now)) }
    ensures texts { IfOk result (λ i. KnowsTexts i) }
{
    let term = model.term();
    let Some(end) = end_of(term) else {
        let index = begun(alloc, term, 0)?;
        return Ok(index);
    };
    let mut index = begun(alloc, term, end)?;
    index.counts = index.plan.plan(alloc, term, end, 0, NOWHERE)?;
    index.note_texts(alloc)?;
    Ok(index)
}

/// No tables.
pub fn no_tables(alloc: Global) -> Index
    ensures { result.counts ≡ false }
{
    Index {
        counts: false,
        start: NOWHERE,
        plan: Plan {
            scopes: Vec::new(alloc),
            exits: Vec::new(alloc),
            places: Vec::new(alloc),
            names: Vec::new(alloc),
        },
        text: None,
        texts: Vec::new(alloc),
    }
}
