// What can follow each token of a model without AND groups.
ghost use Rattle.std.specs.Prelude.{◌≡◌, [], ◌∷◌, ◌++◌, None, Some, IfOk, length, if◌then◌else◌};
ghost use Rattle.std.specs.Option.{option_copied};
ghost use Rattle.sgml_ambiguity.specs.Names.{number_in};
ghost use Rattle.sgml_automaton.specs.Plan.{added, within};

use sgml_ambiguity::names::NameIndex;
use sgml_text::{Memory, Name};
use std::alloc::Global;

/// Tokens of which each can come first from some place on, one of each name.
#[derive(Drop)]
pub struct Scope {
    pub names: NameIndex,
    pub text: Option<u32>,
}

/// What can follow: the tokens of a scope in a range of numbers, and then what follows behind it.
#[derive(Clone, Copy)]
pub struct Exit {
    pub scope: usize,
    pub from: u32,
    pub to: u32,
    pub next: Option<usize>,
}

/// What is known after a token: what can follow, whether nothing more need come, and the name that
/// must.
#[derive(Clone, Copy)]
pub struct Place {
    pub exit: Option<usize>,
    pub finished: bool,
    pub needed: Option<usize>,
}

/// The members of a sequence from one on: the scope of their first tokens, whether they are done,
/// and the name that must come.
#[derive(Clone, Copy)]
pub struct Run {
    pub scope: usize,
    pub done: bool,
    pub needed: Option<usize>,
}

/// The tables of a model.
#[derive(Drop)]
pub struct Plan {
    pub scopes: Vec<Scope>,
    pub exits: Vec<Exit>,
    pub places: Vec<Place>,
    pub names: Vec<Name>,
}

/// The tables, where the model has them, and what is known at its start.
#[derive(Drop)]
pub struct Index {
    pub counts: bool,
    pub start: Place,
    pub plan: Plan,
    /// The token of `#PCDATA` that can come at the start, and after each token.
    pub text: Option<u32>,
    pub texts: Vec<Option<u32>>,
}

impl Scope {
    /// A scope without tokens.
    pub fn new(alloc: Global) -> Scope
        ensures names { result.names ≡ [] }
        ensures text { result.text ≡ None }
    {
        Scope {
            names: NameIndex::new(alloc),
            text: None,
        }
    }

    /// The number of the name's token.
    pub fn number(&self, name: Option<&Name>) -> Option<u32>
        ensures { result ≡ number_in self.now.names self.now.text (option_copied name.entry) }
    {
        match name {
            None => self.text,
            Some(name) => self.names.number(name.items()),
        }
    }

    /// Adds a token, unless one of its name is there.
    pub fn add(&mut self, name: Option<&Name>, number: u32) -> Result<bool, Memory>
        ensures { IfOk result (λ new. added self.old (option_copied name.entry) number
            ≡ (if new then Some self.new else None)) }
    {
        match name {
            None => {
                if self.text.is_some() {
                    return Ok(false);
                }
                self.text = Some(number);
                Ok(true)
            }
            Some(name) => {
                if self.names.number(name.items()).is_some() {
                    return Ok(false);
                }
                self.names.add(name.items(), number)?;
                Ok(true)
            }
        }
    }
}

/// The number, where it is in the range.
pub fn within(number: Option<u32>, from: u32, to: u32) -> Option<u32>
    ensures { result ≡ within from to number }
{
    let number = number?;
    if from <= number && number < to {
        Some(number)
    } else {
        None
    }
}

impl Plan {
    ghost use Rattle.std.specs.Prelude.{◌≡◌, IfOk, Some, length};
    ghost use Rattle.std.specs.Option.{option_copied};
    ghost use Rattle.sgml_automaton.specs.Plan.{hit, chase, named, tables_of, texts_of};

    // The token of the name at an exit.
    fn hit(&self, exit: Exit, name: Option<&Name>) -> Option<u32>
        ensures { result ≡ hit self.now.scopes.items exit (option_copied name.entry) }
    {
        if exit.scope >= self.scopes.len() {
            return None;
        }
        within(self.scopes[exit.scope].number(name), exit.from, exit.to)
    }

    // The same, of a name as it is spelled.
    #[inline(always)]
    fn hit_spelled(&self, exit: Exit, spelled: &[u8]) -> Option<u32>
        ensures { result ≡ hit self.now.scopes.items exit (Some spelled.now) }
    {
        if exit.scope >= self.scopes.len() {
            return None;
        }
        within(
            self.scopes[exit.scope].names.number(spelled),
            exit.from,
            exit.to,
        )
    }

    // The token of the name at the exits from one on, which are no more than groups are open.
    fn chase(&self, at: Option<usize>, name: Option<&Name>) -> Option<u32>
        ensures { result ≡ chase (length self.now.exits.items) self.now.scopes.items self.now.exits.items at (option_copied name.entry) }
    {
        let mut left = self.exits.len();
        let mut next = at;
        'exits: while left > 0 {
            let i = next?;
            if i >= self.exits.len() {
                return None;
            }
            let exit = self.exits[i];
            if let Some(number) = self.hit(exit, name) {
                return Some(number);
            }
            next = exit.next;
            left -= 1;
        }
        None
    }

    // The same, of a name as it is spelled.
    #[inline(always)]
    fn chase_spelled(&self, at: Option<usize>, spelled: &[u8]) -> Option<u32>
        ensures { result ≡ chase (length self.now.exits.items) self.now.scopes.items self.now.exits.items at (Some spelled.now) }
    {
        let mut left = self.exits.len();
        let mut next = at;
        'exits: while left > 0 {
            let i = next?;
            if i >= self.exits.len() {
                return None;
            }
            let exit = self.exits[i];
            if let Some(number) = self.hit_spelled(exit, spelled) {
                return Some(number);
            }
            next = exit.next;
            left -= 1;
        }
        None
    }

    // The token of `#PCDATA` that can come after each token.
    fn texts(&self, alloc: Global) -> Result<Vec<Option<u32>>, Memory>
        ensures { IfOk result (λ texts. texts.items ≡ texts_of (tables_of self.now)) }
    {
        let mut texts = Vec::with_capacity(alloc, self.places.len())?;
        for place in &self.places {
            texts.push(self.chase(place.exit, None))?;
        }
        Ok(texts)
    }

    // The name of an index.
    fn name(&self, index: Option<usize>) -> Option<&Name>
        ensures { option_copied result ≡ named self.now.names.items index }
    {
        let i = index?;
        if i < self.names.len() {
            Some(&self.names[i])
        } else {
            None
        }
    }
}

impl Index {
    ghost use Rattle.std.specs.Prelude.{◌≡◌, true, None, Some, OnOk};
    ghost use Rattle.std.specs.Option.{option_copied};
    ghost use Rattle.sgml_automaton.specs.Plan.{tables_of, place_in, exit_of, named, next_in, finished_of, needed_of};
    ghost use Rattle.sgml_automaton.specs.Known.{KnowsTexts};

    /// Notes where `#PCDATA` can come.
    pub fn note_texts(&mut self, alloc: Global) -> Result<(), Memory>
        ensures texts { OnOk result (KnowsTexts self.new) }
        ensures counts { self.new.counts ≡ self.old.counts }
        ensures start { self.new.start ≡ self.old.start }
        ensures plan { self.new.plan ≡ self.old.plan }
    {
        self.text = self.plan.chase(self.start.exit, None);
        self.texts = self.plan.texts(alloc)?;
        Ok(())
    }

    /// The token of `#PCDATA` that can follow the last one.
    #[inline(always)]
    pub fn text(&self, last: Option<u32>) -> Option<u32>
        requires counts { self.now.counts ≡ true }
        requires texts { KnowsTexts self.now }
        ensures { result ≡ next_in (tables_of self.now.plan) self.now.start last None }
    {
        match last {
            None => self.text,
            Some(k) => {
                let k = k as usize;
                if k < self.texts.len() {
                    self.texts[k]
                } else {
                    None
                }
            }
        }
    }

    // The exit behind the last token.
    #[inline(always)]
    fn exit(&self, last: Option<u32>) -> Option<usize>
        ensures { result ≡ exit_of (place_in self.now last) }
    {
        match last {
            None => self.start.exit,
            Some(k) => {
                let k = k as usize;
                if k < self.plan.places.len() {
                    self.plan.places[k].exit
                } else {
                    None
                }
            }
        }
    }

    /// The token of the name that can follow the last one.
    #[inline(never)]
    pub fn next(&self, last: Option<u32>, name: &Name) -> Option<u32>
        ensures { result ≡ next_in (tables_of self.now.plan) self.now.start last (Some name.now) }
    {
        self.plan.chase_spelled(self.exit(last), name.items())
    }

    /// Nothing more need come after the last token.
    #[inline(always)]
    pub fn finished(&self, last: Option<u32>) -> bool
        ensures { result ≡ finished_of (place_in self.now last) }
    {
        match last {
            None => self.start.finished,
            Some(k) => {
                let k = k as usize;
                k < self.plan.places.len() && self.plan.places[k].finished
            }
        }
    }

    // The index of the name that must come after the last token.
    #[inline(always)]
    fn needed(&self, last: Option<u32>) -> Option<usize>
        ensures { named self.now.plan.names.items result ≡ needed_of self.now.plan.names.items (place_in self.now last) }
    {
        match last {
            None => self.start.needed,
            Some(k) => {
                let k = k as usize;
                if k < self.plan.places.len() {
                    self.plan.places[k].needed
                } else {
                    None
                }
            }
        }
    }

    /// The name that must come after the last token.
    pub fn required(&self, last: Option<u32>) -> Option<&Name>
        ensures { option_copied result ≡ needed_of self.now.plan.names.items (place_in self.now last) }
    {
        self.plan.name(self.needed(last))
    }
}
