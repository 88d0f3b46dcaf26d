ghost use Rattle.std.specs.Prelude.{◌≡◌, ◌+◌, ◌^◌, ◌<◌, ◌++◌, map, reverse, option_map, IfOk};
ghost use Rattle.std.specs.Option.{ForSome};
ghost use Rattle.sgml_model.specs.View.{view, terms};
ghost use Rattle.sgml_model.specs.Group.{begin, finish, by, mark};
ghost use Rattle.sgml_model.specs.Reading.{agrees, group_of, marked, put, connect, close, set_mark, step, goes_on, whole, start};
ghost use Rattle.sgml_model.specs.ReaderView.{sign, connector_view, mark_view, open_view, state_of};

use crate::term::Term;
use crate::token::GroupToken;
use sgml_text::Memory;
use std::alloc::Global;

#[derive(Clone, Copy)]
pub enum Connector {
    Seq,
    Or,
    And,
}

#[derive(Clone, Copy)]
pub enum Mark {
    Opt,
    Plus,
    Rep,
}

#[derive(Drop)]
pub struct Open {
    pub connector: Option<Connector>,
    pub members: Vec<Term>,
}

#[derive(Drop)]
pub struct Reader {
    pub open_groups: Vec<Open>,
    pub item: Option<Term>,
    pub markable: bool,
    pub number: u32,
}

pub fn agrees(connector: Option<Connector>, c: Connector) -> bool
    ensures { result ≡ agrees (option_map connector_view connector) (connector_view c) }
{
    match connector {
        None => true,
        Some(Connector::Seq) => match c {
            Connector::Seq => true,
            _ => false,
        },
        Some(Connector::Or) => match c {
            Connector::Or => true,
            _ => false,
        },
        Some(Connector::And) => match c {
            Connector::And => true,
            _ => false,
        },
    }
}

fn group_of(connector: Option<Connector>, members: Vec<Term>) -> Term
    ensures { view result ≡ group_of (option_map connector_view connector) (terms (map view members.items)) }
{
    match connector {
        None => Term::Seq(members),
        Some(Connector::Seq) => Term::Seq(members),
        Some(Connector::Or) => Term::Or(members),
        Some(Connector::And) => Term::And(members),
    }
}

fn marked(alloc: Global, item: Term, m: Mark) -> Result<Term, Memory>
    ensures { IfOk result (λ x. view x ≡ marked (mark_view m) (view item)) }
{
    match m {
        Mark::Opt => Ok(Term::Opt(Box::new(alloc, item)?)),
        Mark::Plus => Ok(Term::Plus(Box::new(alloc, item)?)),
        Mark::Rep => Ok(Term::Rep(Box::new(alloc, item)?)),
    }
}

impl Reader {
    pub fn new(alloc: Global) -> Reader
        ensures { state_of result ≡ start }
    {
        Reader {
            open_groups: Vec::new(alloc),
            item: None,
            markable: false,
            number: 0,
        }
    }

    fn put(&mut self, item: Term, markable: bool) -> bool
        requires { ForSome (put (state_of self.old) (view item) markable) (λ s. s.number < 2 ^ 32) }
        ensures { goes_on result (state_of self.new) ≡ put (state_of self.old) (view item) markable }
    {
        if self.item.is_some() || self.open_groups.is_empty() {
            return false;
        }
        self.item = Some(item);
        self.markable = markable;
        self.number += 1;
        true
    }

    fn begin(&mut self, alloc: Global) -> Result<bool, Memory>
        ensures { IfOk result (λ more. goes_on more (state_of self.new) ≡ step (state_of self.old) begin) }
    {
        if self.item.is_some() {
            return Ok(false);
        }
        self.open_groups.push(Open {
            connector: None,
            members: Vec::new(alloc),
        })?;
        self.markable = false;
        Ok(true)
    }

    fn connect(&mut self, c: Connector) -> Result<bool, Memory>
        ensures { IfOk result (λ more. goes_on more (state_of self.new) ≡ step (state_of self.old) (by (connector_view c))) }
    {
        let Some(mut open) = self.open_groups.pop() else {
            return Ok(false);
        };
        let Some(item) = self.item.take() else {
            return Ok(false);
        };
        if !agrees(open.connector, c) {
            return Ok(false);
        }
        open.connector = Some(c);
        open.members.push(item)?;
        self.open_groups.push(open)?;
        self.markable = false;
        Ok(true)
    }

    fn finish(&mut self) -> Result<bool, Memory>
        ensures { IfOk result (λ more. goes_on more (state_of self.new) ≡ step (state_of self.old) finish) }
    {
        let Some(open) = self.open_groups.pop() else {
            return Ok(false);
        };
        let Some(item) = self.item.take() else {
            return Ok(false);
        };
        let Open {
            connector,
            mut members,
        } = open;
        members.push(item)?;
        self.item = Some(group_of(connector, members));
        self.markable = true;
        Ok(true)
    }

    fn mark(&mut self, alloc: Global, m: Mark) -> Result<bool, Memory>
        ensures { IfOk result (λ more. goes_on more (state_of self.new) ≡ step (state_of self.old) (mark (mark_view m))) }
    {
        if !self.markable {
            return Ok(false);
        }
        let Some(item) = self.item.take() else {
            return Ok(false);
        };
        self.item = Some(marked(alloc, item, m)?);
        self.markable = false;
        Ok(true)
    }

    // Takes one more token; false where no group goes on.
    pub fn step(&mut self, alloc: Global, token: &GroupToken) -> Result<bool, Memory>
        requires { ForSome (step (state_of self.old) (sign token.now)) (λ s. s.number < 2 ^ 32) }
        ensures { IfOk result (λ more. goes_on more (state_of self.new) ≡ step (state_of self.old) (sign token.now)) }
    {
        match token {
            GroupToken::Begin => self.begin(alloc),
            GroupToken::Finish => self.finish(),
            GroupToken::Name(name) => {
                let item = Term::Name(self.number, name.copy(alloc)?);
                Ok(self.put(item, true))
            }
            GroupToken::Pcdata => {
                let item = Term::Pcdata(self.number);
                Ok(self.put(item, false))
            }
            GroupToken::Seq => self.connect(Connector::Seq),
            GroupToken::Or => self.connect(Connector::Or),
            GroupToken::And => self.connect(Connector::And),
            GroupToken::Opt => self.mark(alloc, Mark::Opt),
            GroupToken::Plus => self.mark(alloc, Mark::Plus),
            GroupToken::Rep => self.mark(alloc, Mark::Rep),
        }
    }

    pub fn whole(self) -> Option<Term>
        ensures { option_map view result ≡ whole (state_of self) }
    {
        if self.open_groups.is_empty() {
            let Reader { item, .. } = self;
            item
        } else {
            None
        }
    }
}
