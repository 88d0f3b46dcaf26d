// Judging a group without building it, so that no group is too large to be judged.
ghost use Rattle.std.specs.Prelude.{◌≡◌, ◌+◌, ◌^◌, ◌<◌, IfOk};
ghost use Rattle.sgml_model.specs.Group.{begin, finish, by};
ghost use Rattle.sgml_model.specs.Reading.{goes_on};
ghost use Rattle.sgml_model.specs.Outline.{hold, set_mark, judge, nothing, closed, innermost};
ghost use Rattle.sgml_model.specs.ReaderView.{sign, connector_view};
ghost use Rattle.sgml_model.specs.OutlineView.{outline_of};

use crate::reader::{Connector, agrees};
use crate::token::GroupToken;
use sgml_text::Memory;
use std::alloc::Global;

/// A group that is open.
#[derive(Clone, Copy)]
pub struct Begun {
    pub connector: Option<Connector>,
    /// The members before the last connector.
    pub members: usize,
}

/// What is open, and how large the groups are.
#[derive(Drop)]
pub struct Outline {
    pub open_groups: Vec<Begun>,
    pub item: bool,
    pub markable: bool,
    pub widest: usize,
    pub total: usize,
    pub level: usize,
}

impl Outline {
    pub fn new(alloc: Global) -> Outline
        ensures { outline_of result ≡ nothing }
    {
        Outline {
            open_groups: Vec::new(alloc),
            item: false,
            markable: false,
            widest: 0,
            total: 0,
            level: 0,
        }
    }

    fn hold(&mut self, markable: bool) -> bool
        ensures { goes_on result (outline_of self.new) ≡ hold (outline_of self.old) markable }
    {
        if self.item || self.open_groups.is_empty() {
            return false;
        }
        self.item = true;
        self.markable = markable;
        true
    }

    fn begin(&mut self) -> Result<bool, Memory>
        ensures { IfOk result (λ more. goes_on more (outline_of self.new) ≡ judge (outline_of self.old) begin) }
    {
        if self.item {
            return Ok(false);
        }
        self.level = self.level.max(self.open_groups.len() + 1);
        self.open_groups.push(Begun {
            connector: None,
            members: 0,
        })?;
        self.markable = false;
        Ok(true)
    }

    fn connect(&mut self, c: Connector) -> Result<bool, Memory>
        requires total { self.old.total + 1 < 2 ^ 64 }
        requires members { innermost (outline_of self.old).open_groups + 1 < 2 ^ 64 }
        ensures { IfOk result (λ more. goes_on more (outline_of self.new) ≡ judge (outline_of self.old) (by (connector_view c))) }
    {
        match self.open_groups.pop() {
            None => Ok(false),
            Some(Begun { connector, members }) => {
                if !self.item || !agrees(connector, c) {
                    return Ok(false);
                }
                self.open_groups.push(Begun {
                    connector: Some(c),
                    members: members + 1,
                })?;
                self.item = false;
                self.markable = false;
                self.total += 1;
                Ok(true)
            }
        }
    }

    fn finish(&mut self) -> bool
        requires total { self.old.total + 1 < 2 ^ 64 }
        requires members { innermost (outline_of self.old).open_groups + 1 < 2 ^ 64 }
        ensures { goes_on result (outline_of self.new) ≡ judge (outline_of self.old) finish }
    {
        match self.open_groups.pop() {
            None => false,
            Some(Begun { members, .. }) => {
                if !self.item {
                    return false;
                }
                self.markable = true;
                self.widest = self.widest.max(members + 1);
                self.total += 1;
                true
            }
        }
    }

    fn mark(&mut self) -> bool
        ensures { goes_on result (outline_of self.new) ≡ set_mark (outline_of self.old) }
    {
        if !self.item || !self.markable {
            return false;
        }
        self.markable = false;
        true
    }

    // Takes one more token; false where no group goes on.
    pub fn step(&mut self, token: &GroupToken) -> Result<bool, Memory>
        requires total { self.old.total + 1 < 2 ^ 64 }
        requires members { innermost (outline_of self.old).open_groups + 1 < 2 ^ 64 }
        ensures { IfOk result (λ more. goes_on more (outline_of self.new) ≡ judge (outline_of self.old) (sign token.now)) }
    {
        match token {
            GroupToken::Begin => self.begin(),
            GroupToken::Finish => Ok(self.finish()),
            GroupToken::Name(_) => Ok(self.hold(true)),
            GroupToken::Pcdata => Ok(self.hold(false)),
            GroupToken::Seq => self.connect(Connector::Seq),
            GroupToken::Or => self.connect(Connector::Or),
            GroupToken::And => self.connect(Connector::And),
            GroupToken::Opt => Ok(self.mark()),
            GroupToken::Plus => Ok(self.mark()),
            GroupToken::Rep => Ok(self.mark()),
        }
    }

    // A group is whole, and none is open.
    pub fn closed(&self) -> bool
        ensures { result ≡ closed (outline_of self.now) }
    {
        self.item && self.open_groups.is_empty()
    }
}
