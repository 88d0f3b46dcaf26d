// The marked sections that are open.
ghost use Rattle.std.specs.Prelude.{◌≡◌, ◌<◌, ◌-◌, false, not, List, [], ◌∷◌, ◌++◌, ℕ, OnOk, OnErr, IfOk, IfErr, IfSome, is_ok, is_some, length, option_map, slice_get};
ghost use Rattle.std.specs.Cmp.Lexicographic.{pointwise};
ghost use Rattle.std.specs.Cmp.Rules.{comparing};
ghost use Rattle.std.proofs.Common.{rules};
ghost use Rattle.std.specs.List.{remove};
ghost use Rattle.sgml_marked.specs.Opened.{rank, is_open_at, without_last, same_section, last_or, Bounds};
ghost use Rattle.sgml_marked.specs.declared.sections.SectionError.TheVariants.{SectionNone, SectionOpen};

use crate::status::Status;
use sgml_text::Memory;
use std::alloc::Global;
use std::marker::Model;

/// A marked section that is open.
#[derive(Clone, Copy, Debug)]
pub struct Section {
    pub status: Status,
    /// How many entities were open where it started.
    pub level: u32,
}

impl PartialEq for Section {
    ghost eq = { same_section };

    ghost laws = { Prim.search (comparing, rules) };

    fn eq(&self, other: &Section) -> bool {
        rank_of(self.status) == rank_of(other.status) && self.level == other.level
    }
}

fn rank_of(status: Status) -> u8
    ensures { result ≡ rank status }
{
    match status {
        Status::Ignore => 0,
        Status::Cdata => 1,
        Status::Rcdata => 2,
        Status::Include => 3,
    }
}

/// Why a section or an entity can't end.
#[derive(Clone, Copy, Debug, PartialEq, Eq)]
pub enum SectionError {
    /// No section of this entity level is open.
    SectionNone,
    /// A section of this entity level is open.
    SectionOpen,
}

/// The marked sections that are open, in the order in which they started.
#[derive(Debug, Drop)]
pub struct Sections {
    sections: Vec<Section>,
    /// Beside each section a number that no level up to it passes: so the search for a level ends
    /// where only lower ones are left.
    highest: Vec<u32>,
}

impl Model for Sections {
    ghost use Rattle.std.specs.Prelude.{List};
    ghost use Rattle.sgml_marked.specs.declared.sections.Section.{Section};

    ghost Value = { List Section };

    ghost use Rattle.sgml_marked.specs.Opened.{Bounds};

    ghost view = { λ a. a.sections.items };

    ghost invariant = { λ a. Bounds 0 a.sections.items a.highest.items };
}

impl PartialEq for Sections {
    ghost eq = { pointwise same_section };

    ghost laws = { Prim.search (comparing, rules) };

    fn eq(&self, other: &Sections) -> bool {
        self.sections.as_slice() == other.sections.as_slice()
    }
}

impl Sections {
    /// None is open.
    pub fn new(alloc: Global) -> Self
        ensures { result ≡ [] }
    {
        Sections {
            sections: Vec::new(alloc),
            highest: Vec::new(alloc),
        }
    }

    /// A section starts.
    pub fn push(&mut self, status: Status, level: u32) -> Result<(), Memory>
        ensures ok { OnOk result (self.new ≡ self.old ++ (record { status = status; level = level }) ∷ []) }
        ensures err { OnErr result (self.new ≡ self.old) }
    {
        let highest = level.max(last_of(&self.highest));
        self.sections.reserve(1)?;
        self.highest.push(highest)?;
        self.sections.push_reserved(Section { status, level });
        Ok(())
    }

    /// A section ends: the last of this entity level.
    pub fn pop(&mut self, level: u32) -> Result<(), SectionError>
        ensures ok { is_ok result ≡ is_open_at level self.old }
        ensures ended { self.new ≡ without_last level self.old }
        ensures err { IfErr result (λ e. e ≡ SectionNone) }
    {
        match last_at(&self.sections, &self.highest, level) {
            Some(i) => {
                self.sections.remove(i);
                self.highest.remove(i);
                Ok(())
            }
            None => Err(SectionError::SectionNone),
        }
    }

    /// Whether an entity of this level may end here.
    pub fn check_end(&self, level: u32) -> Result<(), SectionError>
        ensures ok { is_ok result ≡ not (is_open_at level self.now) }
        ensures err { IfErr result (λ e. e ≡ SectionOpen) }
    {
        match last_at(&self.sections, &self.highest, level) {
            Some(_) => Err(SectionError::SectionOpen),
            None => Ok(()),
        }
    }

    /// The status of the last section that is open.
    pub fn innermost(&self) -> Option<Status>
        ensures { result ≡ option_map (λ s. s.status) (slice_get self.now (length self.now - 1)) }
    {
        match self.sections.as_slice().last() {
            Some(section) => Some(section.status),
            None => None,
        }
    }

    /// How many are open.
    pub fn count(&self) -> u64
        ensures { result ≡ length self.now }
    {
        self.sections.len() as u64
    }

    /// The same sections in memory of their own.
    pub fn copy(&self, alloc: Global) -> Result<Sections, Memory>
        ensures { IfOk result (λ sections. sections ≡ self.now) }
    {
        Ok(Sections {
            sections: self.sections.as_slice().to_vec(alloc)?,
            highest: self.highest.as_slice().to_vec(alloc)?,
        })
    }
}

fn last_of(highest: &[u32]) -> u32
    ensures { result ≡ last_or 0 highest.now }
{
    if highest.is_empty() {
        0
    } else {
        highest[highest.len() - 1]
    }
}

/// Where the last section of this entity level is.
fn last_at(sections: &[Section], highest: &[u32], level: u32) -> Option<usize>
    requires { Bounds 0 sections.now highest.now }
    ensures some { is_some result ≡ is_open_at level sections.now }
    ensures bound { IfSome result (λ i. i < length sections.now) }
    ensures last { IfSome result (λ i. remove sections.now i ≡ without_last level sections.now) }
    ensures none { is_some result ≡ false → without_last level sections.now ≡ sections.now }
{
    let mut n = sections.len();
    'search: while n > 0 {
        n -= 1;
        if highest[n] < level {
            return None;
        }
        if sections[n].level == level {
            return Some(n);
        }
    }
    None
}
