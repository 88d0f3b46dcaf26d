// Catalogs, and resolving.
ghost use Rattle.std.specs.Prelude.{◌≡◌, None, IfOk, find};
ghost use Rattle.std.specs.Option.{option_map};
ghost use Rattle.sgml_catalog.specs.Keys.{holds_for};
ghost use Rattle.sgml_catalog.specs.Resolving.{Reads, sort_of, system_entry, public_entry, entry_for, resolved, declaration_of, answer_of};

use crate::entry::{Entry, Sort};
use crate::index::Index;
use crate::noting::{index_of, key_for};
use crate::reading::{CatalogError, told};
use crate::token::tokens_of;
use crate::white::single;
use sgml_entity::External;
use sgml_text::{Memory, Name, Text};
use std::alloc::Global;
use std::marker::Model;

/// What an external identifier is declared for.
#[derive(Clone, Copy, Debug, PartialEq, Eq)]
pub enum Kind {
    /// A general entity.
    General,
    /// A parameter entity.
    Parameter,
    /// The external subset of a document type.
    Doctype,
    Notation,
}

/// A system identifier, before any directory is put before it.
#[derive(Debug, Drop)]
pub struct Resolved {
    pub text: Text,
    /// Whether an entry gave it, so that it is relative to the catalog's file, and not to that of the declaration.
    pub from_catalog: bool,
}

/// A catalog (TR9401). Contracts see it as its entries, in the order of the text.
#[derive(Drop)]
pub struct Catalog {
    entries: Vec<Entry>,
    index: Index,
}

impl Model for Catalog {
    ghost use Rattle.std.specs.Prelude.{List};
    ghost use Rattle.sgml_catalog.specs.declared.entry.Entry.{Entry};
    ghost use Rattle.sgml_catalog.specs.Keys.{IsIndexOf};

    ghost Value = { List Entry };

    ghost view = { λ a. a.entries.items };

    ghost invariant = { λ a. IsIndexOf a.index a.entries.items };
}

/// Reads a catalog. It is refused at a literal where a keyword is due and nothing is being skipped, at a literal or
/// comment that doesn't end, at a word of OVERRIDE other than YES and NO, and at its end where an argument is missing.
pub fn read_catalog(alloc: Global, bytes: &[u8]) -> Result<Catalog, CatalogError>
    ensures { Reads bytes.now result }
{
    let (tokens, end) = tokens_of(alloc, bytes)?;
    let entries = told(alloc, tokens, end)?;
    let index = index_of(alloc, &entries)?;
    Ok(Catalog { entries, index })
}

impl Catalog {
    /// The entries that have an effect, in the order of the text.
    pub fn entries(&self) -> &[Entry]
        ensures { result.now ≡ self.now }
    {
        &self.entries
    }

    /// The system identifier of what is declared with this external identifier, if there is one.
    pub fn resolve(
        &self,
        alloc: Global,
        external: &External,
        kind: Kind,
        name: &Name,
    ) -> Result<Option<Resolved>, Memory>
        ensures { IfOk result (λ answer. answer ≡ resolved self.now external.now kind name.now) }
    {
        match self.entry_for(alloc, external, kind, name)? {
            Some(entry) => Ok(Some(Resolved {
                text: entry.file.copy(alloc)?,
                from_catalog: true,
            })),
            None => as_declared(alloc, external),
        }
    }

    /// The file of the SGML declaration, if the catalog names one.
    pub fn sgmldecl(&self) -> Option<&Text>
        ensures { option_map (λ file. file.now) result ≡ declaration_of self.now }
    {
        for entry in &self.entries {
            if matches!(entry.sort, Sort::Declaration) {
                return Some(&entry.file);
            }
        }
        None
    }

    fn entry_for(
        &self,
        alloc: Global,
        external: &External,
        kind: Kind,
        name: &Name,
    ) -> Result<Option<&Entry>, Memory>
        ensures { IfOk result (λ answer. option_map (λ entry. entry.now) answer ≡ entry_for self.now external.now kind name.now) }
    {
        let declared = external.system.is_some();
        let by_system = self.system_entry(alloc, external)?;
        if by_system.is_some() {
            return Ok(by_system);
        }
        let by_public = self.public_entry(alloc, external, declared)?;
        if by_public.is_some() {
            return Ok(by_public);
        }
        self.find(alloc, sort_of(kind), declared, name.items())
    }

    fn system_entry(&self, alloc: Global, external: &External) -> Result<Option<&Entry>, Memory>
        ensures { IfOk result (λ answer. option_map (λ entry. entry.now) answer ≡ system_entry self.now external.now.system) }
    {
        match &external.system {
            Some(system) => self.find(alloc, Sort::System, false, system.items()),
            None => Ok(None),
        }
    }

    fn public_entry(
        &self,
        alloc: Global,
        external: &External,
        declared: bool,
    ) -> Result<Option<&Entry>, Memory>
        ensures { IfOk result (λ answer. option_map (λ entry. entry.now) answer ≡ public_entry self.now external.now.public declared) }
    {
        match &external.public {
            Some(public) => {
                let spaced = single(alloc, public.items())?;
                self.find(alloc, Sort::Public, declared, &spaced)
            }
            None => Ok(None),
        }
    }

    /// The first entry that holds for what is sought.
    fn find(
        &self,
        alloc: Global,
        sort: Sort,
        over: bool,
        name: &[u8],
    ) -> Result<Option<&Entry>, Memory>
        ensures { IfOk result (λ answer. option_map (λ entry. entry.now) answer ≡ find (holds_for (sort, over, name.now)) self.now) }
    {
        let key = key_for(alloc, sort, over, name)?;
        match self.index.number(&key) {
            Some(number) => Ok(Some(&self.entries[number])),
            None => Ok(None),
        }
    }
}

fn sort_of(kind: Kind) -> Sort
    ensures { result ≡ sort_of kind }
{
    match kind {
        Kind::General => Sort::General,
        Kind::Parameter => Sort::Parameter,
        Kind::Doctype => Sort::Doctype,
        Kind::Notation => Sort::Notation,
    }
}

fn as_declared(alloc: Global, external: &External) -> Result<Option<Resolved>, Memory>
    ensures { IfOk result (λ answer. answer ≡ answer_of None external.now.system) }
{
    match &external.system {
        Some(system) => Ok(Some(Resolved {
            text: system.copy(alloc)?,
            from_catalog: false,
        })),
        None => Ok(None),
    }
}
