// The entries of a catalog.
ghost use Rattle.std.specs.Prelude.{◌≡◌, IfOk};
ghost use Rattle.sgml_catalog.specs.Entries.{entry, entry_of, of_entity};

use crate::keyword::Keyword;
use sgml_text::{Memory, Text};
use std::alloc::Global;

/// What an entry is for.
#[derive(Clone, Copy, Debug, PartialEq, Eq, Hash)]
pub enum Sort {
    System,
    Public,
    General,
    Parameter,
    Doctype,
    Notation,
    /// The SGML declaration.
    Declaration,
}

/// An entry, which gives an identifier to what it is for.
#[derive(Debug, Drop)]
pub struct Entry {
    pub sort: Sort,
    /// Whether it stands under OVERRIDE YES.
    pub over: bool,
    /// The identifier or name that it holds for, as it is spelled; of an SGML declaration nothing.
    pub name: Text,
    /// The system identifier that it gives.
    pub file: Text,
}

/// The entry of a keyword with two arguments, if it has an effect.
pub(crate) fn entry_of(
    alloc: Global,
    keyword: Keyword,
    over: bool,
    name: Text,
    file: Text,
) -> Result<Option<Entry>, Memory>
    ensures { IfOk result (λ entry. entry ≡ entry_of keyword over name file) }
{
    match keyword {
        Keyword::Public => Ok(Some(entry_for(Sort::Public, over, name, file))),
        Keyword::System => Ok(Some(entry_for(Sort::System, over, name, file))),
        Keyword::Doctype => Ok(Some(entry_for(Sort::Doctype, over, name, file))),
        Keyword::Notation => Ok(Some(entry_for(Sort::Notation, over, name, file))),
        Keyword::Entity => Ok(Some(of_entity(alloc, over, name, file)?)),
        _ => Ok(None),
    }
}

fn entry_for(sort: Sort, over: bool, name: Text, file: Text) -> Entry
    ensures { result ≡ entry sort over name file }
{
    Entry {
        sort,
        over,
        name,
        file,
    }
}

fn of_entity(alloc: Global, over: bool, name: Text, file: Text) -> Result<Entry, Memory>
    ensures { IfOk result (λ entry. entry ≡ of_entity over name file) }
{
    match name.items() {
        [b'%', rest @ ..] => {
            let parameter = Text::of(rest.to_vec(alloc)?);
            Ok(entry_for(Sort::Parameter, over, parameter, file))
        }
        _ => Ok(entry_for(Sort::General, over, name, file)),
    }
}
