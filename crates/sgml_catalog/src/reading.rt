// The entries that the tokens tell.
ghost use Rattle.std.specs.Prelude.{◌≡◌, Ok, OnOk};
ghost use Rattle.sgml_catalog.specs.Entries.{step, told, closed, Agrees, AgreesList, one_argument, entries_with, begun};
ghost use Rattle.sgml_catalog.specs.declared.reading.CatalogState.TheVariants.{Due, Skipping};
ghost use Rattle.sgml_catalog.specs.declared.reading.CatalogError.TheVariants.{Memory as Memory_};

use crate::entry::{Entry, Sort, entry_of};
use crate::keyword::{Keyword, keyword_of, takes_two};
use crate::token::{End, Token};
use sgml_text::{Memory, Text, is_word};
use std::alloc::{AllocError, AllocFailed, Global};

/// Why a catalog isn't read.
#[derive(Clone, Copy, Debug, PartialEq, Eq)]
pub enum CatalogError {
    /// It is of no form at this place.
    BadCatalog { at: u64 },
    Memory,
}

impl From<Memory> for CatalogError {
    ghost from_gives = { λ _ e. e ≡ Memory_ };

    fn from(_: Memory) -> Self {
        CatalogError::Memory
    }
}

impl From<AllocError> for CatalogError {
    ghost from_gives = { λ _ e. e ≡ Memory_ };

    fn from(_: AllocError) -> Self {
        CatalogError::Memory
    }
}

impl<T: Drop> From<AllocFailed<T>> for CatalogError {
    ghost from_gives = { λ _ e. e ≡ Memory_ };

    fn from(_: AllocFailed<T>) -> Self {
        CatalogError::Memory
    }
}

/// What is due.
#[derive(Debug, Drop)]
pub enum CatalogState {
    /// A keyword.
    Due,
    /// A keyword, and all before it is skipped.
    Skipping,
    /// The first argument of this keyword.
    First(Keyword),
    /// The second argument, after the first.
    Second(Keyword, Text),
}

/// What one token does: what is due then, whether OVERRIDE is YES then, and the entry that it ends.
#[derive(Debug, Drop)]
pub struct Turn {
    pub state: CatalogState,
    pub over: bool,
    pub entry: Option<Entry>,
}

/// The entries that these tokens tell.
pub(crate) fn told(alloc: Global, tokens: Vec<Token>, end: End) -> Result<Vec<Entry>, CatalogError>
    ensures { AgreesList (told tokens.items end) result }
{
    let mut entries = Vec::new(alloc);
    let mut state = CatalogState::Due;
    let mut over = false;
    for token in tokens {
        let turn = step(alloc, state, over, token)?;
        add(&mut entries, turn.entry)?;
        state = turn.state;
        over = turn.over;
    }
    closed(entries, state, end)
}

fn add(entries: &mut Vec<Entry>, entry: Option<Entry>) -> Result<(), Memory>
    ensures { OnOk result (entries.new.items ≡ entries_with entries.old.items entry) }
{
    match entry {
        Some(entry) => entries.push(entry)?,
        None => {}
    }
    Ok(())
}

fn closed(entries: Vec<Entry>, state: CatalogState, end: End) -> Result<Vec<Entry>, CatalogError>
    ensures { AgreesList (closed entries.items state end) result }
{
    if end.is_whole && matches!(state, CatalogState::Due | CatalogState::Skipping) {
        Ok(entries)
    } else {
        Err(CatalogError::BadCatalog { at: end.at })
    }
}

fn step(alloc: Global, state: CatalogState, over: bool, token: Token) -> Result<Turn, CatalogError>
    ensures { Agrees (step state over token) result }
{
    match state {
        CatalogState::Due => after_due(over, token),
        CatalogState::Skipping => Ok(after_skipped(over, token)),
        CatalogState::First(keyword) => {
            if takes_two(keyword) {
                Ok(turn_to(CatalogState::Second(keyword, token.text), over, None))
            } else {
                one_argument(alloc, keyword, over, token)
            }
        }
        CatalogState::Second(keyword, name) => {
            let entry = entry_of(alloc, keyword, over, name, token.text)?;
            Ok(turn_to(CatalogState::Due, over, entry))
        }
    }
}

fn turn_to(state: CatalogState, over: bool, entry: Option<Entry>) -> Turn
    ensures { (result.state ≡ state) × (result.over ≡ over) × (result.entry ≡ entry) }
{
    Turn { state, over, entry }
}

fn begun(keyword: Option<Keyword>) -> CatalogState
    ensures { result ≡ begun keyword }
{
    match keyword {
        Some(keyword) => CatalogState::First(keyword),
        None => CatalogState::Skipping,
    }
}

fn after_due(over: bool, token: Token) -> Result<Turn, CatalogError>
    ensures { Agrees (step Due over token) result }
{
    if token.quoted {
        return Err(CatalogError::BadCatalog { at: token.at });
    }
    Ok(turn_to(begun(keyword_of(token.text.items())), over, None))
}

fn after_skipped(over: bool, token: Token) -> Turn
    ensures { step Skipping over token ≡ Ok result }
{
    if token.quoted {
        turn_to(CatalogState::Skipping, over, None)
    } else {
        turn_to(begun(keyword_of(token.text.items())), over, None)
    }
}

fn one_argument(
    alloc: Global,
    keyword: Keyword,
    over: bool,
    token: Token,
) -> Result<Turn, CatalogError>
    ensures { Agrees (one_argument keyword over token) result }
{
    match keyword {
        Keyword::Override => {
            if is_word(b"YES", token.text.items()) {
                Ok(turn_to(CatalogState::Due, true, None))
            } else if is_word(b"NO", token.text.items()) {
                Ok(turn_to(CatalogState::Due, false, None))
            } else {
                Err(CatalogError::BadCatalog { at: token.at })
            }
        }
        Keyword::Sgmldecl => {
            let entry = Entry {
                sort: Sort::Declaration,
                over,
                name: Text::of(Vec::new(alloc)),
                file: token.text,
            };
            Ok(turn_to(CatalogState::Due, over, Some(entry)))
        }
        _ => Ok(turn_to(CatalogState::Due, over, None)),
    }
}
