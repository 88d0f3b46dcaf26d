// Files that can't be read.
ghost use Rattle.std.specs.Prelude.{◌≡◌, take};
ghost use Rattle.sgml_text.specs.Places.{line_column_of};
ghost use Rattle.sgml_settings.specs.BadFiles.{IsBadFile};

use sgml_source::Position;
use sgml_text::{Place, Reason, Refusal, Text, line_column};
use std::alloc::Global;

/// The number in a place that the catalog's file has.
pub const CATALOG: u32 = 4_294_967_295;

/// The number in a place that the file of the catalog's SGML declaration has.
pub const DECLARATION: u32 = 4_294_967_294;

/// A file that is to be read before the document, and can't be: the place and why, and where that is.
#[derive(Debug, Drop)]
pub struct BadFile {
    pub refusal: Refusal,
    pub position: Position,
}

/// Why a run isn't set.
#[derive(Debug, Drop)]
pub enum SettingsError {
    /// This file can't be read.
    Refused(BadFile),
    /// The store failed.
    Store,
    /// There was no memory.
    Memory,
}

/// The file of this number and name can't be read on from this offset of its text.
pub(crate) fn bad_file(
    alloc: Global,
    number: u32,
    name: &Text,
    text: &[u8],
    at: u64,
    reason: Reason,
) -> SettingsError
    ensures { IsBadFile number name.now text.now at reason result }
{
    let Ok(name) = name.copy(alloc) else {
        return SettingsError::Memory;
    };
    let (line, column) = line_column_in(text, at);
    SettingsError::Refused(BadFile {
        refusal: Refusal {
            place: Place { entity: number, at },
            reason,
        },
        position: Position { name, line, column },
    })
}

/// The line and the column of an offset; past the end, those of the end.
fn line_column_in(text: &[u8], at: u64) -> (u64, u64)
    ensures { result ≡ line_column_of (take at text.now) }
{
    line_column(text, at.min(text.len() as u64))
}
