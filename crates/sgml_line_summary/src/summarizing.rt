// A file of lines, summarized.
ghost use Rattle.std.specs.Prelude.{◌≡◌, [], IfOk, IfSome};
ghost use Rattle.sgml_io.specs.Causes.{HasCause, Rose};
ghost use Rattle.sgml_io.specs.Files.{file_in};
ghost use Rattle.sgml_esis.specs.Grammar.{IsBad};
ghost use Rattle.sgml_line_summary.specs.Summary.{IsRead, IsAnswer, HasBadLine, IsAbsent};

use crate::answer::{Failure, Summarized, refused_in};
use crate::counts::summary;
use crate::places::size_of_records;
use sgml_esis::{LinesError, read_lines};
use sgml_io::{FetchError, Store, fetch, to_records};
use sgml_text::{Memory, Reason};
use std::alloc::Global;

/// Reads the file of this name as lines, if it has at most `limit` bytes, and counts them.
pub fn summarize<S: Store>(
    alloc: Global,
    store: &mut S,
    name: &[u8],
    limit: u64,
) -> Result<Summarized, Failure>
    // Over a store that tells its files.
    ensures answer { IfSome (S.files store.old) (λ files. IfOk result (IsAnswer (file_in files name.now) limit)) }
    // The causes of the answers, also where the store tells nothing.
    ensures store { HasCause Failure.Store (S.faults store.old) (S.faults store.new) result }
    ensures absent { IfOk result (λ answer. IsAbsent answer → Rose (S.absents store.old) (S.absents store.new)) }
    ensures files { S.files store.new ≡ S.files store.old }
{
    let found = match fetch(alloc, store, name, limit) {
        Ok(found) => found,
        Err(FetchError::TooLarge) => return Ok(refused_in(&[], 0, Reason::EntityTooLarge)),
        Err(FetchError::Fault) => return Err(Failure::Store),
        Err(FetchError::Memory) => return Err(Failure::Memory),
    };
    let Some(bytes) = found else {
        return Ok(refused_in(&[], 0, Reason::Absent));
    };
    match summarize_bytes(alloc, &bytes) {
        Ok(answer) => Ok(answer),
        Err(_) => Err(Failure::Memory),
    }
}

/// What is answered of these bytes.
fn summarize_bytes(alloc: Global, bytes: &[u8]) -> Result<Summarized, Memory>
    ensures read { IfOk result (IsRead bytes.now) }
    ensures there { IfOk result (λ answer. IsAbsent answer → ⊥) }
{
    match read_lines(alloc, bytes) {
        Ok(lines) => Ok(Summarized::Summary(summary(alloc, &lines)?)),
        Err(LinesError::BadLine { number }) => refused_line(alloc, bytes, number),
        Err(LinesError::Memory) => Err(Memory),
    }
}

/// The refusal of the line of this number, the first that is in no form.
fn refused_line(alloc: Global, bytes: &[u8], number: u64) -> Result<Summarized, Memory>
    requires { IsBad number bytes.now }
    ensures { IfOk result (HasBadLine bytes.now) }
{
    let text = to_records(alloc, bytes)?;
    let before = size_of_records(&text, number - 1);
    Ok(refused_in(&text, before as u64 + 1, Reason::BadLine))
}
