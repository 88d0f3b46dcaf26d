// The lines of the log.
ghost use Rattle.std.specs.Prelude.{◌≡◌, IfOk, string_bytes};
ghost use Rattle.sgml_cli.specs.Logging.{log_line, Finished, place_and_code};

use crate::status::Status;
use sgml_io::{Sink, write_whole};
use sgml_text::{Memory, Reason};
use std::alloc::{AllocError, Global};

/// The line of a fault of the store.
pub(crate) const STORE: &[u8] = b"sgmlesis: store\n";

/// The line of a fault of the output.
pub(crate) const SINK: &[u8] = b"sgmlesis: sink\n";

/// The line of want of memory.
pub(crate) const MEMORY: &[u8] = b"sgmlesis: memory\n";

/// The line of a refusal, for the name of a text and a place in it.
pub(crate) fn log_line(
    alloc: Global,
    name: &[u8],
    line: u64,
    column: u64,
    reason: Reason,
) -> Result<Vec<u8>, Memory>
    ensures { IfOk result (λ bytes. bytes.items ≡ log_line name.now (line, column) reason) }
{
    let rest = place_and_code(alloc, line, column, reason)?;
    let mut bytes = Vec::with_capacity(alloc, name.len().saturating_add(rest.len()))?;
    bytes.extend_from_slice(name)?;
    bytes.extend_from_slice(rest.as_bytes())?;
    Ok(bytes)
}

fn place_and_code(
    alloc: Global,
    line: u64,
    column: u64,
    reason: Reason,
) -> Result<String, AllocError>
    ensures { IfOk result (λ text. string_bytes text ≡ place_and_code line column reason) }
{
    let code = reason.code();
    format!(in alloc; ":{line}:{column}:{code}\n")
}

/// Writes the line of the log. Where that fails, so does the sink.
pub(crate) fn finish<E: Sink>(log: &mut E, status: Status, line: &[u8]) -> Status
    ensures { Finished (E.taken log.old) (E.taken log.new) (E.faults log.old) (E.faults log.new) status line.now result }
{
    match write_whole(log, line) {
        Ok(()) => status,
        Err(_) => Status::Sink,
    }
}
