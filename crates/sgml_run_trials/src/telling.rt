// What is told of a run.
use crate::running::Ran;
use crate::spelled::put_lines;
use sgml_text::Memory;
use sgml_trials::{put, put_number};
use std::alloc::Global;

/// Tells the exit code, the lines of the output behind a TAB, and the log.
pub fn tell_whole(alloc: Global, ran: &Ran, out: &mut Vec<u8>) -> Result<(), Memory> {
    put_number(alloc, out, ran.status.code() as u64)?;
    put(out, "\n")?;
    put_lines(out, "\t", &ran.out.bytes)?;
    put_lines(out, "log\t", &ran.log.bytes)
}

/// Tells the exit code, whether the output is a front of that of another run, and the log.
pub fn tell_front(alloc: Global, ran: &Ran, whole: &Ran, out: &mut Vec<u8>) -> Result<(), Memory> {
    put_number(alloc, out, ran.status.code() as u64)?;
    if whole.out.bytes.starts_with(&ran.out.bytes) {
        put(out, " front\n")?;
    } else {
        put(out, " no front\n")?;
    }
    put_lines(out, "log\t", &ran.log.bytes)
}
