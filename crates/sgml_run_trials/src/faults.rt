// Runs in which a call fails.
use crate::running::{Fault, Given, Part, Ran, run_once};
use crate::telling::tell_front;
use sgml_text::Memory;
use sgml_trials::put;
use std::alloc::Global;
use std::marker::Sync;
use std::thread::Threads;

// What is told of the run in which this call fails.
fn told_of<R: Threads + Sync>(
    rt: &R,
    alloc: Global,
    given: Given,
    whole: &Ran,
    fault: Fault,
) -> Result<Vec<u8>, Memory> {
    let mut told = Vec::new(alloc);
    let failed = run_once(rt, alloc, given, Some(fault))?;
    tell_front(alloc, &failed, whole, &mut told)?;
    Ok(told)
}

// Tells it where the call before it was told otherwise.
fn tell_next(out: &mut Vec<u8>, last: &[u8], told: &[u8]) -> Result<(), Memory> {
    if last != told {
        out.extend_from_slice(told)?;
    }
    Ok(())
}

/// Tells what is answered where a call of the part fails, for each of its calls in turn. What is told of several calls, each
/// behind the other, is told once.
pub fn tell_faults<R: Threads + Sync>(
    rt: &R,
    alloc: Global,
    given: Given,
    part: Part,
    out: &mut Vec<u8>,
) -> Result<(), Memory> {
    let whole = run_once(rt, alloc, given, None)?;
    let calls = whole.calls(part);
    if calls == 0 {
        return put(out, "no call\n");
    }
    let mut last = Vec::new(alloc);
    for before in 0..calls {
        let call = before.saturating_add(1);
        let told = told_of(rt, alloc, given, &whole, Fault { part, call })?;
        tell_next(out, &last, &told)?;
        last = told;
    }
    Ok(())
}
