//! Running a case and comparing what came with what is wanted.
ghost use Rattle.std.specs.Prelude.{◌≡◌, ◌<◌, IfOk, IsNone};

use crate::case::{Case, Wanted};
use oxt_transform::{MemorySink, MemorySource, run};
use std::alloc::{AllocError, Global};

// Room for all that a case writes.
const ROOM: usize = 1 << 20;

/// Runs a case. Answers nothing where all came as wanted, and else what differs.
///
/// # Errors
///
/// Fails only where there is no memory for the source and the sinks or for the answer.
pub fn check(alloc: Global, case: &Case) -> Result<Option<String>, AllocError> {
    let mut source = source_of(alloc, case)?;
    let mut out = sink(alloc, case.step, case.failing.out.as_slice())?;
    let mut err = sink(alloc, case.step, case.failing.err.as_slice())?;
    let flags = case.flags.as_slice();
    let outcome = run(alloc, flags, &mut source, &mut out, &mut err);
    let status = u64::from(outcome.status());
    difference(alloc, &case.wanted, status, out.bytes(), err.bytes())
}

fn source_of(alloc: Global, case: &Case) -> Result<MemorySource, AllocError> {
    let failing = case.failing.source.as_slice();
    MemorySource::new(alloc, case.input.as_slice(), case.step, failing).map_err(|_| AllocError)
}

// A sink with room for all that a case writes.
fn sink(alloc: Global, step: usize, failing: &[u64]) -> Result<MemorySink, AllocError>
    requires { 0 < step }
{
    MemorySink::new(alloc, ROOM, step, failing).map_err(|_| AllocError)
}

// The first of the status and the two texts that is not as wanted; nothing where all are.
fn difference(
    alloc: Global,
    wanted: &Wanted,
    status: u64,
    out: &[u8],
    err: &[u8],
) -> Result<Option<String>, AllocError>
    ensures status { IfOk result (λ d. IsNone d → status ≡ wanted.now.status) }
    ensures out { IfOk result (λ d. IsNone d → out.now ≡ wanted.now.out.items) }
    ensures err { IfOk result (λ d. IsNone d → err.now ≡ wanted.now.err.items) }
{
    if status != wanted.status {
        let wanted = wanted.status;
        return Ok(Some(format!(in alloc; "status {status} in place of {wanted}")?));
    }
    if out != wanted.out.as_slice() {
        return Ok(Some(misfit(alloc, "out", out, wanted.out.as_slice())?));
    }
    if err != wanted.err.as_slice() {
        return Ok(Some(misfit(alloc, "err", err, wanted.err.as_slice())?));
    }
    Ok(None)
}

// Says that a sink took other bytes.
fn misfit(alloc: Global, sink: &str, took: &[u8], wanted: &[u8]) -> Result<String, AllocError> {
    let took = String::from_utf8_lossy(alloc, took)?;
    let wanted = String::from_utf8_lossy(alloc, wanted)?;
    format!(in alloc; "{sink} took {took:?} in place of {wanted:?}")
}
