//! Reads JSON from standard input and writes it back without spaces: the least work of a program that
//! does both, and so the floor that `oxt` is timed against.
#![tactic(auto)]

ghost use Rattle.std.specs.Prelude.{IfSome};
ghost use Rattle.oxt_floor.specs.Rewritten.{Rewritten};

use oxt_io::{ReaderSource, Sink, Source, WriterSink, read_to_limit, write_all};
use serde_json::Value;
use std::alloc::Global;
use std::process::ExitCode;

// The most bytes that `oxt` reads.
const LIMIT: usize = 16_777_216;

fn main(rt: HostRuntime) -> ExitCode {
    let mut source = ReaderSource::new(rt.stdin());
    let mut out = WriterSink::new(rt.stdout());
    match rewrite(rt.alloc(), &mut source, &mut out) {
        Some(()) => ExitCode::SUCCESS,
        None => ExitCode::FAILURE,
    }
}

// Writes what `source` holds as one JSON value; nothing where that fails.
fn rewrite<S: Source, O: Sink>(alloc: Global, source: &mut S, out: &mut O) -> Option<()>
    ensures { IfSome result (λ _. Rewritten (S.left source.old) (S.left source.new)
        (O.taken out.old) (O.taken out.new)) }
{
    let bytes = read_to_limit(alloc, source, LIMIT).ok()?;
    let value = Value::from_slice(alloc, bytes.as_slice()).ok()?;
    let text = value.to_string(alloc).ok()?;
    write_all(out, text.as_bytes()).ok()
}
