//! Sources and sinks that give and take a few bytes at a time, fail at chosen calls, and end.
ghost use Rattle.std.specs.Prelude.{◌<◌};

use oxt_io::{
    Failed, InputFault, MemorySink, MemorySource, OutOfMemory, ReaderSource, Sink, Source,
    SureSink, SureSource, WriterSink, read_to_limit, write_all,
};
use oxt_lines::lines::Lines;
use oxt_lines::stopped::{Stopped, all_well};
use std::alloc::{AllocError, Global};

/// A text of forty bytes.
const FORTY: &[u8] = b"The quick brown fox jumps over a hedgeho";

/// What is read and written.
pub fn print_io(alloc: Global, lines: &mut Lines) -> Result<(), Stopped> {
    for limit in [4, 5, 9] {
        sure_to(alloc, limit, lines)?;
    }
    all_well(&[
        in_small_steps(alloc, lines),
        failing_source(alloc, lines),
        failing_sink(alloc, lines),
        with_room(alloc, lines),
        without_room(alloc, lines),
        of_std(alloc, lines),
    ])?;
    no_memory(lines);
    Ok(())
}

/// How a fault is named.
fn fault_name(fault: InputFault) -> &'static str {
    match fault {
        InputFault::Memory => "no memory",
        InputFault::Fault => "fault",
        InputFault::TooLong => "too long",
    }
}

/// A line with the bytes that are read, or why they are not.
fn print_read<S: Source>(
    alloc: Global,
    source: &mut S,
    limit: usize,
    label: &str,
    lines: &mut Lines,
) -> Result<(), Stopped> {
    match read_to_limit(alloc, source, limit) {
        Ok(bytes) => print_bytes(alloc, bytes.as_slice(), label, lines),
        Err(fault) => {
            lines.text(label, fault_name(fault));
            Ok(())
        }
    }
}

/// A line with the bytes as a text in brackets.
fn print_bytes(alloc: Global, bytes: &[u8], label: &str, lines: &mut Lines) -> Result<(), Stopped> {
    let text = String::from_utf8_lossy(alloc, bytes)?;
    lines.bracketed(label, text.as_str());
    Ok(())
}

/// What a write answers.
fn written(outcome: Result<(), Failed>) -> &'static str {
    match outcome {
        Ok(()) => "written",
        Err(Failed) => "failed",
    }
}

fn sure_to(alloc: Global, limit: usize, lines: &mut Lines) -> Result<(), Stopped> {
    let mut source = SureSource::new(alloc, b"hello")?;
    lines.numbers("hello, read to the limit", &[limit as u64]);
    print_read(alloc, &mut source, limit, "read", lines)
}

fn in_small_steps(alloc: Global, lines: &mut Lines) -> Result<(), Stopped> {
    let mut source = MemorySource::new(alloc, FORTY, 16, &[])?;
    print_read(
        alloc,
        &mut source,
        40,
        "forty bytes by 16 a call to the limit 40",
        lines,
    )
}

fn failing_source(alloc: Global, lines: &mut Lines) -> Result<(), Stopped> {
    let mut source = MemorySource::new(alloc, FORTY, 16, &[2])?;
    print_read(
        alloc,
        &mut source,
        100,
        "by 16 a call, failing at the second",
        lines,
    )?;
    print_read(alloc, &mut source, 100, "read again", lines)
}

fn failing_sink(alloc: Global, lines: &mut Lines) -> Result<(), Stopped> {
    let mut sink = MemorySink::new(alloc, 100, 16, &[2])?;
    let rest = FORTY.split_at(16).1;
    lines.text(
        "written by 16 a call, failing at the second",
        written(write_all(&mut sink, FORTY)),
    );
    print_bytes(alloc, sink.bytes(), "taken", lines)?;
    lines.text("the rest", written(write_all(&mut sink, rest)));
    print_bytes(alloc, sink.bytes(), "taken", lines)
}

fn with_room(alloc: Global, lines: &mut Lines) -> Result<(), Stopped> {
    let mut sink = MemorySink::new(alloc, 5, 16, &[])?;
    lines.text(
        "ten bytes into room for five",
        written(write_all(&mut sink, b"hello, you")),
    );
    print_bytes(alloc, sink.bytes(), "taken", lines)
}

fn without_room(alloc: Global, lines: &mut Lines) -> Result<(), Stopped> {
    let mut sink = MemorySink::new(alloc, 0, 16, &[])?;
    lines.text("no byte into no room", written(write_all(&mut sink, b"")));
    lines.text("a byte into no room", written(write_all(&mut sink, b"a")));
    lines.text(
        "ten bytes into a sure sink",
        written(write_all(&mut SureSink::new(), b"hello, you")),
    );
    Ok(())
}

fn of_std(alloc: Global, lines: &mut Lines) -> Result<(), Stopped> {
    let mut source = ReaderSource::new(b"hello".as_slice());
    all_well(&[
        print_read(alloc, &mut source, 5, "from a reader", lines),
        into_list(alloc, lines),
        into_three(alloc, lines),
    ])
}

fn into_list(alloc: Global, lines: &mut Lines) -> Result<(), Stopped> {
    let mut bytes = Vec::new(alloc);
    lines.text(
        "into a list",
        written(write_all(&mut WriterSink::new(&mut bytes), b"hello")),
    );
    print_bytes(alloc, bytes.as_slice(), "taken", lines)
}

fn into_three(alloc: Global, lines: &mut Lines) -> Result<(), Stopped> {
    let mut three = [0u8; 3];
    let outcome = write_all(&mut WriterSink::new(three.as_mut_slice()), b"hello");
    lines.text("into three bytes", written(outcome));
    print_bytes(alloc, three.as_slice(), "taken", lines)
}

fn no_memory(lines: &mut Lines) {
    let _ = OutOfMemory::from(AllocError);
    lines.text(
        "want of memory, read",
        fault_name(InputFault::from(AllocError)),
    );
}
