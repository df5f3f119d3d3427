// The readers and writers of std as a source and a sink.
ghost use Rattle.std.specs.Prelude.{◌≡◌, ◌<◌, ◌≤◌, None, length, take, OnErr, OnOk, IfOk};
ghost use Rattle.std.specs.Io.{ReadsAtMost, WritesAtMost};
ghost use Rattle.std.specs.Io.KnownBytes.{Appends, ReadConsumes, WriteAppends};
ghost use Rattle.oxt_io.specs.Counts.{Rose, next_count};
ghost use Rattle.oxt_io.specs.Adapters.{reader_faults, reader_of, writer_faults, writer_of};

use super::outcome::Failed;
use super::reading::Source;
use super::writing::Sink;
use std::io::{Read, Write};

/// A reader of std as a source, which tells nothing of its bytes.
#[derive(Drop)]
pub struct ReaderSource<R> {
    reader: R,
    faults: u64,
}

impl<R: Read> ReaderSource<R> {
    /// A source that gives what `reader` does.
    pub fn new(reader: R) -> ReaderSource<R>
        ensures reader { reader_of result ≡ reader }
        ensures faults { reader_faults result ≡ 0 }
    {
        ReaderSource { reader, faults: 0 }
    }
}

impl<R: Read> Source for ReaderSource<R> {
    ghost left = { λ _. None };

    ghost faults = { λ s. reader_faults s };

    // A read that a signal interrupted is a fault as any other.
    fn read_some(&mut self, buf: &mut [u8]) -> Result<usize, Failed>
        ensures bound { ReadsAtMost result buf.new }
        ensures bytes { ReadConsumes None None result buf.new }
        ensures later { reader_faults self.old ≤ reader_faults self.new }
        ensures cause { OnErr result (Rose (reader_faults self.old) (reader_faults self.new)) }
        ensures passes { ReadConsumes (R.remaining (reader_of self.old))
            (R.remaining (reader_of self.new)) result buf.new }
        ensures steady { OnOk result (reader_faults self.new ≡ reader_faults self.old) }
        ensures raised { OnErr result
            (reader_faults self.new ≡ next_count (reader_faults self.old)) }
    {
        match self.reader.read(buf) {
            Ok(n) => Ok(n),
            Err(_) => {
                self.faults = self.faults.saturating_add(1);
                Err(Failed)
            }
        }
    }
}

/// A writer of std as a sink, which tells nothing of what it took. Each write is flushed.
#[derive(Drop)]
pub struct WriterSink<W> {
    writer: W,
    faults: u64,
}

impl<W: Write> WriterSink<W> {
    /// A sink that writes to `writer`.
    pub fn new(writer: W) -> WriterSink<W>
        ensures writer { writer_of result ≡ writer }
        ensures faults { writer_faults result ≡ 0 }
    {
        WriterSink { writer, faults: 0 }
    }

    // One write and one flush. Nothing taken of a piece that has bytes is a failure.
    fn pass(&mut self, piece: &[u8]) -> Result<usize, Failed>
        ensures bound { WritesAtMost result piece.now }
        ensures some { IfOk result (λ n. 0 < length piece.now → 0 < n) }
        ensures passes { IfOk result (λ n. Appends (W.contents (writer_of self.old))
            (W.contents (writer_of self.new)) (take n piece.now)) }
        ensures faults { writer_faults self.new ≡ writer_faults self.old }
    {
        let Ok(n) = self.writer.write(piece) else {
            return Err(Failed);
        };
        if n == 0 && !piece.is_empty() {
            return Err(Failed);
        }
        match self.writer.flush() {
            Ok(()) => Ok(n),
            Err(_) => Err(Failed),
        }
    }
}

impl<W: Write> Sink for WriterSink<W> {
    ghost taken = { λ _. None };

    ghost faults = { λ s. writer_faults s };

    fn write_some(&mut self, piece: &[u8]) -> Result<usize, Failed>
        ensures bound { WritesAtMost result piece.now }
        ensures some { IfOk result (λ n. 0 < length piece.now → 0 < n) }
        ensures bytes { WriteAppends None None result piece.now }
        ensures later { writer_faults self.old ≤ writer_faults self.new }
        ensures cause { OnErr result (Rose (writer_faults self.old) (writer_faults self.new)) }
        ensures passes { IfOk result (λ n. Appends (W.contents (writer_of self.old))
            (W.contents (writer_of self.new)) (take n piece.now)) }
        ensures steady { OnOk result (writer_faults self.new ≡ writer_faults self.old) }
        ensures raised { OnErr result
            (writer_faults self.new ≡ next_count (writer_faults self.old)) }
    {
        let passed = self.pass(piece);
        if passed.is_err() {
            self.faults = self.faults.saturating_add(1);
        }
        passed
    }
}
