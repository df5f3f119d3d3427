// A source and a sink that never fail.
ghost use Rattle.std.specs.Prelude.{◌≡◌, ◌<◌, ◌≤◌, Some, None, length, min, take, drop, Ok, IfOk};
ghost use Rattle.std.specs.Io.{ReadsAtMost, WritesAtMost};
ghost use Rattle.std.specs.Io.KnownBytes.{ReadConsumes, WriteAppends};

use super::outcome::Failed;
use super::reading::Source;
use super::writing::Sink;
use oxt_names::ids::OutOfMemory;
use std::alloc::Global;

/// A source over bytes in memory that tells them and never fails.
#[derive(Drop)]
pub struct SureSource {
    bytes: Vec<u8>,
    next: usize,
    ghost within: { next ≤ length bytes.items },
}

impl SureSource {
    ghost use Rattle.oxt_io.specs.SureBytes.{bytes_left};

    /// A source that will give a copy of `bytes`.
    ///
    /// # Errors
    ///
    /// `OutOfMemory` where there is no memory for the copy.
    pub fn new(alloc: Global, bytes: &[u8]) -> Result<SureSource, OutOfMemory>
        ensures { IfOk result (λ s. bytes_left s ≡ bytes.now) }
    {
        Ok(SureSource {
            bytes: Vec::from_slice(alloc, bytes)?,
            next: 0,
        })
    }

    // Moves as many bytes to the front of `buf` as it has room for, and answers how many.
    pub(super) fn give(&mut self, buf: &mut [u8]) -> usize
        ensures count { result ≡ min (length (bytes_left self.old)) (length buf.old) }
        ensures given { take result buf.new ≡ take result (bytes_left self.old) }
        ensures rest { bytes_left self.new ≡ drop result (bytes_left self.old) }
    {
        let n = buf.len().min(self.bytes.len() - self.next);
        buf[..n].copy_from_slice(&self.bytes[self.next..self.next + n]);
        self.next += n;
        n
    }
}

impl Source for SureSource {
    ghost use Rattle.oxt_io.specs.SureBytes.{bytes_left};

    ghost left = { λ s. Some (bytes_left s) };

    ghost faults = { λ _. 0 };

    fn read_some(&mut self, buf: &mut [u8]) -> Result<usize, Failed>
        ensures bound { ReadsAtMost result buf.new }
        ensures bytes { ReadConsumes (Some (bytes_left self.old)) (Some (bytes_left self.new))
            result buf.new }
        ensures count { result ≡ Ok (min (length (bytes_left self.old)) (length buf.old)) }
    {
        Ok(self.give(buf))
    }
}

/// A sink that drops what it takes, tells nothing of it and never fails.
#[derive(Clone, Copy)]
pub struct SureSink;

impl SureSink {
    /// A sink that takes any bytes.
    pub fn new() -> SureSink {
        SureSink
    }
}

impl Sink for SureSink {
    ghost taken = { λ _. None };

    ghost faults = { λ _. 0 };

    fn write_some(&mut self, piece: &[u8]) -> Result<usize, Failed>
        ensures bound { WritesAtMost result piece.now }
        ensures some { IfOk result (λ n. 0 < length piece.now → 0 < n) }
        ensures bytes { WriteAppends None None result piece.now }
        ensures count { result ≡ Ok (length piece.now) }
    {
        Ok(piece.len())
    }
}
