// A source and a sink over memory that handle a few bytes at a time and fail at chosen calls.
ghost use Rattle.std.specs.Prelude.{◌≡◌, ◌-◌, ◌<◌, ◌≤◌, ◌↔◌, ◌⊎◌, [], Some, length, min, IsErr, OnErr, OnOk, IfOk, vec_capacity};
ghost use Rattle.std.specs.Io.{ReadsAtMost, WritesAtMost};
ghost use Rattle.std.specs.Io.KnownBytes.{ReadConsumes, WriteAppends};
ghost use Rattle.oxt_io.specs.Counts.{Rose};

use super::outcome::Failed;
use super::plan::Plan;
use super::reading::Source;
use super::sure::SureSource;
use super::writing::Sink;
use oxt_names::ids::OutOfMemory;
use std::alloc::Global;

/// A source over bytes in memory that tells them.
#[derive(Drop)]
pub struct MemorySource {
    bytes: SureSource,
    plan: Plan,
}

impl MemorySource {
    ghost use Rattle.oxt_io.specs.Memory.{source_left, source_plan};
    ghost use Rattle.oxt_io.specs.Plans.{IsFresh};

    /// A source that will give a copy of `bytes`, at most `step` of them a call.
    ///
    /// It fails at just the calls whose numbers are in `failing`; the first call has number 1, and
    /// numbers stop at the last `u64`.
    ///
    /// # Errors
    ///
    /// `OutOfMemory` where there is no memory for the copies.
    pub fn new(
        alloc: Global,
        bytes: &[u8],
        step: usize,
        failing: &[u64],
    ) -> Result<MemorySource, OutOfMemory>
        requires { 0 < step }
        ensures bytes { IfOk result (λ s. source_left s ≡ bytes.now) }
        ensures plan { IfOk result (λ s. IsFresh (source_plan s) step failing.now) }
    {
        Ok(MemorySource {
            bytes: SureSource::new(alloc, bytes)?,
            plan: Plan::new(alloc, step, failing)?,
        })
    }
}

impl Source for MemorySource {
    ghost use Rattle.oxt_io.specs.Memory.{source_left, source_plan};
    ghost use Rattle.oxt_io.specs.Plans.{Called, IsDue};

    ghost left = { λ s. Some (source_left s) };

    ghost faults = { λ s. (source_plan s).faults };

    fn read_some(&mut self, buf: &mut [u8]) -> Result<usize, Failed>
        ensures bound { ReadsAtMost result buf.new }
        ensures bytes { ReadConsumes (Some (source_left self.old))
            (Some (source_left self.new)) result buf.new }
        ensures later { (source_plan self.old).faults ≤ (source_plan self.new).faults }
        ensures cause { OnErr result
            (Rose (source_plan self.old).faults (source_plan self.new).faults) }
        ensures due { IsErr result ↔ IsDue (source_plan self.old) }
        ensures count { IfOk result (λ n. n ≡ min (source_plan self.old).step
            (min (length (source_left self.old)) (length buf.old))) }
        ensures called { Called (source_plan self.old) (source_plan self.new) }
        ensures steady { OnOk result
            ((source_plan self.new).faults ≡ (source_plan self.old).faults) }
    {
        self.plan.begin_call()?;
        let most = buf.len().min(self.plan.step());
        Ok(self.bytes.give(&mut buf[..most]))
    }
}

/// A sink into memory that tells what it took.
#[derive(Drop)]
pub struct MemorySink {
    bytes: Vec<u8>,
    room: usize,
    plan: Plan,
    ghost within: { length bytes.items ≤ room },
    ghost ready: { room ≤ vec_capacity bytes },
}

impl MemorySink {
    ghost use Rattle.oxt_io.specs.Memory.{sink_plan, sink_room, sink_taken};
    ghost use Rattle.oxt_io.specs.Plans.{IsFresh};

    /// A sink that takes at most `room` bytes in all, and at most `step` of them a call.
    ///
    /// It fails at just the calls whose numbers are in `failing`, where the first call has number 1
    /// and numbers stop at the last `u64`, and where bytes come and no room is left.
    ///
    /// # Errors
    ///
    /// `OutOfMemory` where there is no memory for `room` bytes and the copy of `failing`.
    pub fn new(
        alloc: Global,
        room: usize,
        step: usize,
        failing: &[u64],
    ) -> Result<MemorySink, OutOfMemory>
        requires { 0 < step }
        ensures empty { IfOk result (λ s. sink_taken s ≡ []) }
        ensures room { IfOk result (λ s. sink_room s ≡ room) }
        ensures plan { IfOk result (λ s. IsFresh (sink_plan s) step failing.now) }
    {
        Ok(MemorySink {
            bytes: Vec::with_capacity(alloc, room)?,
            room,
            plan: Plan::new(alloc, step, failing)?,
        })
    }

    /// The bytes that it took so far.
    pub fn bytes(&self) -> &[u8]
        ensures { result.now ≡ sink_taken self.now }
    {
        self.bytes.as_slice()
    }
}

impl Sink for MemorySink {
    ghost use Rattle.oxt_io.specs.Plans.{Called, IsDue};
    ghost use Rattle.oxt_io.specs.Memory.{IsFull, sink_plan, sink_room, sink_taken};

    ghost taken = { λ s. Some (sink_taken s) };

    ghost faults = { λ s. (sink_plan s).faults };

    fn write_some(&mut self, piece: &[u8]) -> Result<usize, Failed>
        ensures bound { WritesAtMost result piece.now }
        ensures some { IfOk result (λ n. 0 < length piece.now → 0 < n) }
        ensures bytes { WriteAppends (Some (sink_taken self.old)) (Some (sink_taken self.new))
            result piece.now }
        ensures later { (sink_plan self.old).faults ≤ (sink_plan self.new).faults }
        ensures cause { OnErr result
            (Rose (sink_plan self.old).faults (sink_plan self.new).faults) }
        ensures due { IsDue (sink_plan self.old) → IsErr result }
        ensures full { IsFull self.old piece.now → IsErr result }
        ensures only { OnErr result (IsDue (sink_plan self.old) ⊎ IsFull self.old piece.now) }
        ensures count { IfOk result (λ n. n ≡ min (sink_plan self.old).step
            (min (sink_room self.old - length (sink_taken self.old)) (length piece.now))) }
        ensures room { sink_room self.new ≡ sink_room self.old }
        ensures called { Called (sink_plan self.old) (sink_plan self.new) }
        ensures steady { OnOk result ((sink_plan self.new).faults ≡ (sink_plan self.old).faults) }
    {
        self.plan.begin_call()?;
        let free = self.room - self.bytes.len();
        if free == 0 && !piece.is_empty() {
            return Err(self.plan.fail());
        }
        let n = piece.len().min(free).min(self.plan.step());
        self.bytes.extend_from_slice(&piece[..n]).unwrap();
        Ok(n)
    }
}
