// When and how much a source or a sink over memory handles.
ghost use Rattle.std.specs.Prelude.{◌≡◌, ◌<◌, ◌≤◌, ◌↔◌, IsErr, OnErr, OnOk, IfOk};
ghost use Rattle.oxt_io.specs.Counts.{next_count};

use super::outcome::Failed;
use oxt_names::ids::OutOfMemory;
use std::alloc::Global;

#[derive(Drop)]
pub struct Plan {
    step: usize,
    failing: Vec<u64>,
    calls: u64,
    faults: u64,
    ghost moves: { 0 < step },
}

impl Plan {
    ghost use Rattle.oxt_io.specs.Plans.{Called, IsDue, IsFresh};

    pub fn new(alloc: Global, step: usize, failing: &[u64]) -> Result<Plan, OutOfMemory>
        requires { 0 < step }
        ensures { IfOk result (λ p. IsFresh p step failing.now) }
    {
        Ok(Plan {
            step,
            failing: Vec::from_slice(alloc, failing)?,
            calls: 0,
            faults: 0,
        })
    }

    // The most bytes that one call handles.
    pub fn step(&self) -> usize
        ensures value { result ≡ self.now.step }
        ensures some { 0 < result }
    {
        self.step
    }

    // Counts a call, and fails where it is one that is to fail.
    pub fn begin_call(&mut self) -> Result<(), Failed>
        ensures due { IsErr result ↔ IsDue self.old }
        ensures called { Called self.old self.new }
        ensures later { self.old.faults ≤ self.new.faults }
        ensures steady { OnOk result (self.new.faults ≡ self.old.faults) }
        ensures raised { OnErr result (self.new.faults ≡ next_count self.old.faults) }
    {
        self.calls = self.calls.saturating_add(1);
        if self.failing.contains(&self.calls) {
            return Err(self.fail());
        }
        Ok(())
    }

    // Counts a fault.
    pub fn fail(&mut self) -> Failed
        ensures raised { self.new ≡ record self.old { faults = next_count self.old.faults } }
        ensures later { self.old.faults ≤ self.new.faults }
    {
        self.faults = self.faults.saturating_add(1);
        Failed
    }
}
