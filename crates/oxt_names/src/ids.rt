//! The numbers of nodes, symbols, scopes and references, places of nodes, and the error for want of memory.
ghost use Rattle.std.specs.Prelude.{◌≡◌, ◌+◌, ◌-◌, ◌^◌, IfOk, OnErr, IsErr, ◌↔◌};

use std::alloc::{AllocError, AllocFailed};

/// Memory ran out, or a counter of 64 bits stands at its end.
#[derive(Clone, Copy, Debug, PartialEq, Eq)]
pub struct OutOfMemory;

impl From<AllocError> for OutOfMemory {
    fn from(_error: AllocError) -> OutOfMemory {
        OutOfMemory
    }
}

impl<T: Drop> From<AllocFailed<T>> for OutOfMemory {
    fn from(_error: AllocFailed<T>) -> OutOfMemory {
        OutOfMemory
    }
}

/// The number of a node.
#[derive(Clone, Copy, Debug, PartialEq, Eq)]
pub struct NodeId(pub u64);

/// Where numbers of nodes come from.
#[derive(Clone, Copy, Debug, PartialEq, Eq)]
pub struct NodeIds {
    /// The next number.
    pub next: u64,
}

impl NodeIds {
    /// The next number, which is then used up. Refused exactly where the counter is at its end.
    pub fn fresh(&mut self) -> Result<NodeId, OutOfMemory>
        ensures number { IfOk result (λ id. id.0 ≡ self.old.next) }
        ensures used { IfOk result (λ _. self.new.next ≡ self.old.next + 1) }
        ensures refused { IsErr result ↔ (self.old.next ≡ 2 ^ 64 - 1) }
        ensures kept { OnErr result (self.new ≡ self.old) }
    {
        let number = self.next;
        if number == u64::MAX {
            return Err(OutOfMemory);
        }
        self.next = number + 1;
        Ok(NodeId(number))
    }
}

/// Where a node stands in the source text: the offsets of its first byte and of the byte after it.
#[derive(Clone, Copy, Debug, PartialEq, Eq)]
pub struct Span {
    pub start: u32,
    pub end: u32,
}

impl Span {
    /// The span of a node that no source text has.
    pub const NONE: Span = Span { start: 0, end: 0 };
}

/// The number of a symbol.
#[derive(Clone, Copy, PartialEq, Eq)]
pub struct SymbolId(pub u64);

/// The number of a scope.
#[derive(Clone, Copy, PartialEq, Eq)]
pub struct ScopeId(pub u64);

/// The number of a reference.
#[derive(Clone, Copy, PartialEq, Eq)]
pub struct ReferenceId(pub u64);
