//! A stack most of whose entries are empty.
ghost use Rattle.std.specs.Prelude.{◌≡◌, ◌-◌, [], ◌∷◌, ◌++◌, IfErr, IsSome, OnErr, OnOk, is_some, length, take};
ghost use Rattle.std.specs.Borrow.{sem};
ghost use Rattle.oxt_stores.specs.Entries.{LendsValue};
ghost use Rattle.oxt_stores.specs.Top.{top};

use crate::refused::Refused;
use std::alloc::Global;
use std::marker::Model;

/// A stack of entries each of which may be empty.
#[derive(Drop)]
pub struct SparseStack<T> {
    entries: Vec<Option<T>>,
}

impl<T> Model for SparseStack<T> {
    ghost use Rattle.std.specs.Prelude.{List, Option};

    ghost Value = { List (Option T) };

    ghost view = { λ stack. stack.entries.items };
}

impl<T> SparseStack<T> {
    ghost use Rattle.std.specs.Option.{option_copied_mut};
    ghost use Rattle.oxt_stores.specs.Lending.{LendsPresentTop, LendsTop};

    /// A stack without entries.
    pub fn new(alloc: Global) -> SparseStack<T>
        ensures { result ≡ [] }
    {
        SparseStack {
            entries: Vec::new(alloc),
        }
    }

    /// Puts an entry on top. Refused for want of memory: the stack is then as before.
    pub fn push(&mut self, entry: Option<T>) -> Result<(), Refused<Option<T>>>
        ensures pushed { OnOk result (self.new ≡ self.old ++ entry ∷ []) }
        ensures kept { OnErr result (self.new ≡ self.old) }
        ensures back { IfErr result (λ refused. refused.back ≡ entry) }
    {
        match self.entries.push(entry) {
            Ok(()) => Ok(()),
            Err(failed) => Err(Refused { back: failed.value }),
        }
    }

    /// Takes the top entry away, where there is one.
    #[tactic(auto, using(crate::proofs::Stacks::top_popped))]
    pub fn pop(&mut self) -> Option<T>
        ensures taken { result ≡ top self.old }
        ensures left { self.new ≡ take (length self.old - 1) self.old }
    {
        match self.entries.pop() {
            Some(entry) => entry,
            None => None,
        }
    }

    /// The value on top, to be changed in its place, where the top entry is not empty.
    pub fn last_mut(&mut self) -> Option<&mut T>
        ensures* writes_back { sem 𝓛 (LendsTop T.row self.entry result) }
        ensures value { option_copied_mut result ≡ top self.old }
    {
        if self.has_value_on_top() {
            Some(self.top_mut())
        } else {
            None
        }
    }

    /// Whether there is a top entry that is not empty.
    #[tactic(auto, using(crate::proofs::Stacks::top_at, crate::proofs::Stacks::top_none))]
    fn has_value_on_top(&self) -> bool
        ensures { result ≡ is_some (top self.now) }
    {
        match self.entries.last() {
            Some(entry) => entry.is_some(),
            None => false,
        }
    }

    /// The value on top.
    #[tactic(auto, using(crate::proofs::Stacks::top_at))]
    fn top_mut(&mut self) -> &mut T
        requires { IsSome (top self.old) }
        ensures* writes_back { sem 𝓛 (LendsPresentTop T.row self.entry result) }
        ensures value { top self.old ≡ Some result.now }
    {
        let last = self.entries.len() - 1;
        value_mut(&mut self.entries[last])
    }

    /// How many entries there are, the empty ones among them.
    pub fn len(&self) -> usize
        ensures { result ≡ length self.now }
    {
        self.entries.len()
    }
}

/// The value of an entry that is not empty.
fn value_mut<T>(entry: &mut Option<T>) -> &mut T
    requires { IsSome entry.old }
    ensures* writes_back { sem 𝓛 (LendsValue T.row entry.entry result) }
    ensures value { entry.old ≡ Some result.now }
{
    match entry {
        Some(value) => value,
        None => unreachable!(),
    }
}
