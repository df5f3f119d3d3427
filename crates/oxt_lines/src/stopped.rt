//! Why the calls are not all made.

use oxt_names::ids::OutOfMemory;
use oxt_stores::refused::Refused;
use std::alloc::{AllocError, AllocFailed};
use std::error::Error;
use std::fmt;

/// Why the calls are not all made.
#[derive(Clone, Copy, Debug, PartialEq, Eq)]
pub enum Stopped {
    /// Memory ran out.
    Memory,
    /// The trees are not read.
    NoInput,
    /// A text that should be a tree is none.
    NoTree,
    /// A walk gave up where it should not, or did not where it should.
    Walk,
}

impl fmt::Display for Stopped {
    fn fmt<W: fmt::Write>(&self, f: &mut fmt::Formatter<W>) -> fmt::Result {
        match self {
            Stopped::Memory => write!(f, "out of memory"),
            Stopped::NoInput => write!(f, "standard input is not read"),
            Stopped::NoTree => write!(f, "a text is no tree"),
            Stopped::Walk => write!(f, "a walk ended otherwise"),
        }
    }
}

impl Error for Stopped {}

impl From<OutOfMemory> for Stopped {
    fn from(_error: OutOfMemory) -> Stopped {
        Stopped::Memory
    }
}

impl From<AllocError> for Stopped {
    fn from(_error: AllocError) -> Stopped {
        Stopped::Memory
    }
}

impl<T: Drop> From<AllocFailed<T>> for Stopped {
    fn from(_error: AllocFailed<T>) -> Stopped {
        Stopped::Memory
    }
}

impl<T: Drop> From<Refused<T>> for Stopped {
    fn from(_error: Refused<T>) -> Stopped {
        Stopped::Memory
    }
}

/// The first that failed of what was done one after the other, where nothing that comes later needs what comes before.
pub fn all_well(outcomes: &[Result<(), Stopped>]) -> Result<(), Stopped> {
    for outcome in outcomes {
        (*outcome)?;
    }
    Ok(())
}
