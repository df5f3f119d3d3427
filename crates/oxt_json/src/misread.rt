//! Why a reader gives up, with a place that grows on the way out.
ghost use Rattle.std.specs.Prelude.{◌≡◌, []};
ghost use Rattle.std.specs.Fmt.{decimal};
ghost use Rattle.oxt_valid.specs.Pointer.{at_key};

use oxt_names::ids;
use oxt_valid::pointer::{below, below_index};
use std::alloc::{AllocError, AllocFailed, Global};

/// Why a value could not be read.
#[derive(Drop)]
pub enum Misread {
    /// Memory ran out, or no number is left for a node.
    OutOfMemory,
    /// A value is wrong, at this JSON pointer from the value that is read.
    At(String),
}

impl Misread {
    ghost use Rattle.oxt_json.specs.Misreads.{IsAt, IsBelow};

    /// The value itself is wrong.
    pub fn here(alloc: Global) -> Misread
        ensures { IsAt [] result }
    {
        Misread::At(String::new(alloc))
    }

    /// The value at a key is wrong.
    pub fn at(alloc: Global, key: &str) -> Misread
        ensures { IsAt (at_key key.now []) result }
    {
        match below(alloc, key, "") {
            Ok(place) => Misread::At(place),
            Err(_) => Misread::OutOfMemory,
        }
    }

    /// The same, seen from the object that has the value at a key.
    pub fn below(self, alloc: Global, key: &str) -> Misread
        ensures { IsBelow key.now self result }
    {
        let Misread::At(rest) = self else {
            return Misread::OutOfMemory;
        };
        match below(alloc, key, rest.as_str()) {
            Ok(place) => Misread::At(place),
            Err(_) => Misread::OutOfMemory,
        }
    }

    /// The same, seen from the list that has the value at an index.
    pub fn below_index(self, alloc: Global, index: usize) -> Misread
        ensures { IsBelow (decimal index) self result }
    {
        let Misread::At(rest) = self else {
            return Misread::OutOfMemory;
        };
        match below_index(alloc, index, rest.as_str()) {
            Ok(place) => Misread::At(place),
            Err(_) => Misread::OutOfMemory,
        }
    }
}

impl From<ids::OutOfMemory> for Misread {
    ghost use Rattle.oxt_json.specs.declared.misread.Misread.TheVariants.{OutOfMemory};

    ghost from_gives = { λ _ e. e ≡ OutOfMemory };

    fn from(_error: ids::OutOfMemory) -> Misread {
        Misread::OutOfMemory
    }
}

impl From<AllocError> for Misread {
    ghost use Rattle.oxt_json.specs.declared.misread.Misread.TheVariants.{OutOfMemory};

    ghost from_gives = { λ _ e. e ≡ OutOfMemory };

    fn from(_error: AllocError) -> Misread {
        Misread::OutOfMemory
    }
}

impl<T: Drop> From<AllocFailed<T>> for Misread {
    ghost use Rattle.oxt_json.specs.declared.misread.Misread.TheVariants.{OutOfMemory};

    ghost from_gives = { λ _ e. e ≡ OutOfMemory };

    fn from(_error: AllocFailed<T>) -> Misread {
        Misread::OutOfMemory
    }
}
