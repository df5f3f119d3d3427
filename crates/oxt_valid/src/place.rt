//! Places that there may be.
ghost use Rattle.std.specs.Prelude.{◌≡◌, IfOk, [], Some, option_map, string_bytes};
ghost use Rattle.std.specs.Fmt.{decimal};
ghost use Rattle.oxt_valid.specs.Pointer.{at_key};
ghost use Rattle.oxt_valid.specs.Misfit.{below as below_spec};

use crate::pointer::{below, below_index};
use oxt_names::ids::OutOfMemory;
use std::alloc::Global;

/// The place of the value at a key.
pub fn at(alloc: Global, key: &str) -> Result<Option<String>, OutOfMemory>
    ensures { IfOk result
        (λ place. option_map string_bytes place ≡ Some (at_key key.now [])) }
{
    Ok(Some(below(alloc, key, "")?))
}

/// The place, if there is one, seen from what has the value at a key.
pub fn place_below(
    alloc: Global,
    key: &str,
    inside: Option<String>,
) -> Result<Option<String>, OutOfMemory>
    ensures { IfOk result (λ place. option_map string_bytes place
        ≡ below_spec key.now (option_map string_bytes inside)) }
{
    match inside {
        Some(rest) => Ok(Some(below(alloc, key, rest.as_str())?)),
        None => Ok(None),
    }
}

/// The place, if there is one, seen from the list that has the value at an index.
pub fn place_below_index(
    alloc: Global,
    index: usize,
    inside: Option<String>,
) -> Result<Option<String>, OutOfMemory>
    ensures { IfOk result (λ place. option_map string_bytes place
        ≡ below_spec (decimal index) (option_map string_bytes inside)) }
{
    match inside {
        Some(rest) => Ok(Some(below_index(alloc, index, rest.as_str())?)),
        None => Ok(None),
    }
}
