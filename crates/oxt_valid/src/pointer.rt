//! JSON pointers, built from the inside out.
ghost use Rattle.std.specs.Prelude.{◌≡◌, IfOk, string_bytes};
ghost use Rattle.std.specs.Fmt.{decimal};
ghost use Rattle.oxt_valid.specs.Pointer.{at_key};

use oxt_names::ids::OutOfMemory;
use std::alloc::Global;

/// The pointer to what stands at `rest` below a key. No key of the grammar has a `~` or a `/`.
pub fn below(alloc: Global, key: &str, rest: &str) -> Result<String, OutOfMemory>
    ensures { IfOk result (λ place. string_bytes place ≡ at_key key.now rest.now) }
{
    let mut place = String::from_str(alloc, "/")?;
    place.push_str(key)?;
    place.push_str(rest)?;
    Ok(place)
}

/// The pointer to what stands at `rest` below an index of a list.
pub fn below_index(alloc: Global, index: usize, rest: &str) -> Result<String, OutOfMemory>
    ensures { IfOk result (λ place. string_bytes place ≡ at_key (decimal index) rest.now) }
{
    let key = index.to_string(alloc)?;
    below(alloc, key.as_str(), rest)
}
