//! Blocks before which nothing of their name emits code.
ghost use Rattle.std.specs.Prelude.{◌≡◌, IfOk, map};
ghost use Rattle.oxt_enum_checks.specs.First.{first_by};
ghost use Rattle.oxt_enum_checks.specs.Places.{places_in};

use crate::blocks::Block;
use crate::places::Places;
use crate::sought::{Sought, sought_blocks};
use oxt_names::ids::{NodeId, OutOfMemory};
use oxt_scoping::scoping::Scoping;
use std::alloc::Global;

/// The numbers of those of the blocks that emit code and before which no declaration of their name in their scope does, in
/// their order. `scoping` is the table of the program, and `places` are the declarations of its names.
///
/// # Errors
///
/// Nothing but want of memory.
pub fn first_blocks(
    alloc: Global,
    blocks: &[Block],
    scoping: &Scoping,
    places: &Places,
) -> Result<Vec<NodeId>, OutOfMemory>
    ensures { IfOk result (λ nodes. map (λ node. node.0) nodes.items
        ≡ first_by (places_in places.now) scoping.now blocks.now) }
{
    let first = sought_blocks(alloc, blocks, scoping, places, Sought::Any)?;
    nodes_of(alloc, first.as_slice())
}

/// The nodes that are the blocks.
fn nodes_of(alloc: Global, blocks: &[Block]) -> Result<Vec<NodeId>, OutOfMemory>
    ensures { IfOk result (λ nodes. nodes.items ≡ map (λ block. block.node) blocks.now) }
{
    Ok(blocks.iter().map(|block| block.node).collect(alloc)?)
}
