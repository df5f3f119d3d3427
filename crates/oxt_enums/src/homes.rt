//! The blocks of the enums of a tree, by the numbers of their bodies.
ghost use Rattle.std.specs.Prelude.{◌≡◌, ◌==◌, IfOk, OnOk, Some, if◌then◌else◌, ℕ, option_map};
ghost use Rattle.oxt_enums.specs.Blocks.{block_view, block_views};
ghost use Rattle.oxt_enums.specs.Constants.{block_in};
ghost use Rattle.oxt_enums.specs.Tables.{at_number, home_at};

use crate::blocks::EnumBlock;
use oxt_names::ids::{NodeId, OutOfMemory};
use std::alloc::Global;
use std::collections::HashMap;

/// The blocks of enums, by the numbers of their bodies.
#[derive(Drop)]
pub struct Homes<'a> {
    blocks: HashMap<u64, EnumBlock<'a>>,
}

impl<'a> Homes<'a> {
    /// Those blocks, of each number the first.
    #[tactic(auto, using(crate::proofs::Backwards::block_steps))]
    pub fn new(alloc: Global, blocks: &[EnumBlock<'a>]) -> Result<Homes<'a>, OutOfMemory>
        ensures { IfOk result (λ h. (i : ℕ) → home_at i h ≡ block_in (block_views blocks.now) i) }
    {
        let mut homes = HashMap::new(alloc);
        let mut i = blocks.len();
        while i > 0 {
            i -= 1;
            put_block(&blocks[i], &mut homes)?;
        }
        Ok(Homes { blocks: homes })
    }

    /// The block whose body has that number.
    pub fn block_of(&self, body: NodeId) -> Option<EnumBlock<'a>>
        ensures { option_map block_view result ≡ home_at body.0 self.now }
    {
        self.blocks.get(&body.0).copied()
    }
}

/// Puts the block in front of what stands there.
#[tactic(auto, using(crate::proofs::Firsts::number_look))]
fn put_block<'a>(
    block: &EnumBlock<'a>,
    homes: &mut HashMap<u64, EnumBlock<'a>>,
) -> Result<(), OutOfMemory>
    ensures { OnOk result ((q : ℕ) → at_number q homes.new.entries
        ≡ (if q == block.now.body.0 then Some block.now else at_number q homes.old.entries)) }
{
    homes.insert(block.body.0, *block)?;
    Ok(())
}
