//! The enums of a tree, each with its blocks.
ghost use Rattle.std.specs.Prelude.{◌≡◌, ◌++◌, ◌∷◌, [], IfOk, OnOk, ℕ, List, None, map, option_map};
ghost use Rattle.oxt_enums.specs.Blocks.{block_view, block_views};
ghost use Rattle.oxt_enums.specs.Groups.{Puts, enum_at, enum_in, enum_view, extended, number_of};

use crate::blocks::EnumBlock;
use oxt_names::ids::{NodeId, OutOfMemory};
use std::alloc::Global;
use std::collections::HashMap;

/// An enum.
#[derive(Drop)]
pub struct Group {
    /// Whether its first block says `const`.
    pub is_const: bool,
    /// The numbers of the bodies of its blocks, in the order of the text.
    pub bodies: Vec<NodeId>,
}

/// The enums of a tree, by the scope that declares each and its name.
#[derive(Drop)]
pub struct Groups<'a> {
    groups: HashMap<(u64, &'a str), Group>,
}

impl<'a> Groups<'a> {
    /// The enums that have these blocks.
    ///
    /// # Errors
    ///
    /// Fails only where memory runs out.
    #[tactic(auto, using(crate::proofs::Grouping::steps))]
    pub fn new(alloc: Global, blocks: &[EnumBlock<'a>]) -> Result<Groups<'a>, OutOfMemory>
        ensures { IfOk result (λ g. (n : ℕ) (t : List ℕ) → enum_at n t g ≡ enum_in (block_views blocks.now) n t) }
    {
        let mut groups = HashMap::new(alloc);
        for block in blocks {
            put_block(alloc, block, &mut groups)?;
        }
        Ok(Groups { groups })
    }

    /// The enum of that name that the scope declares, if there is one.
    pub fn get<'s>(&'s self, scope: NodeId, name: &'s str) -> Option<&'s Group>
        ensures { option_map (λ group. enum_view group.now) result ≡ enum_at scope.0 name.now self.now }
    {
        self.groups.get(&(scope.0, name))
    }
}

/// Puts the block behind the others of its enum.
fn put_block<'a>(
    alloc: Global,
    block: &EnumBlock<'a>,
    groups: &mut HashMap<(u64, &'a str), Group>,
) -> Result<(), OutOfMemory>
    ensures { OnOk result (Puts block.now groups.old.entries groups.new.entries) }
{
    let key = (block.scope.0, block.name);
    let before = groups.insert(key, empty(alloc))?;
    groups.insert(key, with_block(alloc, before, block)?)?;
    Ok(())
}

/// An enum without a block.
fn empty(alloc: Global) -> Group {
    Group {
        is_const: false,
        bodies: Vec::new(alloc),
    }
}

/// The enum with the block behind the others.
fn with_block(alloc: Global, group: Option<Group>, block: &EnumBlock) -> Result<Group, OutOfMemory>
    ensures { IfOk result (λ g. enum_view g ≡ extended (option_map enum_view group) (block_view block.now)) }
{
    match group {
        Some(group) => with_body(group, block.body),
        None => first_of(alloc, block),
    }
}

/// The enum with the body behind the others.
#[tactic(auto, using(crate::proofs::Grouping::one_more))]
fn with_body(group: Group, body: NodeId) -> Result<Group, OutOfMemory>
    ensures { IfOk result (λ g. enum_view g
        ≡ record { is_const = group.is_const; bodies = map number_of group.bodies.items ++ body.0 ∷ [] }) }
{
    let mut bodies = group.bodies;
    bodies.push(body)?;
    Ok(Group {
        is_const: group.is_const,
        bodies,
    })
}

/// The enum of that one block.
fn first_of(alloc: Global, block: &EnumBlock) -> Result<Group, OutOfMemory>
    ensures { IfOk result (λ g. enum_view g ≡ extended None (block_view block.now)) }
{
    let mut bodies = Vec::new(alloc);
    bodies.push(block.body)?;
    Ok(Group {
        is_const: block.is_const,
        bodies,
    })
}
