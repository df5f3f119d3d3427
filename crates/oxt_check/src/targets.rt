//! The wrappers of a program that stay where something is assigned.
ghost use Rattle.std.specs.Prelude.{◌≡◌, ℕ, [], IfOk, length};
ghost use Rattle.oxt_check.specs.Targets.{is_listed, numbers_in, targets};
ghost use Rattle.oxt_tree.specs.View.{node_doc};

use crate::push::push_from_node;
use oxt_grammar::category::Category;
use oxt_grammar::holds::Holds;
use oxt_names::ids::{NodeId, OutOfMemory};
use oxt_tree::tree::Node;
use std::alloc::Global;
use std::collections::HashSet;
use std::marker::Model;

/// The wrappers of a program that stay where something is assigned, as `f() as any` in `(f() as any)++`: around
/// neither an identifier nor a member they cannot be opened.
#[derive(Drop)]
pub struct WrappedTargets {
    set: HashSet<u64>,
    nodes: Vec<NodeId>,
}

impl Model for WrappedTargets {
    ghost use Rattle.std.specs.Prelude.{◌≡◌, ℕ, List};
    ghost use Rattle.oxt_check.specs.Targets.{is_listed, numbers_in};

    ghost Value = { List ℕ };

    ghost view = { λ t. numbers_in t.nodes.items };

    ghost invariant = { λ t. (n : ℕ) → is_listed t.set.keys n ≡ is_listed (numbers_in t.nodes.items) n };
}

impl WrappedTargets {
    /// Those of the program, where `legacy` says that decorators have their older meaning.
    ///
    /// # Errors
    ///
    /// `OutOfMemory` for want of memory alone.
    pub fn of(alloc: Global, program: &Node, legacy: bool) -> Result<WrappedTargets, OutOfMemory>
        ensures { IfOk result (λ wrapped. wrapped ≡ targets legacy (node_doc program.now)) }
    {
        let nodes = wrapped_targets(alloc, program, legacy)?;
        let set = set_of(alloc, nodes.as_slice())?;
        Ok(WrappedTargets { set, nodes })
    }

    /// None.
    pub fn none(alloc: Global) -> WrappedTargets
        ensures { result ≡ [] }
    {
        WrappedTargets {
            set: HashSet::new(alloc),
            nodes: Vec::new(alloc),
        }
    }

    /// Whether the node is one of them.
    pub fn has(&self, node: NodeId) -> bool
        ensures { result ≡ is_listed self.now node.0 }
    {
        self.set.contains(&node.0)
    }

    /// How many there are.
    pub fn len(&self) -> usize
        ensures { result ≡ length self.now }
    {
        self.nodes.len()
    }
}

/// The wrappers of the program, outside erased code, that stay where something is assigned, where one comes before
/// those in it. A file of definitions has none. Under `legacy` the decorators of a field that is only declared are no erased
/// code.
///
/// # Errors
///
/// `OutOfMemory` for want of memory alone.
pub fn wrapped_targets(
    alloc: Global,
    program: &Node,
    legacy: bool,
) -> Result<Vec<NodeId>, OutOfMemory>
    ensures { IfOk result (λ nodes. numbers_in nodes.items ≡ targets legacy (node_doc program.now)) }
{
    let mut nodes = Vec::new(alloc);
    if !program.is_definition_file() {
        push_from_node(&mut nodes, program, Holds::Node(Category::Program), legacy)?;
    }
    Ok(nodes)
}

/// The numbers of the nodes.
fn set_of(alloc: Global, nodes: &[NodeId]) -> Result<HashSet<u64>, OutOfMemory>
    ensures { IfOk result (λ set. (n : ℕ) → is_listed set.keys n ≡ is_listed (numbers_in nodes.now) n) }
{
    Ok(nodes.iter().map(|node| node.0).collect(alloc)?)
}
