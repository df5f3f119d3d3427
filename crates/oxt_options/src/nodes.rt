//! Lists of nodes in which each is found at once.
ghost use Rattle.std.specs.Prelude.{◌≡◌, ◌++◌, ◌∷◌, ℕ, IfOk, []};
ghost use Rattle.oxt_options.specs.Facts.{is_in};
ghost use Rattle.oxt_options.specs.Lists.{numbers_in};

use oxt_names::ids::{NodeId, OutOfMemory};
use std::alloc::Global;
use std::collections::HashSet;
use std::marker::Model;

/// A list of nodes in which each is found at once.
#[derive(Drop)]
pub struct NodeList {
    nodes: Vec<NodeId>,
    set: HashSet<u64>,
}

impl Model for NodeList {
    ghost use Rattle.std.specs.Prelude.{◌≡◌, ℕ, List};
    ghost use Rattle.oxt_options.specs.Facts.{is_in};
    ghost use Rattle.oxt_options.specs.Lists.{numbers_in};

    ghost Value = { List ℕ };

    ghost view = { λ l. numbers_in l.nodes.items };

    ghost invariant = { λ l. (n : ℕ) → is_in l.set.keys n ≡ is_in (numbers_in l.nodes.items) n };
}

impl NodeList {
    /// The list without nodes.
    pub fn new(alloc: Global) -> NodeList
        ensures { result ≡ [] }
    {
        NodeList {
            nodes: Vec::new(alloc),
            set: HashSet::new(alloc),
        }
    }

    /// The list of these nodes.
    ///
    /// # Errors
    ///
    /// Nothing but want of memory.
    pub fn of(alloc: Global, nodes: Vec<NodeId>) -> Result<NodeList, OutOfMemory>
        ensures { IfOk result (λ list. list ≡ numbers_in nodes.items) }
    {
        let set = set_of(alloc, nodes.as_slice())?;
        Ok(NodeList { nodes, set })
    }

    /// Whether the node is one of the list.
    pub fn has(&self, node: NodeId) -> bool
        ensures { result ≡ is_in self.now node.0 }
    {
        self.set.contains(&node.0)
    }

    /// The list with that node behind the others.
    ///
    /// # Errors
    ///
    /// Nothing but want of memory.
    #[tactic(auto, using(crate::proofs::Known::node_steps))]
    pub fn with(self, node: NodeId) -> Result<NodeList, OutOfMemory>
        ensures { IfOk result (λ list. list ≡ self ++ node.0 ∷ []) }
    {
        let NodeList { mut nodes, mut set } = self;
        nodes.push(node)?;
        set.insert(node.0)?;
        Ok(NodeList { nodes, set })
    }

    /// Its nodes, in order.
    pub fn into_nodes(self) -> Vec<NodeId>
        ensures { numbers_in result.items ≡ self }
    {
        self.nodes
    }
}

/// The numbers of the nodes.
pub(crate) fn set_of(alloc: Global, nodes: &[NodeId]) -> Result<HashSet<u64>, OutOfMemory>
    ensures { IfOk result (λ set. (n : ℕ) → is_in set.keys n ≡ is_in (numbers_in nodes.now) n) }
{
    Ok(nodes.iter().map(|node| node.0).collect(alloc)?)
}
