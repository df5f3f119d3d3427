//! The groups that names mean and declare.
ghost use Rattle.std.specs.Prelude.{◌≡◌, [], OnOk};
ghost use Rattle.std.specs.BTreeMap.{insert_entry};
ghost use Rattle.std.specs.Ordering.{nat_cmp};
ghost use Rattle.oxt_facts.specs.Owners.{owner_in};

use oxt_names::ids::{NodeId, OutOfMemory};
use std::alloc::Global;
use std::collections::BTreeMap;
use std::marker::Model;

/// The groups that the names of a tree mean and declare, by the numbers of their nodes. A group is a scope together with
/// a spelling that it declares; it goes by the number of the first node that declares it. A free name has none.
#[derive(Drop)]
pub struct NameGroups {
    groups: BTreeMap<u64, u64>,
}

impl Model for NameGroups {
    ghost use Rattle.oxt_facts.specs.Owners.{Owners};

    ghost Value = { Owners };

    ghost view = { λ o. o.groups.entries };
}

impl NameGroups {
    /// Those of a tree without names.
    pub fn new(alloc: Global) -> NameGroups
        ensures { result ≡ [] }
    {
        NameGroups {
            groups: BTreeMap::new(alloc),
        }
    }

    /// Puts the group of the node, in place of what it had.
    ///
    /// # Errors
    ///
    /// Fails only where memory runs out.
    pub fn put(&mut self, node: NodeId, group: u64) -> Result<(), OutOfMemory>
        ensures { OnOk result (self.new ≡ insert_entry nat_cmp self.old node.0 group) }
    {
        self.groups.insert(node.0, group)?;
        Ok(())
    }

    /// The group of the node.
    pub fn of(&self, node: NodeId) -> Option<u64>
        ensures { result ≡ owner_in self.now node.0 }
    {
        self.groups.get(&node.0).copied()
    }
}
