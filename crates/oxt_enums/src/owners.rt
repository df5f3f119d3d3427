//! What the names of a tree mean, by their numbers.
ghost use Rattle.std.specs.Prelude.{◌≡◌, ◌==◌, IfOk, OnOk, Some, if◌then◌else◌, ℕ};
ghost use Rattle.oxt_enums.specs.Constants.{owner_in};
ghost use Rattle.oxt_enums.specs.Tables.{at_number, owner_at};
ghost use Rattle.oxt_scopes.specs.OwnedViews.{owned_views};
ghost use Rattle.oxt_scopes.specs.Stack.{number_at};

use oxt_names::ids::{NodeId, OutOfMemory};
use oxt_scopes::owners::OwnedName;
use std::alloc::Global;
use std::collections::HashMap;

/// The owners of the names of a tree.
#[derive(Drop)]
pub struct Owners {
    owners: HashMap<u64, Option<NodeId>>,
}

impl Owners {
    /// Those owners, of each number the first.
    #[tactic(auto, using(crate::proofs::Backwards::owner_steps))]
    pub fn new(alloc: Global, names: &[OwnedName]) -> Result<Owners, OutOfMemory>
        ensures { IfOk result (λ o. (i : ℕ) → owner_at i o ≡ owner_in (owned_views names.now) i) }
    {
        let mut owners = HashMap::new(alloc);
        let mut i = names.len();
        while i > 0 {
            i -= 1;
            put_owner(&names[i], &mut owners)?;
        }
        Ok(Owners { owners })
    }

    /// The scope of the group that the name of that number means; none where it is free.
    pub fn owner_of(&self, name: NodeId) -> Option<NodeId>
        ensures { number_at result ≡ owner_at name.0 self.now }
    {
        match self.owners.get(&name.0) {
            Some(owner) => *owner,
            None => None,
        }
    }
}

/// Puts the owner of the name in front of what stands there.
#[tactic(auto, using(crate::proofs::Firsts::number_look))]
fn put_owner(name: &OwnedName, owners: &mut HashMap<u64, Option<NodeId>>) -> Result<(), OutOfMemory>
    ensures { OnOk result ((q : ℕ) → at_number q owners.new.entries
        ≡ (if q == name.now.node.0 then Some name.now.owner else at_number q owners.old.entries)) }
{
    owners.insert(name.node.0, name.owner)?;
    Ok(())
}
