//! The references of the table.
ghost use Rattle.std.specs.Prelude.{◌≡◌, ◌<◌, IfSome, OnOk, length};
ghost use Rattle.oxt_scopes.specs.OwnedViews.{owned_view, owned_views};
ghost use Rattle.oxt_scopes.specs.Stack.{number_at};
ghost use Rattle.oxt_resolve.specs.Resolved.{all_used, group_of, with_used};

use crate::flags::usage_flags;
use crate::opening::scope_of_number;
use oxt_names::ids::{NodeId, OutOfMemory, SymbolId};
use oxt_scopes::owners::OwnedName;
use oxt_scoping::scoping::Scoping;

/// Makes the references of the names.
#[tactic(auto, using(crate::proofs::Folds::use_steps))]
pub fn refer_all(table: &mut Scoping, owners: &[OwnedName]) -> Result<(), OutOfMemory>
    ensures { OnOk result (table.new ≡ all_used (owned_views owners.now) table.old) }
{
    for owner in owners {
        refer(table, owner)?;
    }
    Ok(())
}

/// Makes the reference of the name.
#[tactic(auto, using(crate::proofs::Steps::referred_is))]
fn refer(table: &mut Scoping, owner: &OwnedName) -> Result<(), OutOfMemory>
    ensures { OnOk result (table.new ≡ with_used table.old (owned_view owner.now)) }
{
    let symbol = group_of(table, owner.owner, owner.name);
    table.create_reference(owner.node, symbol, usage_flags(owner.usage))?;
    Ok(())
}

/// The symbol of that name that the scope of that number binds, if there are such.
fn group_of(table: &Scoping, owner: Option<NodeId>, name: &str) -> Option<SymbolId>
    ensures group { result ≡ group_of (number_at owner) name.now table.now }
    ensures live { IfSome result (λ symbol. symbol.0 < length table.now.symbols) }
{
    match owner {
        Some(number) => table.get_binding(scope_of_number(table, number), name),
        None => None,
    }
}
