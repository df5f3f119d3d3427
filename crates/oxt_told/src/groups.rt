//! The groups that names mean and declare, by the table of scopes and symbols.
ghost use Rattle.std.specs.Prelude.{◌≡◌};
ghost use Rattle.oxt_told.specs.Groups.{own_group, symbol_meant};
ghost use Rattle.oxt_told.specs.Symbols.{group_of};

use crate::symbols::{declared_group, group_of};
use oxt_grammar::kind::Kind;
use oxt_names::ids::NodeId;
use oxt_scoping::scoping::Scoping;

/// The group that the node of that kind declares or means.
#[inline(always)]
pub fn own_group(scoping: &Scoping, kind: Kind, node: NodeId) -> Option<u64>
    ensures { result ≡ own_group scoping.now kind node.0 }
{
    if kind.is(Kind::BindingIdentifier) {
        declared_group(scoping, node)
    } else if kind.is(Kind::IdentifierReference) {
        meant_group(scoping, node)
    } else {
        None
    }
}

/// The group that the node means.
#[tactic(auto, using(crate::proofs::Grouped::group_found, crate::proofs::Grouped::no_group))]
fn meant_group(scoping: &Scoping, node: NodeId) -> Option<u64>
    ensures { result ≡ group_of (symbol_meant scoping.now node.0) }
{
    match scoping.meaning_of(node) {
        Some(symbol) if scoping.has_symbol(symbol) => group_of(scoping, symbol),
        _ => None,
    }
}
