//! The first member, or bare name of a member, that stands in the way.
ghost use Rattle.std.specs.Prelude.{◌≡◌, IfOk};
ghost use Rattle.oxt_enum_checks.specs.Misnamed.{lesser, misnamed_beside};
ghost use Rattle.oxt_scopes.specs.Stack.{number_at};
ghost use Rattle.oxt_tree.specs.View.{node_doc};

use crate::members::members_of;
use crate::repeated::first_repeated;
use oxt_declares::sites::EnumSites;
use oxt_names::ids::{NodeId, OutOfMemory};
use oxt_scoping::scoping::Scoping;
use std::alloc::Global;

/// The least number of a node, outside what is erased, that is a member with the name of its enum or of a member
/// that stands earlier in the enum, or a bare name that means a member and is written or names an element of JSX, of which
/// `misused` is the first, of the program in which these are the outermost enums.
///
/// # Errors
///
/// Fails only where memory runs out.
pub fn first_misnamed(
    alloc: Global,
    sites: &EnumSites,
    scoping: &Scoping,
    misused: Option<NodeId>,
) -> Result<Option<NodeId>, OutOfMemory>
    ensures { IfOk result
        (λ found. number_at found ≡ misnamed_beside sites.now.legacy scoping.now (node_doc sites.now.program.now) (number_at misused)) }
{
    let members = members_of(alloc, sites, scoping)?;
    let repeated = first_repeated(alloc, members.as_slice())?;
    Ok(lesser(repeated, misused))
}

/// The lesser of two numbers, or the one that there is.
fn lesser(one: Option<NodeId>, other: Option<NodeId>) -> Option<NodeId>
    ensures { number_at result ≡ lesser (number_at one) (number_at other) }
{
    match (one, other) {
        (Some(one), Some(other)) => Some(NodeId(one.0.min(other.0))),
        (Some(one), None) => Some(one),
        (None, other) => other,
    }
}
