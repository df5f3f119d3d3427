//! Functions and classes that emit code and stand behind a namespace of their name and scope that emits code.
ghost use Rattle.std.specs.Prelude.{◌≡◌, IfOk, false, option_map};
ghost use Rattle.oxt_enum_checks.specs.LateBase.{late_among, late_from, least_late};
ghost use Rattle.oxt_enum_checks.specs.Places.{places_in};

use crate::blocks::Block;
use crate::clash::{Emitted, all_emitted, declarations_by, lesser};
use crate::places::Places;
use crate::sort::{is_base, is_namespace};
use oxt_names::ids::{NodeId, OutOfMemory};
use oxt_scoping::entry::Redeclaration;
use oxt_scoping::scoping::Scoping;
use std::alloc::Global;

/// The least of the numbers of the first such functions and classes of the names of these blocks.
#[tactic(auto, using(crate::proofs::Lates::least_steps))]
pub(crate) fn least_late(
    alloc: Global,
    scoping: &Scoping,
    places: &Places,
    blocks: &[Block],
) -> Result<Option<NodeId>, OutOfMemory>
    ensures { IfOk result (λ found. option_map (λ node. node.0) found
        ≡ least_late scoping.now (places_in places.now) blocks.now) }
{
    let mut least = None;
    for block in blocks {
        let declarations = declarations_by(scoping, block.name);
        let late = late_among(alloc, places, declarations)?;
        least = lesser(least, late);
    }
    Ok(least)
}

/// The first such function or class among the declarations of a name.
fn late_among(
    alloc: Global,
    places: &Places,
    declarations: &[Redeclaration],
) -> Result<Option<NodeId>, OutOfMemory>
    ensures { IfOk result (λ found. option_map (λ node. node.0) found
        ≡ late_among (places_in places.now) declarations.now) }
{
    let emitted = all_emitted(alloc, places, declarations)?;
    Ok(first_late(emitted.as_slice()))
}

/// The first of the declarations that is a function or class and stands behind a namespace.
#[tactic(auto, using(crate::proofs::Lates::late_steps))]
fn first_late(emitted: &[Emitted]) -> Option<NodeId>
    ensures { option_map (λ node. node.0) result ≡ late_from false emitted.now }
{
    let mut after_namespace = false;
    for one in emitted {
        if after_namespace && is_base(one.sort) {
            return Some(one.place.declaration);
        }
        after_namespace = after_namespace || is_namespace(one.sort);
    }
    None
}
