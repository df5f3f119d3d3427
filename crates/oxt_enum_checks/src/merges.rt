//! What is wrong with declarations of one name of which one is a block of an enum or a namespace.
ghost use Rattle.std.specs.Prelude.{◌≡◌, IfOk, option_map};
ghost use Rattle.oxt_enum_checks.specs.Clash.{clash_by, least_clash};
ghost use Rattle.oxt_enum_checks.specs.LateBase.{late_by, least_late};
ghost use Rattle.oxt_enum_checks.specs.Places.{places_in};

use crate::blocks::Block;
use crate::clash::least_clash;
use crate::late_base::least_late;
use crate::places::Places;
use crate::sought::{Sought, has_blocks, sought_blocks};
use oxt_names::ids::{NodeId, OutOfMemory};
use oxt_scoping::scoping::Scoping;
use std::alloc::Global;

/// Declarations that do not go with an earlier one of their name: of each kind the one of the least number.
#[derive(Clone, Copy)]
pub struct MergeFaults {
    /// A function or a class behind a namespace of its name.
    pub late_base: Option<NodeId>,
    /// A declaration that does not merge.
    pub clash: Option<NodeId>,
}

/// Those of the names of these blocks of a program, whose table of scopes is `scoping` and of whose names `places` are the
/// declarations.
///
/// # Errors
///
/// Nothing but want of memory.
pub fn merge_faults(
    alloc: Global,
    blocks: &[Block],
    scoping: &Scoping,
    places: &Places,
) -> Result<MergeFaults, OutOfMemory>
    ensures late_base { IfOk result (λ faults. option_map (λ node. node.0) faults.late_base
        ≡ late_by (places_in places.now) scoping.now blocks.now) }
    ensures clash { IfOk result (λ faults. option_map (λ node. node.0) faults.clash
        ≡ clash_by (places_in places.now) scoping.now blocks.now) }
{
    if !has_blocks(scoping) {
        return Ok(MergeFaults {
            late_base: None,
            clash: None,
        });
    }
    let first = sought_blocks(alloc, blocks, scoping, places, Sought::Block)?;
    faults_of(alloc, scoping, places, first.as_slice())
}

/// Those of the names of these blocks.
fn faults_of(
    alloc: Global,
    scoping: &Scoping,
    places: &Places,
    blocks: &[Block],
) -> Result<MergeFaults, OutOfMemory>
    ensures late_base { IfOk result (λ faults. option_map (λ node. node.0) faults.late_base
        ≡ least_late scoping.now (places_in places.now) blocks.now) }
    ensures clash { IfOk result (λ faults. option_map (λ node. node.0) faults.clash
        ≡ least_clash scoping.now (places_in places.now) blocks.now) }
{
    let late_base = least_late(alloc, scoping, places, blocks)?;
    let clash = least_clash(alloc, scoping, places, blocks)?;
    Ok(MergeFaults { late_base, clash })
}
