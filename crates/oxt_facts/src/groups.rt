//! The groups of names in a word.
ghost use Rattle.std.specs.Prelude.{◌≡◌, [], IfOk, OnOk};
ghost use Rattle.oxt_facts.specs.Entry.{entries, entry_of};
ghost use Rattle.oxt_facts.specs.Groups.{groups_met, is_declaring, met_in, number_among, numbered_groups, with_met, with_number_among};

use crate::item::{Item, ItemKind};
use crate::met::MetGroups;
use oxt_names::ids::OutOfMemory;
use std::alloc::Global;

/// Numbers the groups of names in the items by the first item that declares each: the first is 0. A name of a group that
/// no item declares is free.
///
/// # Errors
///
/// Fails only where memory runs out.
#[tactic(auto, using(crate::proofs::Declared::number_more, crate::proofs::Declared::no_more))]
pub fn number_groups(alloc: Global, items: &mut Vec<Item>) -> Result<(), OutOfMemory>
    ensures { OnOk result (entries items.new.items ≡ numbered_groups (entries items.old.items)) }
{
    let met = groups_met(alloc, items.as_slice())?;
    for i in 0..items.len() {
        number_group(&met, &mut items[i]);
    }
    Ok(())
}

/// The groups that the items declare, in the order of their first declarations.
#[tactic(auto, using(crate::proofs::Declared::met_steps))]
fn groups_met(alloc: Global, items: &[Item]) -> Result<MetGroups, OutOfMemory>
    ensures { IfOk result (λ met. met ≡ groups_met [] (entries items.now)) }
{
    let mut met = MetGroups::new(alloc);
    for item in items {
        meet(item, &mut met)?;
    }
    Ok(met)
}

/// Adds the group that the item declares, if it declares one.
fn meet(item: &Item, met: &mut MetGroups) -> Result<(), OutOfMemory>
    ensures { OnOk result (met.new ≡ met_in (entry_of item.now) met.old) }
{
    if is_declaring(item.kind) {
        meet_group(item.group, met)
    } else {
        Ok(())
    }
}

/// Adds the group, if there is one.
fn meet_group(group: Option<u64>, met: &mut MetGroups) -> Result<(), OutOfMemory>
    ensures { OnOk result (met.new ≡ with_met group met.old) }
{
    if let Some(group) = group {
        met.meet(group)?;
    }
    Ok(())
}

/// Puts the number of the item's group among these in its place.
fn number_group(met: &MetGroups, item: &mut Item)
    ensures { entry_of item.new ≡ with_number_among met.now (entry_of item.old) }
{
    item.group = number_among(met, item.group);
}

/// The number of the group among these.
fn number_among(met: &MetGroups, group: Option<u64>) -> Option<u64>
    ensures { result ≡ number_among met.now group }
{
    match group {
        Some(group) => match met.number_of(group) {
            Some(number) => Some(number as u64),
            None => None,
        },
        None => None,
    }
}

/// Whether items with the kind declare a name that is not made.
fn is_declaring(kind: ItemKind) -> bool
    ensures { result ≡ is_declaring kind }
{
    match kind {
        ItemKind::Bind => true,
        ItemKind::In => true,
        _ => false,
    }
}
