//! Collects the wrappers that stay where something is assigned. `legacy` says that decorators have their older meaning.
ghost use Rattle.std.specs.Prelude.{◌≡◌, ◌++◌, map, OnOk};
ghost use Rattle.oxt_grammar.specs.Field.{row_view};
ghost use Rattle.oxt_check.specs.Targets.{numbers_in, target_at, targets_among, targets_below, targets_first, targets_in};
ghost use Rattle.oxt_tree.specs.View.{docs_in, node_doc, part_doc};

use crate::wrapped::{held_by, is_wrapped_target};
use oxt_declares::dropped::{is_dropped, keeps_decorators};
use oxt_grammar::holds::{Holds, Row};
use oxt_names::ids::{NodeId, OutOfMemory};
use oxt_tree::tree::{Node, Part};

/// Appends the wrappers in the node, which stands where a field holds `holds`: itself before those in its fields.
#[cycle(push)]
pub fn push_from_node(
    targets: &mut Vec<NodeId>,
    node: &Node,
    holds: Holds,
    legacy: bool,
) -> Result<(), OutOfMemory>
    ensures { OnOk result
        (numbers_in targets.new.items ≡ numbers_in targets.old.items
        ++ targets_in legacy (node_doc node.now) holds) }
{
    let rows = node.kind.rows();
    if is_dropped(node) {
        if keeps_decorators(legacy, node) {
            return push_from_first(targets, &node.parts, rows, legacy);
        }
        return Ok(());
    }
    push_itself(targets, node, holds)?;
    push_from_fields(targets, &node.parts, rows, legacy)
}

/// Appends the wrappers in the part.
#[cycle(push)]
fn push_from_part(
    targets: &mut Vec<NodeId>,
    part: &Part,
    holds: Holds,
    legacy: bool,
) -> Result<(), OutOfMemory>
    ensures { OnOk result
        (numbers_in targets.new.items ≡ numbers_in targets.old.items
        ++ targets_in legacy (part_doc part.now) holds) }
{
    match part {
        Part::Node(node) => push_from_node(targets, node, holds, legacy),
        Part::List(parts) => push_from_each(targets, parts, holds, legacy),
        _ => Ok(()),
    }
}

/// Appends the wrappers in the elements of a list.
#[cycle(push)]
#[tactic(auto, using(crate::proofs::Collected::each_steps))]
fn push_from_each(
    targets: &mut Vec<NodeId>,
    parts: &[Part],
    holds: Holds,
    legacy: bool,
) -> Result<(), OutOfMemory>
    ensures { OnOk result
        (numbers_in targets.new.items ≡ numbers_in targets.old.items
        ++ targets_among legacy (docs_in parts.now) holds) }
{
    for part in parts {
        push_from_part(targets, part, holds, legacy)?;
    }
    Ok(())
}

/// Appends the wrappers in what the fields of a node with these rows hold.
#[cycle(push)]
#[tactic(auto, using(crate::proofs::Collected::field_steps))]
fn push_from_fields(
    targets: &mut Vec<NodeId>,
    parts: &[Part],
    rows: &[Row],
    legacy: bool,
) -> Result<(), OutOfMemory>
    ensures { OnOk result
        (numbers_in targets.new.items ≡ numbers_in targets.old.items
        ++ targets_below legacy (docs_in parts.now) (map row_view rows.now)) }
{
    for (i, part) in parts.iter().enumerate() {
        match rows.get(i) {
            Some(row) => push_from_part(targets, part, row.holds, legacy)?,
            None => return Ok(()),
        }
    }
    Ok(())
}

/// Appends the wrappers in what the first field of a node with these rows holds.
#[cycle(push)]
fn push_from_first(
    targets: &mut Vec<NodeId>,
    parts: &[Part],
    rows: &[Row],
    legacy: bool,
) -> Result<(), OutOfMemory>
    ensures { OnOk result
        (numbers_in targets.new.items ≡ numbers_in targets.old.items
        ++ targets_first legacy (docs_in parts.now) (map row_view rows.now)) }
{
    match parts.first() {
        Some(part) => push_from_part(targets, part, held_by(rows.get(0)), legacy),
        None => Ok(()),
    }
}

/// Appends the node where it is such a wrapper itself.
fn push_itself(targets: &mut Vec<NodeId>, node: &Node, holds: Holds) -> Result<(), OutOfMemory>
    ensures { OnOk result
        (numbers_in targets.new.items ≡ numbers_in targets.old.items
        ++ target_at holds (node_doc node.now) node.now.id.0) }
{
    if is_wrapped_target(holds, node) {
        targets.push(node.id)?;
    }
    Ok(())
}
