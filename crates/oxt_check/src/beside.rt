//! The first place at which something of TypeScript stands in a tree beside wrappers that are kept.
ghost use Rattle.std.specs.Prelude.{◌≡◌, IfOk, Some, map, option_map, slice_get, string_bytes, is_none};
ghost use Rattle.oxt_grammar.specs.Field.{row_view};
ghost use Rattle.oxt_grammar.specs.declared.category.Category.TheVariants as category;
ghost use Rattle.oxt_grammar.specs.declared.holds.Holds.TheVariants as holds;
ghost use Rattle.oxt_check.specs.Beside.{below_first, beside_in_each, beside_in_fields, beside_in_first, first_typescript_beside, in_row, is_kept, is_plain_beside};
ghost use Rattle.oxt_check.specs.Targets.{held_by, is_listed};
ghost use Rattle.oxt_names.specs.Names.{name_bytes};
ghost use Rattle.oxt_tree.specs.View.{docs_in, node_doc, part_doc};

use crate::targets::WrappedTargets;
use crate::wrapped::{held_by, is_wrapped_target};
use oxt_grammar::category::Category;
use oxt_grammar::holds::{Holds, Row};
use oxt_names::ids::OutOfMemory;
use oxt_names::name::Name;
use oxt_tree::tree::{Node, Part};
use oxt_valid::place::{at, place_below, place_below_index};
use std::alloc::Global;

/// The JSON pointer of the first node or field of TypeScript in the program beside these wrappers, where they stand
/// where something is assigned and cannot be opened; of them only the expressions are looked at. None exactly where
/// the program is plain beside them.
///
/// # Errors
///
/// `OutOfMemory` for want of memory alone.
pub fn first_typescript_beside(
    alloc: Global,
    targets: &WrappedTargets,
    program: &Node,
) -> Result<Option<Name>, OutOfMemory>
    ensures place { IfOk result (λ place. option_map name_bytes place
        ≡ first_typescript_beside (node_doc program.now) (holds.Node category.Program) (is_listed targets.now)) }
    ensures plain { IfOk result (λ place. is_none place
        ≡ is_plain_beside (node_doc program.now) (holds.Node category.Program) (is_listed targets.now)) }
{
    match first_in_node(alloc, targets, program, Holds::Node(Category::Program))? {
        Some(place) => Ok(Some(Name::from_string(place)?)),
        None => Ok(None),
    }
}

/// The place in the node, which stands where a field holds `holds`.
#[cycle(beside)]
fn first_in_node(
    alloc: Global,
    targets: &WrappedTargets,
    node: &Node,
    holds: Holds,
) -> Result<Option<String>, OutOfMemory>
    ensures { IfOk result (λ place. option_map string_bytes place
        ≡ first_typescript_beside (node_doc node.now) holds (is_listed targets.now)) }
{
    let rows = node.kind.rows();
    if is_kept(targets, holds, node) {
        let inside = first_in_first(alloc, targets, &node.parts, rows)?;
        return place_below_first(alloc, rows, inside);
    }
    if node.kind.is_typescript() {
        return Ok(Some(String::new(alloc)));
    }
    first_in_fields(alloc, targets, &node.parts, rows)
}

/// The place in the part.
#[cycle(beside)]
fn first_in_part(
    alloc: Global,
    targets: &WrappedTargets,
    part: &Part,
    holds: Holds,
) -> Result<Option<String>, OutOfMemory>
    ensures { IfOk result (λ place. option_map string_bytes place
        ≡ first_typescript_beside (part_doc part.now) holds (is_listed targets.now)) }
{
    match part {
        Part::Node(node) => first_in_node(alloc, targets, node, holds),
        Part::List(parts) => first_in_each(alloc, targets, parts, holds),
        _ => Ok(None),
    }
}

/// The place in the first of the fields of a node with these rows, seen from that.
#[cycle(beside)]
fn first_in_first(
    alloc: Global,
    targets: &WrappedTargets,
    parts: &[Part],
    rows: &[Row],
) -> Result<Option<String>, OutOfMemory>
    ensures { IfOk result (λ place. option_map string_bytes place
        ≡ beside_in_first (docs_in parts.now) (map row_view rows.now) (is_listed targets.now)) }
{
    match parts.first() {
        Some(part) => first_in_part(alloc, targets, part, held_by(rows.get(0))),
        None => Ok(None),
    }
}

/// The place in the elements of a list.
#[cycle(beside)]
#[tactic(auto, using(crate::proofs::Remainders::each_steps))]
fn first_in_each(
    alloc: Global,
    targets: &WrappedTargets,
    parts: &[Part],
    holds: Holds,
) -> Result<Option<String>, OutOfMemory>
    ensures { IfOk result (λ place. option_map string_bytes place
        ≡ beside_in_each (docs_in parts.now) holds (is_listed targets.now) 0) }
{
    for (index, part) in parts.iter().enumerate() {
        let inside = first_in_part(alloc, targets, part, holds)?;
        if let Some(place) = place_below_index(alloc, index, inside)? {
            return Ok(Some(place));
        }
    }
    Ok(None)
}

/// The place in the fields of a node with these rows.
#[cycle(beside)]
#[tactic(auto, using(crate::proofs::Remainders::field_steps))]
fn first_in_fields(
    alloc: Global,
    targets: &WrappedTargets,
    parts: &[Part],
    rows: &[Row],
) -> Result<Option<String>, OutOfMemory>
    ensures { IfOk result (λ place. option_map string_bytes place
        ≡ beside_in_fields (docs_in parts.now) (is_listed targets.now) (map row_view rows.now)) }
{
    for (i, part) in parts.iter().enumerate() {
        if let Some(place) = first_in_row(alloc, targets, rows, i, part)? {
            return Ok(Some(place));
        }
    }
    Ok(None)
}

/// The place in the part at that index of a node with these rows, seen from the node.
#[cycle(beside)]
fn first_in_row(
    alloc: Global,
    targets: &WrappedTargets,
    rows: &[Row],
    index: usize,
    part: &Part,
) -> Result<Option<String>, OutOfMemory>
    ensures { IfOk result (λ place. option_map string_bytes place
        ≡ in_row (slice_get (map row_view rows.now) index) (part_doc part.now)
        (first_typescript_beside (part_doc part.now) (held_by (slice_get (map row_view rows.now) index)) (is_listed targets.now))) }
{
    let row = rows.get(index);
    let inside = first_in_part(alloc, targets, part, held_by(row))?;
    match row {
        Some(row) => place_in_field(alloc, row, part, inside),
        None => Ok(inside.map(|_| String::new(alloc))),
    }
}

/// The place in the field of that row, seen from its node.
fn place_in_field(
    alloc: Global,
    row: &Row,
    part: &Part,
    inside: Option<String>,
) -> Result<Option<String>, OutOfMemory>
    ensures { IfOk result (λ place. option_map string_bytes place
        ≡ in_row (Some (row_view row.now)) (part_doc part.now)
        (option_map string_bytes inside)) }
{
    if row.presence.is_typescript() && !part.is_default(row.holds) {
        at(alloc, row.name())
    } else {
        place_below(alloc, row.name(), inside)
    }
}

/// The place in the first field of a node with these rows, seen from the node.
fn place_below_first(
    alloc: Global,
    rows: &[Row],
    inside: Option<String>,
) -> Result<Option<String>, OutOfMemory>
    ensures { IfOk result (λ place. option_map string_bytes place
        ≡ below_first (map row_view rows.now) (option_map string_bytes inside)) }
{
    match rows.first() {
        Some(row) => place_below(alloc, row.name(), inside),
        None => Ok(inside.map(|_| String::new(alloc))),
    }
}

/// Whether the node is one of these wrappers, where it cannot be opened.
fn is_kept(targets: &WrappedTargets, holds: Holds, node: &Node) -> bool
    ensures { result ≡ is_kept holds (node_doc node.now) node.now.id.0 (is_listed targets.now) }
{
    is_wrapped_target(holds, node) && targets.has(node.id)
}
