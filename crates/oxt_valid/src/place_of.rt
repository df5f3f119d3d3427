//! The place of a node, by its number.
ghost use Rattle.std.specs.Prelude.{◌≡◌, IfOk, map, option_map, string_bytes};
ghost use Rattle.std.specs.Fmt.{decimal};
ghost use Rattle.oxt_valid.specs.Place.{place_among, place_below, place_in, place_of};
ghost use Rattle.oxt_grammar.specs.Field.{row_view};
ghost use Rattle.oxt_names.specs.Names.{name_bytes};
ghost use Rattle.oxt_valid.specs.Pointer.{at_key};
ghost use Rattle.oxt_tree.specs.View.{docs_in, node_doc, part_doc};

use crate::place::{place_below, place_below_index};
use oxt_grammar::holds::Row;
use oxt_names::ids::{NodeId, OutOfMemory};
use oxt_names::name::Name;
use oxt_tree::tree::{Node, Part};
use std::alloc::Global;

/// The JSON pointer of the first node with that number in the tree, where a node stands before those in its
/// fields, and these in the order of the rows of its kind; none where no node has the number.
pub fn place_of(alloc: Global, program: &Node, number: NodeId) -> Result<Option<Name>, OutOfMemory>
    ensures { IfOk result (λ place. option_map name_bytes place ≡ place_of number.0 (node_doc program.now)) }
{
    match place_in_node(alloc, program, number)? {
        Some(place) => Ok(Some(Name::from_string(place)?)),
        None => Ok(None),
    }
}

/// The place in the node.
#[cycle(place)]
fn place_in_node(alloc: Global, node: &Node, number: NodeId) -> Result<Option<String>, OutOfMemory>
    ensures { IfOk result
        (λ place. option_map string_bytes place ≡ place_in (node_doc node.now) number.0) }
{
    if node.id.0 == number.0 {
        return Ok(Some(String::new(alloc)));
    }
    place_in_fields(alloc, node.kind.rows(), node.parts.as_slice(), number)
}

/// The place in the part.
#[cycle(place)]
fn place_in_part(alloc: Global, part: &Part, number: NodeId) -> Result<Option<String>, OutOfMemory>
    ensures { IfOk result
        (λ place. option_map string_bytes place ≡ place_in (part_doc part.now) number.0) }
{
    match part {
        Part::Node(node) => place_in_node(alloc, node, number),
        Part::List(parts) => place_in_list(alloc, parts.as_slice(), number),
        _ => Ok(None),
    }
}

/// The place in the elements of a list.
#[tactic(auto, using(crate::proofs::Search::among_more, crate::proofs::Search::among_done))]
#[cycle(place)]
fn place_in_list(
    alloc: Global,
    parts: &[Part],
    number: NodeId,
) -> Result<Option<String>, OutOfMemory>
    ensures { IfOk result
        (λ place. option_map string_bytes place ≡ place_among (docs_in parts.now) number.0 0) }
{
    for i in 0..parts.len() {
        let inside = place_in_part(alloc, &parts[i], number)?;
        if let Some(place) = place_below_index(alloc, i, inside)? {
            return Ok(Some(place));
        }
    }
    Ok(None)
}

/// The place in the fields of a node with these rows.
#[tactic(auto, using(crate::proofs::Search::below_more, crate::proofs::Search::below_done))]
#[cycle(place)]
fn place_in_fields(
    alloc: Global,
    rows: &[Row],
    parts: &[Part],
    number: NodeId,
) -> Result<Option<String>, OutOfMemory>
    ensures { IfOk result (λ place. option_map string_bytes place
        ≡ place_below (docs_in parts.now) number.0 (map row_view rows.now)) }
{
    for i in 0..rows.len().min(parts.len()) {
        let inside = place_in_part(alloc, &parts[i], number)?;
        if let Some(place) = place_below(alloc, rows[i].name(), inside)? {
            return Ok(Some(place));
        }
    }
    Ok(None)
}
