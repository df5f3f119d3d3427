//! The nodes of a tree.

use oxt_names::ids::OutOfMemory;
use oxt_tree::tree::{Node, Part};
use std::alloc::Global;

/// The nodes of the tree, each before those in it.
///
/// # Errors
///
/// Fails only where memory runs out.
pub fn nodes_of(alloc: Global, root: &Node) -> Result<Vec<&Node>, OutOfMemory> {
    let mut nodes = Vec::new(alloc);
    push_node(root, &mut nodes)?;
    Ok(nodes)
}

#[cycle(nodes)]
fn push_node<'a>(node: &'a Node, nodes: &mut Vec<&'a Node>) -> Result<(), OutOfMemory> {
    nodes.push(node)?;
    push_each(&node.parts, nodes)
}

#[cycle(nodes)]
fn push_each<'a>(parts: &'a [Part], nodes: &mut Vec<&'a Node>) -> Result<(), OutOfMemory> {
    for part in parts {
        push_part(part, nodes)?;
    }
    Ok(())
}

#[cycle(nodes)]
fn push_part<'a>(part: &'a Part, nodes: &mut Vec<&'a Node>) -> Result<(), OutOfMemory> {
    match part {
        Part::Node(node) => push_node(node, nodes),
        Part::List(parts) => push_each(parts, nodes),
        _ => Ok(()),
    }
}
