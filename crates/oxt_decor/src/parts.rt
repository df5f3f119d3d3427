//! Parts of classes and of their elements, to be taken or changed in their places.

use oxt_ctx::parts::{child_mut, list_mut};
use oxt_grammar::field::Field;
use oxt_tree::tree::{Node, Part};
use std::alloc::Global;
use std::mem;

/// The elements of the class.
pub fn elements_mut<'a>(class: &'a mut Node) -> Option<&'a mut Vec<Part>> {
    list_mut(child_mut(class, Field::Body)?, Field::Body)
}

/// The parameters of the method but for the one that takes the rest.
pub fn parameters_mut<'a>(method: &'a mut Node) -> Option<&'a mut Vec<Part>> {
    let function = child_mut(method, Field::Value)?;
    list_mut(child_mut(function, Field::Params)?, Field::Items)
}

/// Takes the elements of the list that the field holds. An empty list stays in its place.
pub fn take_list(alloc: Global, node: &mut Node, field: Field) -> Vec<Part> {
    match list_mut(node, field) {
        Some(list) => mem::replace(list, Vec::new(alloc)),
        None => Vec::new(alloc),
    }
}

/// The node that the part is, if it is one.
pub fn as_node(part: Part) -> Option<Node> {
    match part {
        Part::Node(node) => Some(node),
        _ => None,
    }
}
