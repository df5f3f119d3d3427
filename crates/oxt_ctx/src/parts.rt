//! Fields that a pass takes out, puts in or changes in their places.
ghost use Rattle.std.specs.Prelude.{◌≡◌, option_map};
ghost use Rattle.std.specs.List.{slice_get};
ghost use Rattle.oxt_ctx.specs.Parts.{lent_doc, list_of, with_field};
ghost use Rattle.oxt_grammar.specs.Keys.{key_of};
ghost use Rattle.oxt_tree.specs.Fields.{named, node_of};
ghost use Rattle.oxt_tree.specs.View.{doc_of_part, docs_in, node_doc, part_doc};

use oxt_grammar::field::Field;
use oxt_tree::fields::place_of;
use oxt_tree::tree::{Node, Part};

/// What the node holds in the field, to be changed in its place; none where it has no such field.
pub fn field_mut<'a>(node: &'a mut Node, field: Field) -> Option<&'a mut Part>
    ensures { lent_doc result
        ≡ named (key_of field) node.old.kind (docs_in node.old.parts.items) }
{
    match place_of(node.kind.rows(), field) {
        Some(place) => at_mut(node, place),
        None => None,
    }
}

/// What the node holds at that place, to be changed there; none where it has no such place.
fn at_mut<'a>(node: &'a mut Node, place: usize) -> Option<&'a mut Part>
    ensures { lent_doc result ≡ doc_of_part (slice_get node.old.parts.items place) }
{
    if place < node.parts.len() {
        Some(&mut node.parts[place])
    } else {
        None
    }
}

/// The node that the field holds, to be changed in its place.
pub fn child_mut<'a>(node: &'a mut Node, field: Field) -> Option<&'a mut Node>
    ensures { option_map (λ child. node_doc child.now) result
        ≡ node_of (named (key_of field) node.old.kind (docs_in node.old.parts.items)) }
{
    match field_mut(node, field) {
        Some(Part::Node(child)) => Some(child),
        _ => None,
    }
}

/// The list that the field holds, to be changed in its place.
pub fn list_mut<'a>(node: &'a mut Node, field: Field) -> Option<&'a mut Vec<Part>>
    ensures { option_map (λ list. docs_in list.now.items) result
        ≡ list_of (named (key_of field) node.old.kind (docs_in node.old.parts.items)) }
{
    match field_mut(node, field) {
        Some(Part::List(list)) => Some(list),
        _ => None,
    }
}

/// Puts the part into the field, if the node has such a field.
pub fn put_field(node: &mut Node, field: Field, part: Part)
    ensures { node_doc node.new ≡ with_field (key_of field) (part_doc part) (node_doc node.old) }
{
    if let Some(place) = place_of(node.kind.rows(), field) {
        if place < node.parts.len() {
            node.parts[place] = part;
        }
    }
}

/// Takes the node that the field holds, if it holds one. Null stays in its place.
pub fn take_node(node: &mut Node, field: Field) -> Option<Node>
    ensures { option_map node_doc result
        ≡ node_of (named (key_of field) node.old.kind (docs_in node.old.parts.items)) }
{
    match field_mut(node, field) {
        Some(part) => as_node(part.take()),
        None => None,
    }
}

/// The node that the part is, if it is one.
fn as_node(part: Part) -> Option<Node>
    ensures { option_map node_doc result ≡ node_of (part_doc part) }
{
    match part {
        Part::Node(node) => Some(node),
        _ => None,
    }
}
