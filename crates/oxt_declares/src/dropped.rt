//! Declarations and class elements that stand for nothing at run time.
ghost use Rattle.std.specs.Prelude.{◌≡◌};
ghost use Rattle.oxt_declares.specs.Dropped.{inside_dropped_by, is_declared_field, is_droppable, is_dropped, is_namespace_of_types, keeps_decorators};
ghost use Rattle.oxt_tree.specs.View.{docs_in, node_doc, part_doc};

use crate::types_alone::is_node_of_types;
use oxt_grammar::category::Category;
use oxt_grammar::field::Field;
use oxt_grammar::kind::Kind;
use oxt_tree::inside::Inside;
use oxt_tree::tree::{Node, Part};

/// Whether the node is a declaration or an element of a class that stands for nothing at run time: by
/// its kind, by `declare` or `type`, for want of a body, or as a namespace of types alone.
#[inline(always)]
pub fn is_dropped(node: &Node) -> bool
    ensures { result ≡ is_dropped (node_doc node.now) }
{
    is_droppable(node.kind) && (node.is_erased() || is_namespace_of_types(node))
}

/// Whether the node is a block of a namespace that holds nothing but types.
fn is_namespace_of_types(node: &Node) -> bool
    ensures { result ≡ is_namespace_of_types node.now.kind (docs_in node.now.parts.items) }
{
    node.kind.is(Kind::TSNamespaceDeclaration) && is_node_of_types(node)
}

/// How a search goes on inside such a node: not at all, but for the decorators of a field that is only declared, which are
/// not erased with it where decorators have their older meaning. These are reached in that state.
pub fn inside_dropped<S: Copy>(legacy: bool, node: &Node, state: S) -> Inside<S>
    ensures { result ≡ inside_dropped_by legacy node.now.kind (docs_in node.now.parts.items) state }
{
    if keeps_decorators(legacy, node) {
        Inside::Only(Field::Decorators, state)
    } else {
        Inside::Skipped
    }
}

/// Whether the decorators of the node outlive it: it is a field that is only declared, and `legacy` says that decorators have
/// their older meaning.
pub fn keeps_decorators(legacy: bool, node: &Node) -> bool
    ensures { result ≡ keeps_decorators legacy node.now.kind (docs_in node.now.parts.items) }
{
    legacy && is_declared_field(node)
}

/// Whether the node is a field that is only declared.
pub fn is_declared_field(node: &Node) -> bool
    ensures { result ≡ is_declared_field node.now.kind (docs_in node.now.parts.items) }
{
    node.kind.is(Kind::PropertyDefinition) && node.flag(Field::Declare)
}

/// Whether the part is such a node.
pub fn part_is_dropped(part: &Part) -> bool
    ensures { result ≡ is_dropped (part_doc part.now) }
{
    match part {
        Part::Node(node) => is_dropped(node),
        _ => false,
    }
}

/// Whether nodes of the kind are declarations or elements of classes.
pub fn is_droppable(kind: Kind) -> bool
    ensures { result ≡ is_droppable kind }
{
    Category::Declaration.contains(kind) || Category::ClassElement.contains(kind)
}
