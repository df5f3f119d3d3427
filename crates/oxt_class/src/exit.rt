//! Empty fields that are dropped.

use crate::elements::elements_mut;
use oxt_ctx::context::TraverseCtx;
use oxt_ctx::keys::key_needs_temp_var;
use oxt_grammar::field::Field;
use oxt_grammar::kind::Kind;
use oxt_tree::tree::{Node, Part};

/// Drops the fields of the class that have no value and are not private, if empty fields are dropped. Where
/// fields are defined, one stays whose key, as it stands by now, has to be computed.
pub fn transform_class_on_exit(class: &mut Node, drop_empty: bool, ctx: &TraverseCtx) {
    if drop_empty {
        if let Some(elements) = elements_mut(class) {
            drop_empties(elements, ctx);
        }
    }
}

/// Drops those among the elements.
fn drop_empties(elements: &mut Vec<Part>, ctx: &TraverseCtx) {
    elements.retain(|element| !is_dropped(element, ctx));
}

/// Whether the element is such a field.
fn is_dropped(element: &Part, ctx: &TraverseCtx) -> bool {
    match element {
        Part::Node(node) => is_empty_field(node) && is_dispensable(node.child(Field::Key), ctx),
        _ => false,
    }
}

/// Whether the element is a field without a value.
fn is_empty_field(element: &Node) -> bool {
    element.kind.is(Kind::PropertyDefinition) && element.lacks(Field::Value)
}

/// Whether an empty field with that key goes.
fn is_dispensable(key: Option<&Node>, ctx: &TraverseCtx) -> bool {
    match key {
        Some(key) if key.kind.is(Kind::PrivateIdentifier) => false,
        Some(key) if key.kind.is(Kind::IdentifierName) => true,
        Some(key) => ctx.state.set_public_class_fields || !key_needs_temp_var(key, ctx),
        None => false,
    }
}
