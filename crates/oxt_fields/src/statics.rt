//! The static parts of a class.
ghost use Rattle.std.specs.Prelude.{◌≡◌};
ghost use Rattle.std.specs.List.{list_any};
ghost use Rattle.oxt_fields.specs.Statics.{has_static_accessor, has_static_part, is_static_accessor, is_static_kind, is_static_part};
ghost use Rattle.oxt_tree.specs.View.{docs_in, node_doc, part_doc};

use oxt_declares::dropped::is_dropped;
use oxt_grammar::field::Field;
use oxt_grammar::kind::Kind;
use oxt_tree::tree::{Node, Part};

/// Whether one of the elements is a static accessor.
#[tactic(auto, using(oxt_tree::proofs::Lists::list_any_docs_in))]
pub fn has_static_accessor(elements: &[Part]) -> bool
    ensures { result ≡ has_static_accessor (docs_in elements.now) }
{
    is_any_static_accessor(elements)
}

/// Whether one of the elements is such.
fn is_any_static_accessor(elements: &[Part]) -> bool
    ensures { result ≡ list_any (λ part. is_static_accessor (part_doc part)) elements.now }
{
    elements
        .iter()
        .any(|element| is_static_accessor_part(element))
}

/// Whether the part is a static accessor.
fn is_static_accessor_part(element: &Part) -> bool
    ensures { result ≡ is_static_accessor (part_doc element.now) }
{
    match element {
        Part::Node(node) => is_static_accessor(node),
        _ => false,
    }
}

/// Whether the element is a static accessor.
pub fn is_static_accessor(element: &Node) -> bool
    ensures { result ≡ is_static_accessor (node_doc element.now) }
{
    element.kind.is(Kind::AccessorProperty) && element.flag(Field::Static)
}

/// Whether a class with these elements has a static part of its own: a field, a block or an accessor, outside erased code.
#[tactic(auto, using(oxt_tree::proofs::Lists::list_any_docs_in))]
pub fn has_static_part(elements: &[Part]) -> bool
    ensures { result ≡ has_static_part (docs_in elements.now) }
{
    is_any_static_part(elements)
}

/// Whether one of the elements is such.
fn is_any_static_part(elements: &[Part]) -> bool
    ensures { result ≡ list_any (λ part. is_static_part (part_doc part)) elements.now }
{
    elements.iter().any(|element| is_static_part(element))
}

/// Whether the element is a static field, block or accessor that is not erased.
fn is_static_part(element: &Part) -> bool
    ensures { result ≡ is_static_part (part_doc element.now) }
{
    match element {
        Part::Node(node) => !is_dropped(node) && is_static_kind(node),
        _ => false,
    }
}

/// Whether the element is a static field, block or accessor.
fn is_static_kind(element: &Node) -> bool
    ensures { result ≡ is_static_kind (node_doc element.now) }
{
    element.kind.is(Kind::StaticBlock)
        || ((element.kind.is(Kind::PropertyDefinition) || element.kind.is(Kind::AccessorProperty))
            && element.flag(Field::Static))
}
