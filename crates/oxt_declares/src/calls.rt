//! Which elements of a class give calls behind it, and which classes are themselves decorated.
ghost use Rattle.std.specs.Prelude.{◌≡◌};
ghost use Rattle.std.specs.List.{list_any};
ghost use Rattle.oxt_declares.specs.Calls.{calls_any, is_called, is_decorated, is_decorating, is_plain_method};
ghost use Rattle.oxt_tree.specs.View.{docs_in, node_doc, part_doc};

use crate::class::{decorates_parameter, elements_of, has_decorator, is_constructor};
use oxt_grammar::field::Field;
use oxt_grammar::kind::Kind;
use oxt_tree::tree::{Node, Part};

/// Whether the element gives a call behind its class: a field, only declared or not, or an accessor, that has a decorator, or
/// a method with a body, no constructor, that has one or of which a parameter has one. None of them is abstract.
pub fn is_called(element: &Node) -> bool
    ensures { result ≡ is_called (node_doc element.now) }
{
    ((element.kind.is(Kind::PropertyDefinition) || element.kind.is(Kind::AccessorProperty))
        && has_decorator(element))
        || (is_plain_method(element) && (has_decorator(element) || decorates_parameter(element)))
}

/// Whether the element is a method that has a body and is no constructor.
fn is_plain_method(element: &Node) -> bool
    ensures { result ≡ is_plain_method (node_doc element.now) }
{
    element.kind.is(Kind::MethodDefinition)
        && (!element.holds_text(Field::Kind, "constructor")
            && element.holds_kind(Field::Value, Kind::FunctionExpression))
}

/// Whether one of the elements gives a call behind its class.
#[tactic(auto, using(oxt_tree::proofs::Lists::list_any_docs_in))]
pub fn calls_any(elements: &[Part]) -> bool
    ensures { result ≡ calls_any (docs_in elements.now) }
{
    is_any_called(elements)
}

/// Whether one of the elements gives a call.
fn is_any_called(elements: &[Part]) -> bool
    ensures { result ≡ list_any (λ part. is_called (part_doc part)) elements.now }
{
    elements.iter().any(|element| is_called_part(element))
}

/// Whether the part gives a call.
fn is_called_part(element: &Part) -> bool
    ensures { result ≡ is_called (part_doc element.now) }
{
    match element {
        Part::Node(node) => is_called(node),
        _ => false,
    }
}

/// Whether the class is itself decorated: a declaration that has a decorator, or whose constructor has a parameter with one.
/// Whether the class is erased is another question.
#[tactic(auto, using(oxt_tree::proofs::Lists::list_any_docs_in))]
pub fn is_decorated(class: &Node) -> bool
    ensures { result ≡ is_decorated (node_doc class.now) }
{
    class.kind.is(Kind::ClassDeclaration)
        && (has_decorator(class) || is_any_decorating(elements_of(class)))
}

/// Whether one of the elements is a constructor with a body, of which a parameter has a decorator.
fn is_any_decorating(elements: &[Part]) -> bool
    ensures { result ≡ list_any (λ part. is_decorating (part_doc part)) elements.now }
{
    elements.iter().any(|element| is_decorating(element))
}

/// Whether the element is such a constructor.
fn is_decorating(element: &Part) -> bool
    ensures { result ≡ is_decorating (part_doc element.now) }
{
    match element {
        Part::Node(node) => is_constructor(node) && decorates_parameter(node),
        _ => false,
    }
}
