//! The parts of a class, and their decorators.
ghost use Rattle.std.specs.Prelude.{◌≡◌};
ghost use Rattle.std.specs.List.{list_any};
ghost use Rattle.oxt_declares.specs.Calls.{decorates_parameter, elements_of, has_any, has_decorator, is_constructor, parameters_of};
ghost use Rattle.oxt_grammar.specs.Keys.{key_of};
ghost use Rattle.oxt_tree.specs.Fields.{field_of};
ghost use Rattle.oxt_tree.specs.View.{doc_or_nil, docs_in, node_doc, part_doc};

use oxt_grammar::field::Field;
use oxt_grammar::kind::Kind;
use oxt_tree::tree::{Node, Part};

/// The elements of the class.
pub fn elements_of(class: &Node) -> &[Part]
    ensures { docs_in result.now ≡ elements_of (node_doc class.now) }
{
    match class.field(Field::Body) {
        Some(body) => body.list(Field::Body),
        None => &[],
    }
}

/// The parameters of the method but for the one that takes the rest.
pub fn parameters_of(method: &Node) -> &[Part]
    ensures { docs_in result.now ≡ parameters_of (node_doc method.now) }
{
    match field_in(method.field(Field::Value), Field::Params) {
        Some(parameters) => parameters.list(Field::Items),
        None => &[],
    }
}

/// What that field of the part holds, if there is one.
fn field_in(part: Option<&Part>, field: Field) -> Option<&Part>
    ensures { doc_or_nil result ≡ field_of (key_of field) (doc_or_nil part.entry) }
{
    match part {
        Some(part) => part.field(field),
        None => None,
    }
}

/// Whether the element is a constructor that has a body.
pub fn is_constructor(element: &Node) -> bool
    ensures { result ≡ is_constructor (node_doc element.now) }
{
    element.kind.is(Kind::MethodDefinition)
        && (element.holds_text(Field::Kind, "constructor")
            && element.holds_kind(Field::Value, Kind::FunctionExpression))
}

/// Whether the class, the element or the parameter has a decorator.
pub fn has_decorator(node: &Node) -> bool
    ensures { result ≡ has_decorator (node_doc node.now) }
{
    has_any(node.list(Field::Decorators))
}

/// Whether there is a part.
pub fn has_any(parts: &[Part]) -> bool
    ensures { result ≡ has_any (docs_in parts.now) }
{
    match parts.split_first() {
        Some(_) => true,
        None => false,
    }
}

/// Whether one of the parameters of the method has a decorator.
#[tactic(auto, using(oxt_tree::proofs::Lists::list_any_docs_in))]
pub fn decorates_parameter(method: &Node) -> bool
    ensures { result ≡ decorates_parameter (node_doc method.now) }
{
    is_any_decorated(parameters_of(method))
}

/// Whether one of the parts has a decorator.
fn is_any_decorated(parts: &[Part]) -> bool
    ensures { result ≡ list_any (λ part. has_decorator (part_doc part)) parts.now }
{
    parts.iter().any(|part| is_decorated_part(part))
}

/// Whether the part has a decorator.
fn is_decorated_part(part: &Part) -> bool
    ensures { result ≡ has_decorator (part_doc part.now) }
{
    match part {
        Part::Node(node) => has_decorator(node),
        _ => false,
    }
}
