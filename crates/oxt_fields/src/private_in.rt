//! Decorators that ask for private names.
ghost use Rattle.std.specs.Prelude.{◌≡◌, ℕ, option_map};
ghost use Rattle.std.specs.List.{list_any};
ghost use Rattle.oxt_fields.specs.PrivateIn.{asks, asks_inside, hold_private_in, holds_private_in, is_declared, live_inside, number_of, private_in_at, private_ins};
ghost use Rattle.oxt_tree.specs.View.{docs_in, node_doc, part_doc};

use oxt_declares::class::{elements_of, parameters_of};
use oxt_declares::dropped::{inside_dropped, is_dropped};
use oxt_grammar::field::Field;
use oxt_grammar::holds::Row;
use oxt_grammar::kind::Kind;
use oxt_names::ids::NodeId;
use oxt_search::first::first_among;
use oxt_search::search::{Inside, Search, Visit};
use oxt_tree::tree::{Node, Part};

/// Whether a decorator of the class, of one of its elements outside erased code, or of a parameter of such an element holds
/// `#x in o` outside erased code.
#[tactic(auto, using(oxt_tree::proofs::Lists::list_any_docs_in))]
pub fn holds_private_in(class: &Node) -> bool
    ensures { result ≡ holds_private_in (node_doc class.now) }
{
    asks(class) || is_any_asking(elements_of(class))
}

/// Whether one of the elements has a decorator, or a parameter with one, that does.
fn is_any_asking(elements: &[Part]) -> bool
    ensures { result ≡ list_any (λ part. asks_inside (part_doc part)) elements.now }
{
    elements.iter().any(|element| asks_inside_part(element))
}

/// Whether the part is such an element.
fn asks_inside_part(element: &Part) -> bool
    ensures { result ≡ asks_inside (part_doc element.now) }
{
    match element {
        Part::Node(node) => asks_inside(node),
        _ => false,
    }
}

/// Whether the element is not erased, or only declared, and has a decorator, or a parameter with one, that does.
#[tactic(auto, using(oxt_tree::proofs::Lists::list_any_docs_in))]
fn asks_inside(element: &Node) -> bool
    ensures { result ≡ asks_inside (node_doc element.now) }
{
    (!is_dropped(element) || is_declared(element))
        && (asks(element)
            || (element.kind.is(Kind::MethodDefinition)
                && is_any_parameter_asking(parameters_of(element))))
}

/// Whether the element is a field that is only declared.
fn is_declared(element: &Node) -> bool
    ensures { result ≡ is_declared (node_doc element.now) }
{
    element.kind.is(Kind::PropertyDefinition) && element.flag(Field::Declare)
}

/// Whether one of the parameters has a decorator that does.
fn is_any_parameter_asking(parameters: &[Part]) -> bool
    ensures { result ≡ list_any (λ part. asks (part_doc part)) parameters.now }
{
    parameters.iter().any(|parameter| asks_part(parameter))
}

/// Whether the part has a decorator that does.
fn asks_part(parameter: &Part) -> bool
    ensures { result ≡ asks (part_doc parameter.now) }
{
    match parameter {
        Part::Node(node) => asks(node),
        _ => false,
    }
}

/// Whether one of the decorators of the class, the element or the parameter does.
fn asks(node: &Node) -> bool
    ensures { result ≡ asks (node_doc node.now) }
{
    hold_private_in(node.list(Field::Decorators))
}

/// Whether one of the decorators holds `#x in o` outside erased code.
fn hold_private_in(decorators: &[Part]) -> bool
    ensures { result ≡ hold_private_in (docs_in decorators.now) }
{
    first_among(&PrivateIns, decorators, ()).is_some()
}

/// The node of that kind, if it is `#x in o`.
fn private_in_at(kind: Kind, node: NodeId) -> Option<NodeId>
    ensures { option_map number_of result ≡ private_in_at kind node.0 }
{
    if kind.is(Kind::PrivateInExpression) {
        Some(node)
    } else {
        None
    }
}

/// How the search goes on inside the node.
fn inside_of(node: &Node) -> Inside<()>
    ensures { result ≡ live_inside node.now.kind (docs_in node.now.parts.items) }
{
    if is_dropped(node) {
        inside_dropped(true, node, ())
    } else {
        Inside::Alike(())
    }
}

/// The search for `#x in o` outside erased code.
#[derive(Clone, Copy)]
struct PrivateIns;

impl Search for PrivateIns {
    type State = ();

    type Found = NodeId;

    ghost Seen = { ℕ };

    ghost view = { number_of };

    ghost sought = { λ _. private_ins };

    fn visit(&self, node: &Node, _state: ()) -> Visit<NodeId, ()> {
        Visit {
            found: private_in_at(node.kind, node.id),
            inside: inside_of(node),
        }
    }

    fn in_field(&self, _state: (), _kind: Kind, _row: &Row) -> Option<()> {
        Some(())
    }
}
