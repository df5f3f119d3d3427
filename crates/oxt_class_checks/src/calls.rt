//! Calls of `super` in constructors.
ghost use Rattle.std.specs.Prelude.{◌≡◌, ℕ, Some, codes, option_map};
ghost use Rattle.oxt_class_checks.specs.Calls.{bare_call, bare_calls, call_number, calls_once, first_call, has_other, is_alone, number_of, other_call, other_calls};
ghost use Rattle.oxt_fields.specs.Classes.{is_super_call};
ghost use Rattle.oxt_tree.specs.Fields.{field_of};
ghost use Rattle.oxt_tree.specs.View.{doc_or_nil, docs_in, node_doc};

use oxt_faults::reach::{Reach, reach_of};
use oxt_faults::silent::{is_silent, silent_inside};
use oxt_fields::class::statements_of;
use oxt_grammar::field::Field;
use oxt_grammar::holds::Row;
use oxt_grammar::kind::Kind;
use oxt_names::ids::NodeId;
use oxt_search::first::{first_among, first_in};
use oxt_search::search::{Inside, Search, Visit};
use oxt_tree::tree::{Node, Part};

/// Whether the constructor calls `super` once in its parameters and its body, and the call is a statement of the body by
/// itself. Calls are counted through arrows and through what stands around the elements of a class, but neither in
/// erased code and types, nor in other functions, the values of fields and static blocks. Under `legacy` the decorators of
/// a field with `declare` are not erased.
pub fn calls_once(legacy: bool, method: &Node) -> bool
    ensures { result ≡ calls_once legacy (node_doc method.now) }
{
    match first_call(statements_of(method)) {
        Some(call) => is_alone(legacy, method, call),
        None => false,
    }
}

/// Whether no other call of `super` stands in the parameters and the body of the method.
fn is_alone(legacy: bool, method: &Node, call: NodeId) -> bool
    ensures { result ≡ is_alone legacy (field_of (codes "value") (node_doc method.now)) (Some call.0) }
{
    match method.field(Field::Value) {
        Some(function) => {
            !has_other(legacy, call, function.field(Field::Params))
                && !has_other(legacy, call, function.field(Field::Body))
        }
        None => true,
    }
}

/// Whether another call of `super` stands at the level of the part.
fn has_other(legacy: bool, call: NodeId, part: Option<&Part>) -> bool
    ensures { result ≡ has_other legacy call.0 (doc_or_nil part.entry) }
{
    let calls = OtherCalls { legacy, call };
    match part {
        Some(Part::Node(node)) => first_in(&calls, node, Reach::Level).is_some(),
        Some(Part::List(parts)) => first_among(&calls, parts.as_slice(), Reach::Level).is_some(),
        _ => false,
    }
}

/// The first call of `super` that is one of the statements by itself.
fn first_call(statements: &[Part]) -> Option<NodeId>
    ensures { option_map number_of result ≡ first_call (docs_in statements.now) }
{
    first_among(&BareCalls, statements, ())
}

/// The search for such calls, which looks into no statement.
#[derive(Clone, Copy)]
struct BareCalls;

impl Search for BareCalls {
    type State = ();

    type Found = NodeId;

    ghost Seen = { ℕ };

    ghost view = { number_of };

    ghost sought = { λ _. bare_calls };

    fn visit(&self, node: &Node, _state: ()) -> Visit<NodeId, ()> {
        Visit {
            found: bare_call(node),
            inside: Inside::Skipped,
        }
    }

    fn in_field(&self, _state: (), _kind: Kind, _row: &Row) -> Option<()> {
        None
    }
}

/// The call of `super`, if the node is a statement that is nothing else.
fn bare_call(node: &Node) -> Option<NodeId>
    ensures { option_map number_of result ≡ bare_call node.now.kind (docs_in node.now.parts.items) }
{
    if node.kind.is(Kind::ExpressionStatement) {
        call_number(node.field(Field::Expression))
    } else {
        None
    }
}

/// The number of the part, if it is a call of `super`.
fn call_number(part: Option<&Part>) -> Option<NodeId>
    ensures { option_map number_of result ≡ call_number (doc_or_nil part.entry) }
{
    match part {
        Some(Part::Node(node)) => {
            if is_super_call(node) {
                Some(node.id)
            } else {
                None
            }
        }
        _ => None,
    }
}

/// The search for the calls of `super` that stand at a level beside one.
#[derive(Clone, Copy)]
struct OtherCalls {
    /// Whether decorators have TypeScript's older meaning.
    legacy: bool,
    /// The number of that one.
    call: NodeId,
}

impl Search for OtherCalls {
    type State = Reach;

    type Found = NodeId;

    ghost Seen = { ℕ };

    ghost view = { number_of };

    ghost sought = { λ search. other_calls search.legacy search.call.0 };

    fn visit(&self, node: &Node, reach: Reach) -> Visit<NodeId, Reach> {
        if is_silent(reach, node) {
            Visit {
                found: None,
                inside: silent_inside(self.legacy, reach, node, Reach::Level),
            }
        } else {
            Visit {
                found: other_call(self.call, node),
                inside: Inside::ByField(reach),
            }
        }
    }

    fn in_field(&self, reach: Reach, kind: Kind, row: &Row) -> Option<Reach> {
        Some(reach_of(reach, kind, row))
    }
}

/// The node, if it is another call of `super`.
fn other_call(call: NodeId, node: &Node) -> Option<NodeId>
    ensures { option_map number_of result
        ≡ other_call call.0 node.now.kind node.now.id.0 (docs_in node.now.parts.items) }
{
    if is_super_call(node) && node.id.0 != call.0 {
        Some(node.id)
    } else {
        None
    }
}

/// Whether the node calls `super`.
fn is_super_call(node: &Node) -> bool
    ensures { result ≡ is_super_call (node_doc node.now) }
{
    node.kind.is(Kind::CallExpression) && node.holds_kind(Field::Callee, Kind::Super)
}
