//! What initializers are by their form alone.
ghost use Rattle.std.specs.Prelude.{◌≡◌, ◌||◌, codes};
ghost use Rattle.std.specs.List.{list_any};
ghost use Rattle.oxt_told.specs.Syntax.{is_calling, is_pure};
ghost use Rattle.oxt_tree.specs.Fields.{is_kind, named};
ghost use Rattle.oxt_tree.specs.View.{docs_in, part_doc};

use oxt_grammar::field::Field;
use oxt_grammar::kind::Kind;
use oxt_tree::tree::{Node, Part};

/// Whether none of the members has a call as its initializer.
#[tactic(auto, using(oxt_tree::proofs::Lists::list_any_docs_in))]
pub fn is_pure(members: &[Part]) -> bool
    ensures { result ≡ is_pure (docs_in members.now) }
{
    !has_calling(members)
}

/// Whether one of the members has a call as its initializer.
fn has_calling(members: &[Part]) -> bool
    ensures { result ≡ list_any (λ member. is_calling (part_doc member)) members.now }
{
    members.iter().any(|member| is_calling(member))
}

/// Whether the member's initializer is itself a call.
fn is_calling(member: &Part) -> bool
    ensures { result ≡ is_calling (part_doc member.now) }
{
    match member {
        Part::Node(node) => is_called(node),
        _ => false,
    }
}

/// Whether the node's initializer is itself a call.
fn is_called(node: &Node) -> bool
    ensures { result
        ≡ (is_kind Kind.CallExpression (named (codes "initializer") node.now.kind (docs_in node.now.parts.items))
        || is_kind Kind.NewExpression (named (codes "initializer") node.now.kind (docs_in node.now.parts.items))) }
{
    node.holds_kind(Field::Initializer, Kind::CallExpression)
        || node.holds_kind(Field::Initializer, Kind::NewExpression)
}
