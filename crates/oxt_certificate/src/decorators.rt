//! Decorators that are left in a lowered tree.
ghost use Rattle.std.specs.Prelude.{◌≡◌, ℕ, is_some, option_map};
ghost use Rattle.oxt_certificate.specs.Decorators.{decorator_at, has_decorator, number_of, sought};
ghost use Rattle.oxt_tree.specs.View.{node_doc};

use oxt_grammar::holds::Row;
use oxt_grammar::kind::Kind;
use oxt_names::ids::NodeId;
use oxt_search::first::first_in;
use oxt_search::search::{Inside, Search, Visit};
use oxt_tree::tree::Node;

/// Whether a decorator stands in the program.
pub(crate) fn has_decorator(program: &Node) -> bool
    ensures { result ≡ has_decorator (node_doc program.now) }
{
    first_in(&Decorators, program, ()).is_some()
}

/// The search for decorators.
#[derive(Clone, Copy)]
struct Decorators;

impl Search for Decorators {
    type State = ();

    type Found = NodeId;

    ghost Seen = { ℕ };

    ghost view = { number_of };

    ghost sought = { λ _. sought };

    fn visit(&self, node: &Node, _state: ()) -> Visit<NodeId, ()> {
        Visit {
            found: decorator_at(node.kind, node.id),
            inside: Inside::Alike(()),
        }
    }

    fn in_field(&self, _state: (), _kind: Kind, _row: &Row) -> Option<()> {
        Some(())
    }
}

/// The node of that kind, if it is a decorator.
fn decorator_at(kind: Kind, node: NodeId) -> Option<NodeId>
    ensures { option_map number_of result ≡ decorator_at kind node.0 }
{
    if kind.is(Kind::Decorator) {
        Some(node)
    } else {
        None
    }
}
