//! Decorators that hold a private `in`.
ghost use Rattle.std.specs.Prelude.{◌≡◌, ℕ, option_map};
ghost use Rattle.oxt_faults.specs.PrivateIns.{holds_private_in, private_in, sought};
ghost use Rattle.oxt_faults.specs.Redeclared.{number_of};
ghost use Rattle.oxt_tree.specs.View.{docs_in};

use oxt_declares::dropped::{inside_dropped, is_dropped};
use oxt_grammar::holds::Row;
use oxt_grammar::kind::Kind;
use oxt_names::ids::NodeId;
use oxt_search::first::first_among;
use oxt_search::search::{Inside, Search, Visit};
use oxt_tree::tree::Node;

/// Whether a private `in` stands in the decorator at any depth, outside what is erased where decorators have their older
/// meaning.
pub fn holds_private_in(decorator: &Node) -> bool
    ensures { result ≡ holds_private_in (docs_in decorator.now.parts.items) }
{
    first_among(&PrivateIns, decorator.parts.as_slice(), ()).is_some()
}

/// The search for such expressions.
#[derive(Clone, Copy)]
struct PrivateIns;

impl Search for PrivateIns {
    type State = ();

    type Found = NodeId;

    ghost Seen = { ℕ };

    ghost view = { number_of };

    ghost sought = { λ _. sought };

    fn visit(&self, node: &Node, _state: ()) -> Visit<NodeId, ()> {
        if is_dropped(node) {
            Visit {
                found: None,
                inside: inside_dropped(true, node, ()),
            }
        } else {
            Visit {
                found: private_in(node),
                inside: Inside::Alike(()),
            }
        }
    }

    fn in_field(&self, _state: (), _kind: Kind, _row: &Row) -> Option<()> {
        Some(())
    }
}

/// The number of the node, if it is a private `in`.
fn private_in(node: &Node) -> Option<NodeId>
    ensures { option_map number_of result ≡ private_in node.now.kind node.now.id.0 }
{
    if node.kind.is(Kind::PrivateInExpression) {
        Some(node.id)
    } else {
        None
    }
}
