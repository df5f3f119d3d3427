//! What a search asks of each node.
//!
//! A state is handed down from a node to those in it: what stands around them, as far as the search has to know.
//! Tables that it looks into are its own fields, by reference. Its definition is one record, `sought`; what
//! `first_in` and `all_in` answer follows from that, so that no search has a recursion or a proof of its own.
ghost use Rattle.std.specs.Prelude.{◌≡◌, option_map};
ghost use Rattle.oxt_search.specs.Sought.{Sought, holds_nodes};
ghost use Rattle.oxt_grammar.specs.Field.{row_view};
ghost use Rattle.oxt_tree.specs.View.{docs_in, part_doc};

use oxt_grammar::holds::Row;
use oxt_grammar::kind::Kind;
pub use oxt_tree::inside::Inside;
use oxt_tree::tree::{Node, Part};

/// What a search says of a node.
pub struct Visit<F, S> {
    /// What the node gives.
    pub found: Option<F>,
    /// How the search goes on inside it.
    pub inside: Inside<S>,
}

/// A search over the tree.
pub trait Search {
    /// What is handed down to a node.
    type State: Copy;

    /// What nodes give.
    type Found: Drop;

    /// What they give, as contracts see it.
    ghost Seen: { Type 0 };

    ghost view: { Self.Found → Seen };

    /// What is sought.
    ghost sought: { Self → Sought Self.State Seen };

    /// What the node gives, which is reached in that state, and how the search goes on inside it.
    fn visit(&self, node: &Node, state: Self::State) -> Visit<Self::Found, Self::State>
        ensures found { option_map view result.found
            ≡ (sought self.now).at state node.now.kind node.now.id.0 (docs_in node.now.parts.items) }
        ensures inside { result.inside
            ≡ (sought self.now).inside state node.now.kind node.now.id.0 (docs_in node.now.parts.items) };

    /// The state in which a field of a node of that kind is reached, where the search goes on by field: none where
    /// the field is left out.
    fn in_field(&self, state: Self::State, kind: Kind, row: &Row) -> Option<Self::State>
        ensures { result ≡ (sought self.now).in_field state kind (row_view row.now) };
}

/// Whether nodes may stand in the part: whether it is a node or a list. In any other a search finds nothing, so it need not be
/// asked how it goes on there.
#[inline(always)]
pub fn holds_nodes(part: &Part) -> bool
    ensures { result ≡ holds_nodes (part_doc part.now) }
{
    match part {
        Part::Node(_) => true,
        Part::List(_) => true,
        _ => false,
    }
}
