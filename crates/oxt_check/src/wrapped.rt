//! Which wrappers cannot be opened where they stand.
ghost use Rattle.std.specs.Prelude.{◌≡◌, option_map};
ghost use Rattle.oxt_check.specs.Targets.{held_by, is_closed_wrapper, is_wrapped_target};
ghost use Rattle.oxt_grammar.specs.Field.{row_view};
ghost use Rattle.oxt_tree.specs.View.{node_doc};

use oxt_grammar::category::Category;
use oxt_grammar::holds::{Holds, Row};
use oxt_inline::target::holds_target;
use oxt_tree::tree::Node;

/// Whether the node is a wrapper where something is assigned, around neither an identifier nor a member, by what
/// the field holds in which it stands or in whose list.
#[inline(always)]
pub fn is_wrapped_target(holds: Holds, node: &Node) -> bool
    ensures { result ≡ is_wrapped_target holds (node_doc node.now) }
{
    holds_target(holds) && is_closed_wrapper(node)
}

/// Whether the node is a wrapper around neither an identifier nor a member.
fn is_closed_wrapper(node: &Node) -> bool
    ensures { result ≡ is_closed_wrapper (node_doc node.now) }
{
    Category::Wrapper.contains(node.kind)
        && !Category::SimpleAssignmentTarget.contains(node.get_inner_expression().kind)
}

/// What a field with that row holds; what has no row stands where nothing is assigned.
pub fn held_by(row: Option<&Row>) -> Holds
    ensures { result ≡ held_by (option_map (λ row. row_view row.now) row.entry) }
{
    match row {
        Some(row) => row.holds,
        None => Holds::Flag,
    }
}
