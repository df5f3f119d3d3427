//! Wrappers around expressions.

use oxt_grammar::category::Category;
use oxt_tree::tree::Node;

/// Puts in the place of a wrapper the innermost expression in it, through wrappers and parentheses.
pub fn open_wrapper(node: &mut Node) {
    if Category::Wrapper.contains(node.kind) {
        let alloc = *node.parts.allocator();
        let wrapper = node.take_expression(alloc);
        *node = wrapper.into_inner_expression();
    }
}

/// Does so where what is in the wrapper may be assigned to: a name or a member. A wrapper around
/// anything else stays.
pub fn open_target(node: &mut Node) {
    if Category::SimpleAssignmentTarget.contains(node.get_inner_expression().kind) {
        open_wrapper(node);
    }
}
