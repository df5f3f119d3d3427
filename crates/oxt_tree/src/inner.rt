//! What stands inside wrappers and parentheses.
ghost use Rattle.std.specs.Prelude.{◌≡◌};
ghost use Rattle.oxt_tree.specs.Inner.{holds_inner, inner_expression, seen};
ghost use Rattle.oxt_tree.specs.View.{docs_in, node_doc, part_doc};

use crate::tree::{Node, Part};
use oxt_grammar::category::Category;

impl Node {
    /// The expression inside the wrappers and parentheses that the node is; the node itself where
    /// it is neither.
    pub fn get_inner_expression(&self) -> &Node
        ensures { node_doc result.now ≡ inner_expression (node_doc self.now) }
    {
        match self.parts.first() {
            Some(Part::Node(inner)) if Category::Transparent.contains(self.kind) => {
                inner.get_inner_expression()
            }
            _ => self,
        }
    }

    /// The expression inside the wrappers and parentheses that the node is, which are dropped; the
    /// node itself where it is neither.
    #[tactic(auto, using(crate::proofs::Insides::unwrapped))]
    pub fn into_inner_expression(mut self) -> Node
        ensures { node_doc result ≡ inner_expression (node_doc self) }
    {
        if !Category::Transparent.contains(self.kind) {
            return self;
        }
        let Some(Part::Node(_)) = self.parts.first() else {
            return self;
        };
        match self.parts.swap_remove(0) {
            Part::Node(inner) => inner.into_inner_expression(),
            _ => unreachable!(),
        }
    }

    /// The expression inside the wrappers and parentheses that the node is, to be changed in its
    /// place; the node itself where it is neither.
    pub fn get_inner_expression_mut(&mut self) -> &mut Node
        ensures { node_doc result.now ≡ inner_expression (node_doc self.old) }
    {
        if !self.holds_inner() {
            return self;
        }
        match &mut self.parts[0] {
            Part::Node(inner) => inner.get_inner_expression_mut(),
            _ => unreachable!(),
        }
    }

    /// Whether it is a wrapper or parentheses around a node.
    fn holds_inner(&self) -> bool
        ensures { result ≡ holds_inner self.now.kind (docs_in self.now.parts.items) }
    {
        match self.parts.first() {
            Some(Part::Node(_)) => Category::Transparent.contains(self.kind),
            _ => false,
        }
    }
}

impl Part {
    /// What stands inside the wrappers and parentheses that the part is; the part itself where it
    /// is neither.
    pub fn seen(&self) -> &Part
        ensures { part_doc result.now ≡ seen (part_doc self.now) }
    {
        match self {
            Part::Node(node) if Category::Transparent.contains(node.kind) => {
                match node.parts.first() {
                    Some(inner) => inner.seen(),
                    None => self,
                }
            }
            _ => self,
        }
    }
}
