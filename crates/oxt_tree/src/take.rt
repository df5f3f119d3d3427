//! Taking nodes out of their places.
ghost use Rattle.std.specs.Prelude.{◌≡◌};
ghost use Rattle.oxt_tree.specs.Doc.{nil};
ghost use Rattle.oxt_tree.specs.Taken.{null_literal, empty_statement, bare};
ghost use Rattle.oxt_tree.specs.View.{node_doc, part_doc};

use crate::tree::{Node, Part};
use oxt_grammar::kind::Kind;
use oxt_names::ids::{NodeId, Span};
use std::alloc::Global;
use std::mem;

impl Node {
    /// A node of a kind that has no fields, numbered 0.
    fn bare(alloc: Global, kind: Kind) -> Node
        ensures { node_doc result ≡ bare kind }
    {
        Node {
            kind,
            id: NodeId(0),
            span: Span::NONE,
            parts: Vec::new(alloc),
        }
    }

    /// Takes the expression. A `null` numbered 0 stays in its place.
    pub fn take_expression(&mut self, alloc: Global) -> Node
        ensures taken { node_doc result ≡ node_doc self.old }
        ensures left { node_doc self.new ≡ null_literal }
    {
        mem::replace(self, Node::bare(alloc, Kind::NullLiteral))
    }

    /// Takes the statement. An empty statement numbered 0 stays in its place.
    pub fn take_statement(&mut self, alloc: Global) -> Node
        ensures taken { node_doc result ≡ node_doc self.old }
        ensures left { node_doc self.new ≡ empty_statement }
    {
        mem::replace(self, Node::bare(alloc, Kind::EmptyStatement))
    }
}

impl Part {
    /// Takes the part. Null stays in its place.
    pub fn take(&mut self) -> Part
        ensures taken { part_doc result ≡ part_doc self.old }
        ensures left { part_doc self.new ≡ nil }
    {
        mem::replace(self, Part::Nothing)
    }
}
