//! The one type of nodes.

use oxt_grammar::kind::Kind;
use oxt_grammar::word::Word;
use oxt_names::ids::{NodeId, NodeIds, Span};
use oxt_names::name::Name;

/// A node of the tree. Its parts are its fields, in the order of the rows of its kind.
#[derive(Drop)]
#[cycle(tree)]
pub struct Node {
    /// What the node is.
    pub kind: Kind,
    /// Its number, by which nodes are told apart.
    pub id: NodeId,
    /// Where it stands in the source text.
    pub span: Span,
    /// What its fields hold, a part for each row of its kind.
    pub parts: Vec<Part>,
}

/// What a field or an element of a list holds.
#[derive(Drop)]
#[cycle(tree)]
pub enum Part {
    /// Null.
    Nothing,
    /// True or false.
    Flag(bool),
    /// A whole number.
    Number(u64),
    /// A text.
    Text(Name),
    /// One of the words of the grammar.
    Word(Word),
    /// A node.
    Node(Node),
    /// A list.
    List(Vec<Part>),
}

/// A whole tree, and where the numbers of further nodes come from.
#[derive(Drop)]
pub struct Program {
    /// The node of kind `Program`.
    pub root: Node,
    /// Numbers that no node of the tree has.
    pub ids: NodeIds,
}
