//! Nodes that are made, and nodes that are read.

use crate::stopped::Stopped;
use oxt_grammar::field::Field;
use oxt_grammar::kind::Kind;
use oxt_json::read_tree;
use oxt_names::ids::{NodeId, Span};
use oxt_names::name::Name;
use oxt_tree::tree::{Node, Part, Program};
use std::alloc::Global;

/// A node without a place in a text.
pub fn node(kind: Kind, number: u64, parts: Vec<Part>) -> Node {
    Node {
        kind,
        id: NodeId(number),
        span: Span::NONE,
        parts,
    }
}

/// A node with that text in its first field.
pub fn named(alloc: Global, kind: Kind, number: u64, text: &str) -> Result<Node, Stopped> {
    let name = Name::new(alloc, text)?;
    let parts = vec![in alloc; Part::Text(name)]?;
    Ok(node(kind, number, parts))
}

/// The number as an expression.
pub fn literal(alloc: Global, value: u64) -> Result<Node, Stopped> {
    let parts = vec![in alloc; Part::Number(value), Part::Nothing]?;
    Ok(node(Kind::NumericLiteral, 1, parts))
}

/// A statement that stands for any other, and has the number of that letter.
pub fn statement(alloc: Global, letter: u8) -> Node {
    node(Kind::EmptyStatement, u64::from(letter), Vec::new(alloc))
}

/// The statements of those letters.
pub fn statements(alloc: Global, letters: &[u8]) -> Result<Vec<Part>, Stopped> {
    let mut parts = Vec::new(alloc);
    for letter in letters {
        parts.push(Part::Node(statement(alloc, *letter)))?;
    }
    Ok(parts)
}

/// The tree that the bytes spell.
pub fn tree_of(alloc: Global, bytes: &[u8]) -> Result<Program, Stopped> {
    match read_tree(alloc, bytes) {
        Ok(program) => Ok(program),
        Err(_) => Err(Stopped::NoTree),
    }
}

/// The statement at that place of the program.
pub fn statement_at(program: &Node, place: usize) -> Option<&Node> {
    match program.list(Field::Body).get(place) {
        Some(part) => part.as_node(),
        None => None,
    }
}

/// The expression of the first statement.
pub fn first_expression(program: &Node) -> Option<&Node> {
    match statement_at(program, 0) {
        Some(statement) => statement.child(Field::Expression),
        None => None,
    }
}
