//! The owners of names, and what scopes declare.

use crate::nodes::nodes_of;
use crate::pieces::{Lines, Piece};
use oxt_declares::declaration::{Declaration, Sight};
use oxt_declares::declares::declarations_of;
use oxt_names::ids::OutOfMemory;
use oxt_scopes::owners::{OwnedName, owners_of};
use oxt_scopes::usage::Usage;
use oxt_tree::tree::Node;
use std::alloc::Global;

/// Puts a line for each name that the tree uses, in the order of the text: the name, the number of the node that opens
/// the scope of its group, or `-` where the name is free, and `write`, `update` or `type` where it is no mere
/// read.
///
/// # Errors
///
/// Fails only where memory runs out.
pub fn put_owners(alloc: Global, program: &Node, lines: &mut Lines) -> Result<(), OutOfMemory> {
    let names = owners_of(alloc, program)?;
    for owned in &names {
        put_owned(owned, lines);
    }
    Ok(())
}

/// The same, with the number of the name's node in front.
///
/// # Errors
///
/// Fails only where memory runs out.
pub fn put_numbered(alloc: Global, program: &Node, lines: &mut Lines) -> Result<(), OutOfMemory> {
    let names = owners_of(alloc, program)?;
    for owned in &names {
        lines.put(&[Piece::Number(owned.node.0), Piece::Text(" ")]);
        put_owned(owned, lines);
    }
    Ok(())
}

/// Puts the line of one name.
fn put_owned(owned: &OwnedName, lines: &mut Lines) {
    let line = [
        Piece::Text(owned.name),
        Piece::Maybe(owned.owner.map(|owner| owner.0)),
        Piece::Text(ending_of(owned.usage)),
    ];
    lines.put(&line);
}

/// What ends the line of a name that is used so.
fn ending_of(usage: Usage) -> &'static str {
    match usage {
        Usage::Read => "\n",
        Usage::Write => " write\n",
        Usage::ReadWrite => " update\n",
        Usage::Type => " type\n",
    }
}

/// Puts a line for each declaration of each node that opens a scope: the number of that node, the name, and the number
/// of the node that is the name, with `type` where it is a type alone, `parameter` where type parameters see it,
/// `ambient` where it says `declare`, and `body` where it has one.
///
/// # Errors
///
/// Fails only where memory runs out.
pub fn put_declarations(
    alloc: Global,
    program: &Node,
    lines: &mut Lines,
) -> Result<(), OutOfMemory> {
    let nodes = nodes_of(alloc, program)?;
    put_declared_by_each(alloc, nodes.as_slice(), lines)
}

/// Puts the lines of what these nodes declare.
fn put_declared_by_each(
    alloc: Global,
    nodes: &[&Node],
    lines: &mut Lines,
) -> Result<(), OutOfMemory> {
    for node in nodes {
        put_declared_by(alloc, node, lines)?;
    }
    Ok(())
}

/// Puts the lines of what the node declares.
fn put_declared_by(alloc: Global, node: &Node, lines: &mut Lines) -> Result<(), OutOfMemory> {
    let declarations = declarations_of(alloc, node)?;
    for declaration in &declarations {
        put_declaration(node, declaration, lines);
    }
    Ok(())
}

/// Puts the line of a declaration of the node.
fn put_declaration(node: &Node, declaration: &Declaration, lines: &mut Lines) {
    let sort = declaration.sort;
    let line = [
        Piece::Number(node.id.0),
        Piece::Word(declaration.name),
        Piece::Node(declaration.node),
        Piece::If(sort.is_type_alone(), " type"),
        Piece::If(sort.shows(Sight::TypeParameter), " parameter"),
        Piece::If(declaration.is_ambient, " ambient"),
        Piece::If(declaration.body.is_some(), " body"),
        Piece::Text("\n"),
    ];
    lines.put(&line);
}
