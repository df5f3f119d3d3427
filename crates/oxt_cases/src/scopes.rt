//! The scopes, symbols and references of a tree.
ghost use Rattle.std.specs.Prelude.{◌<◌, IsSome, length};
ghost use Rattle.oxt_scoping.specs.Scoped.{live_at};

use crate::nodes::nodes_of;
use crate::pieces::{Lines, Piece};
use bitflags::{Flag, Flags};
use oxt_names::ids::{NodeId, OutOfMemory, ReferenceId, ScopeId, SymbolId};
use oxt_resolve::resolve::resolve;
use oxt_scoping::entry::Redeclaration;
use oxt_scoping::scoping::Scoping;
use oxt_tree::tree::Node;
use std::alloc::Global;

/// Puts a line for each scope, for each symbol at its first declaration, and for each name that is used, in the
/// order of the text.
///
/// # Errors
///
/// Fails only where memory runs out.
pub fn put_lines(alloc: Global, program: &Node, lines: &mut Lines) -> Result<(), OutOfMemory> {
    let nodes = nodes_of(alloc, program)?;
    put_of_nodes(alloc, program, nodes.as_slice(), lines)
}

/// The same, where the tree has these nodes.
fn put_of_nodes(
    alloc: Global,
    program: &Node,
    nodes: &[&Node],
    lines: &mut Lines,
) -> Result<(), OutOfMemory> {
    let scoping = resolve(alloc, program, false)?;
    put_each(&scoping, nodes, lines);
    drop(scoping);
    Ok(())
}

/// Puts the lines of these nodes.
fn put_each(scoping: &Scoping, nodes: &[&Node], lines: &mut Lines) {
    for node in nodes {
        put_own(scoping, node.id, lines);
    }
}

/// Puts the lines of the node of that number alone.
fn put_own(scoping: &Scoping, node: NodeId, lines: &mut Lines) {
    if let Some(scope) = scoping.scope_of(node) {
        put_scope(scoping, scope, node, lines);
    }
    if let Some(symbol) = scoping.symbol_of(node) {
        put_binding(scoping, symbol, node, lines);
    }
    if let Some(reference) = scoping.reference_of(node) {
        put_use(scoping, reference, lines);
    }
}

/// Puts `scope ID NODE PARENT FLAGS`, with `-` where no scope is around it.
fn put_scope(scoping: &Scoping, scope: ScopeId, node: NodeId, lines: &mut Lines)
    requires { scope.0 < length scoping.now.scopes }
{
    let front = [
        Piece::Text("scope "),
        Piece::Number(scope.0),
        Piece::Node(node),
        Piece::Maybe(scoping.scope_parent_id(scope).map(|parent| parent.0)),
    ];
    lines.put(&front);
    put_flags(scoping.scope_flags(scope), lines);
    lines.put(&[Piece::Text("\n")]);
}

/// Puts the line of the symbol, where the node is its first declaration.
fn put_binding(scoping: &Scoping, symbol: SymbolId, node: NodeId, lines: &mut Lines)
    requires { symbol.0 < length scoping.now.symbols }
{
    match scoping.symbol_redeclarations(symbol).first() {
        Some(first) if first.node.0 == node.0 => put_symbol(scoping, symbol, lines),
        _ => {}
    }
}

/// Puts `symbol ID NAME SCOPE FLAGS; NODE FLAGS emits; ..`, with a part for each declaration.
fn put_symbol(scoping: &Scoping, symbol: SymbolId, lines: &mut Lines)
    requires { symbol.0 < length scoping.now.symbols }
{
    let front = [
        Piece::Text("symbol "),
        Piece::Number(symbol.0),
        Piece::Word(scoping.symbol_name(symbol).as_str()),
        Piece::Maybe(Some(scoping.symbol_scope_id(symbol).0)),
    ];
    lines.put(&front);
    put_flags(scoping.symbol_flags(symbol), lines);
    put_declarations(scoping.symbol_redeclarations(symbol), lines);
}

/// Puts the part of each declaration, and the end of the line.
fn put_declarations(declarations: &[Redeclaration], lines: &mut Lines) {
    for declaration in declarations {
        put_declaration(declaration, lines);
    }
    lines.put(&[Piece::Text("\n")]);
}

/// Puts `; NODE FLAGS emits`.
fn put_declaration(declaration: &Redeclaration, lines: &mut Lines) {
    lines.put(&[Piece::Text(";"), Piece::Node(declaration.node)]);
    put_flags(declaration.flags, lines);
    lines.put(&[Piece::If(declaration.emits, " emits")]);
}

/// Puts `use NODE SYMBOL FLAGS`, with `-` where the name is free.
fn put_use(scoping: &Scoping, reference: ReferenceId, lines: &mut Lines)
    requires { IsSome (live_at scoping.now.references reference.0) }
{
    let reference = scoping.get_reference(reference);
    let front = [
        Piece::Text("use"),
        Piece::Node(reference.node),
        Piece::Maybe(reference.symbol.map(|symbol| symbol.0)),
    ];
    lines.put(&front);
    put_flags(reference.flags, lines);
    lines.put(&[Piece::Text("\n")]);
}

/// Puts the names of the flags that are set.
fn put_flags<F: Flags + Copy>(flags: F, lines: &mut Lines) {
    for flag in F::flags() {
        if flags.contains(*flag.value()) {
            lines.put(&[Piece::Word(flag.name())]);
        }
    }
}
