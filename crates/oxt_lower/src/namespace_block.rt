//! Blocks of namespaces, and what stands in their places.
ghost use Rattle.std.specs.Prelude.{◌≡◌, ◌<◌, ◌≤◌, OnOk, length};
ghost use Rattle.oxt_lower.specs.Context.{but_table_of};

use crate::function::{body_of, function_with};
use crate::members::take_field;
use crate::namespace_call::{alone_statements, member_statements, open_namespace};
use crate::namespace_export::{export_statements, vanishes};
use crate::namespace_list::{flatten, replace_by};
use oxt_ctx::context::TraverseCtx;
use oxt_declares::dropped::is_dropped;
use oxt_grammar::field::Field;
use oxt_grammar::kind::Kind;
use oxt_names::ids::{NodeIds, OutOfMemory};
use oxt_stores::bound::BoundIdentifier;
use oxt_tree::fields::place_of;
use oxt_tree::tree::{Node, Part};
use std::alloc::Global;

/// Whether the node is a block of a namespace that is lowered.
pub fn is_block(node: &Node) -> bool {
    node.kind.is(Kind::TSNamespaceDeclaration) && !is_dropped(node)
}

/// Whether the node is an export of such a block.
pub fn exports_block(node: &Node) -> bool {
    match node.field(Field::Declaration) {
        Some(Part::Node(declaration)) => {
            node.kind.is(Kind::ExportDeclaration) && is_block(declaration)
        }
        _ => false,
    }
}

/// What stands in the place of a block that no other block exports.
#[cycle(namespaces)]
pub fn lower_alone(
    block: &mut Node,
    is_exported: bool,
    ctx: &mut TraverseCtx,
) -> Result<Vec<Part>, OutOfMemory>
    ensures frame { OnOk result (ctx.new ≡ but_table_of ctx.old ctx.new) }
    ensures more { OnOk result (length ctx.old.scoping.symbols ≤ length ctx.new.scoping.symbols) }
{
    let function = lower_block(block, ctx)?;
    alone_statements(block, is_exported, function, ctx)
}

/// What stands in the place of an export of a block by the program.
pub fn lower_exported(
    export: &mut Node,
    ctx: &mut TraverseCtx,
) -> Result<Option<Vec<Part>>, OutOfMemory>
    ensures frame { OnOk result (ctx.new ≡ but_table_of ctx.old ctx.new) }
{
    match take_field(export, Field::Declaration) {
        Part::Node(mut block) => Ok(Some(lower_alone(&mut block, true, ctx)?)),
        _ => Ok(None),
    }
}

/// What stands in the place of a block that is exported by the one whose function has that parameter.
#[cycle(namespaces)]
fn lower_member(
    block: &mut Node,
    base: &BoundIdentifier,
    ctx: &mut TraverseCtx,
) -> Result<Vec<Part>, OutOfMemory>
    requires { base.now.symbol_id.0 < length ctx.old.scoping.symbols }
    ensures frame { OnOk result (ctx.new ≡ but_table_of ctx.old ctx.new) }
    ensures more { OnOk result (length ctx.old.scoping.symbols ≤ length ctx.new.scoping.symbols) }
{
    let function = lower_block(block, ctx)?;
    member_statements(block, base, function, ctx)
}

/// The function of the block. Its parameter is named before those of the blocks inside.
#[cycle(namespaces)]
fn lower_block(block: &mut Node, ctx: &mut TraverseCtx) -> Result<Node, OutOfMemory>
    ensures frame { OnOk result (ctx.new ≡ but_table_of ctx.old ctx.new) }
    ensures more { OnOk result (length ctx.old.scoping.symbols ≤ length ctx.new.scoping.symbols) }
{
    let alloc = *block.parts.allocator();
    let opened = open_namespace(block, ctx)?;
    lower_body(block, &opened.parameter, ctx)?;
    let body = take_body(alloc, block, &mut ctx.ids)?;
    function_with(alloc, opened, body, ctx)
}

/// Lowers what stands in the field `body`.
#[cycle(namespaces)]
fn lower_body(
    block: &mut Node,
    base: &BoundIdentifier,
    ctx: &mut TraverseCtx,
) -> Result<(), OutOfMemory>
    requires { base.now.symbol_id.0 < length ctx.old.scoping.symbols }
    ensures frame { OnOk result (ctx.new ≡ but_table_of ctx.old ctx.new) }
    ensures more { OnOk result (length ctx.old.scoping.symbols ≤ length ctx.new.scoping.symbols) }
{
    match place_of(block.kind.rows(), Field::Body) {
        Some(place) => {
            if place < block.parts.len() {
                lower_part(&mut block.parts[place], base, ctx)
            } else {
                Ok(())
            }
        }
        None => Ok(()),
    }
}

/// Lowers the body of a block: statements, or the one block that it exports. A list of statements stands
/// in the place of the latter.
#[cycle(namespaces)]
fn lower_part(
    body: &mut Part,
    base: &BoundIdentifier,
    ctx: &mut TraverseCtx,
) -> Result<(), OutOfMemory>
    requires { base.now.symbol_id.0 < length ctx.old.scoping.symbols }
    ensures frame { OnOk result (ctx.new ≡ but_table_of ctx.old ctx.new) }
    ensures more { OnOk result (length ctx.old.scoping.symbols ≤ length ctx.new.scoping.symbols) }
{
    let statements = match body {
        Part::List(statements) => {
            lower_statements(statements, base, ctx)?;
            None
        }
        Part::Node(node) => lower_inside(node, base, ctx)?,
        _ => None,
    };
    replace_by(body, statements);
    Ok(())
}

/// Lowers the statements in braces. Any other body is a block, for which these statements stand.
#[cycle(namespaces)]
fn lower_inside(
    body: &mut Node,
    base: &BoundIdentifier,
    ctx: &mut TraverseCtx,
) -> Result<Option<Vec<Part>>, OutOfMemory>
    requires { base.now.symbol_id.0 < length ctx.old.scoping.symbols }
    ensures frame { OnOk result (ctx.new ≡ but_table_of ctx.old ctx.new) }
    ensures more { OnOk result (length ctx.old.scoping.symbols ≤ length ctx.new.scoping.symbols) }
{
    if body.kind.is(Kind::TSModuleBlock) {
        lower_body(body, base, ctx)?;
        Ok(None)
    } else {
        Ok(Some(lower_member(body, base, ctx)?))
    }
}

/// Lowers the statements of a block whose function has that parameter.
#[cycle(namespaces)]
fn lower_statements(
    statements: &mut Vec<Part>,
    base: &BoundIdentifier,
    ctx: &mut TraverseCtx,
) -> Result<(), OutOfMemory>
    requires { base.now.symbol_id.0 < length ctx.old.scoping.symbols }
    ensures frame { OnOk result (ctx.new ≡ but_table_of ctx.old ctx.new) }
    ensures more { OnOk result (length ctx.old.scoping.symbols ≤ length ctx.new.scoping.symbols) }
{
    for i in 0..statements.len() {
        lower_statement(&mut statements[i], base, ctx)?;
    }
    flatten(statements)
}

/// Lowers the statement of a block. Where others stand in its place, it becomes a list of these.
#[cycle(namespaces)]
fn lower_statement(
    statement: &mut Part,
    base: &BoundIdentifier,
    ctx: &mut TraverseCtx,
) -> Result<(), OutOfMemory>
    requires { base.now.symbol_id.0 < length ctx.old.scoping.symbols }
    ensures frame { OnOk result (ctx.new ≡ but_table_of ctx.old ctx.new) }
    ensures more { OnOk result (length ctx.old.scoping.symbols ≤ length ctx.new.scoping.symbols) }
{
    let statements = match statement {
        Part::Node(node) => statements_of(node, base, ctx)?,
        _ => None,
    };
    replace_by(statement, statements);
    Ok(())
}

/// What stands in the place of the statement of a block; none where it stays.
#[cycle(namespaces)]
fn statements_of(
    node: &mut Node,
    base: &BoundIdentifier,
    ctx: &mut TraverseCtx,
) -> Result<Option<Vec<Part>>, OutOfMemory>
    requires { base.now.symbol_id.0 < length ctx.old.scoping.symbols }
    ensures frame { OnOk result (ctx.new ≡ but_table_of ctx.old ctx.new) }
    ensures more { OnOk result (length ctx.old.scoping.symbols ≤ length ctx.new.scoping.symbols) }
{
    if vanishes(node, &ctx.plan) {
        Ok(Some(Vec::new(*node.parts.allocator())))
    } else if node.kind.is(Kind::TSNamespaceDeclaration) {
        Ok(Some(lower_alone(node, false, ctx)?))
    } else if exports_block(node) {
        lower_export(node, base, ctx)
    } else if node.kind.is(Kind::ExportDeclaration) {
        Ok(Some(export_statements(node, base, ctx)?))
    } else {
        Ok(None)
    }
}

/// What stands in the place of an export of a block.
#[cycle(namespaces)]
fn lower_export(
    export: &mut Node,
    base: &BoundIdentifier,
    ctx: &mut TraverseCtx,
) -> Result<Option<Vec<Part>>, OutOfMemory>
    requires { base.now.symbol_id.0 < length ctx.old.scoping.symbols }
    ensures frame { OnOk result (ctx.new ≡ but_table_of ctx.old ctx.new) }
    ensures more { OnOk result (length ctx.old.scoping.symbols ≤ length ctx.new.scoping.symbols) }
{
    match export.parts.first_mut() {
        Some(Part::Node(block)) => Ok(Some(lower_member(block, base, ctx)?)),
        _ => Ok(None),
    }
}

/// Takes the body of the block for the body of its function.
fn take_body(alloc: Global, block: &mut Node, ids: &mut NodeIds) -> Result<Node, OutOfMemory> {
    match take_field(block, Field::Body) {
        Part::Node(mut inside) => {
            let directives = list_of(alloc, take_field(&mut inside, Field::Directives));
            let statements = list_of(alloc, take_field(&mut inside, Field::Body));
            body_of(alloc, directives, statements, ids)
        }
        part => body_of(alloc, Vec::new(alloc), list_of(alloc, part), ids),
    }
}

/// The list that the part is; one without elements where it is none.
fn list_of(alloc: Global, part: Part) -> Vec<Part> {
    match part {
        Part::List(parts) => parts,
        _ => Vec::new(alloc),
    }
}
