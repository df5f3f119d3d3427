//! Statements that are blocks of enums, or export one.
ghost use Rattle.std.specs.Prelude.{◌≡◌, OnOk, filter, not};
ghost use Rattle.oxt_lower.specs.Context.{but_table_of};
ghost use Rattle.oxt_lower.specs.Statement.{is_block, is_dropped_block, is_lowered};
ghost use Rattle.oxt_tree.specs.View.{node_doc, part_doc};

use crate::block::lower_block;
use oxt_ctx::context::TraverseCtx;
use oxt_declares::dropped::is_dropped;
use oxt_grammar::kind::Kind;
use oxt_names::ids::OutOfMemory;
use oxt_options::plan::Plan;
use oxt_tree::tree::{Node, Part};
use std::vec;

/// Lowers the statement, if it is a block of an enum or exports one. What is erased stays, and so does
/// what the plan drops.
pub fn lower_statement(node: &mut Node, ctx: &mut TraverseCtx) -> Result<(), OutOfMemory>
    ensures frame { OnOk result (ctx.new ≡ but_table_of ctx.old ctx.new) }
{
    if is_lowered(node, &ctx.plan) {
        lower_plain(node, ctx)
    } else if node.kind.is(Kind::ExportDeclaration) {
        lower_export(node, ctx)
    } else {
        Ok(())
    }
}

/// Lowers the block.
fn lower_plain(node: &mut Node, ctx: &mut TraverseCtx) -> Result<(), OutOfMemory>
    ensures frame { OnOk result (ctx.new ≡ but_table_of ctx.old ctx.new) }
{
    let statement = lower_block(node, false, ctx)?;
    *node = statement;
    Ok(())
}

/// Lowers the block that is exported, if it is one.
fn lower_export(node: &mut Node, ctx: &mut TraverseCtx) -> Result<(), OutOfMemory>
    ensures frame { OnOk result (ctx.new ≡ but_table_of ctx.old ctx.new) }
{
    match take_block(&mut node.parts, &ctx.plan) {
        Some(block) => put_export(node, block, ctx),
        None => Ok(()),
    }
}

/// Takes the first of the parts, if it is a block of an enum that is lowered.
fn take_block(parts: &mut Vec<Part>, plan: &Plan) -> Option<Node> {
    match parts.first() {
        Some(Part::Node(block)) if is_lowered(block, plan) => {}
        _ => return None,
    }
    match parts.swap_remove(0) {
        Part::Node(block) => Some(block),
        _ => unreachable!(),
    }
}

/// Puts what stands for the block into the export; an assignment in the place of the export.
fn put_export(node: &mut Node, mut block: Node, ctx: &mut TraverseCtx) -> Result<(), OutOfMemory>
    ensures frame { OnOk result (ctx.new ≡ but_table_of ctx.old ctx.new) }
{
    let alloc = *node.parts.allocator();
    let is_first = ctx.plan.is_first(block.id);
    let statement = lower_block(&mut block, true, ctx)?;
    if is_first {
        node.parts = vec![in alloc; Part::Node(statement)]?;
    } else {
        *node = statement;
    }
    Ok(())
}

/// Removes the blocks of enums that the plan drops from a list of statements.
pub fn drop_blocks(statements: &mut Vec<Part>, plan: &Plan)
    ensures { statements.new.items ≡ filter (λ part. not (is_dropped_block plan.now (part_doc part))) statements.old.items }
{
    statements.retain(|part| !part_is_dropped(part, plan));
}

/// Whether the part is a block of an enum that the plan drops.
fn part_is_dropped(part: &Part, plan: &Plan) -> bool
    ensures { result ≡ is_dropped_block plan.now (part_doc part.now) }
{
    match part {
        Part::Node(node) => is_dropped_block(node, plan),
        _ => false,
    }
}

/// Whether the node is a block of an enum that the plan drops.
fn is_dropped_block(node: &Node, plan: &Plan) -> bool
    ensures { result ≡ is_dropped_block plan.now (node_doc node.now) }
{
    node.kind.is(Kind::TSEnumDeclaration) && plan.is_dropped(node.id)
}

/// Whether the node is a block of an enum that is neither erased nor dropped.
fn is_lowered(node: &Node, plan: &Plan) -> bool
    ensures { result ≡ is_lowered plan.now (node_doc node.now) }
{
    is_block(node) && !is_dropped_block(node, plan)
}

/// Whether the node is a block of an enum that is not erased.
fn is_block(node: &Node) -> bool
    ensures { result ≡ is_block (node_doc node.now) }
{
    node.kind.is(Kind::TSEnumDeclaration) && !is_dropped(node)
}
