//! Expressions that are members of enums, and their constants.
ghost use Rattle.std.specs.Prelude.{◌≡◌, OnOk};
ghost use Rattle.oxt_lower.specs.Context.{but_table_of};

use crate::constant::constant_literal;
use oxt_ctx::context::TraverseCtx;
use oxt_names::ids::OutOfMemory;
use oxt_tree::tree::Node;

/// Puts in the place of an expression that the plan inlines the literal of its constant, and in the place
/// of the wrappers and parentheses around it too.
pub fn inline_constant(node: &mut Node, ctx: &mut TraverseCtx) -> Result<(), OutOfMemory>
    ensures frame { OnOk result (ctx.new ≡ but_table_of ctx.old ctx.new) }
{
    let number = node.get_inner_expression().id;
    if let Some(constant) = ctx.plan.inlined(number) {
        let alloc = *node.parts.allocator();
        *node = constant_literal(alloc, constant, &mut ctx.ids)?;
    }
    Ok(())
}
