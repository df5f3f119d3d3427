//! Two passes in one walk.

use crate::dispatch::{run_at_node, run_at_statements};
use crate::traverse::Traverse;
use oxt_ctx::context::TraverseCtx;
use oxt_ctx::hook::Hook;
use oxt_ctx::pass::Pass;
use oxt_names::ids::OutOfMemory;
use oxt_tree::tree::{Node, Part};

/// A pass that runs two others: at each hook the first before the second. Its log is that of the
/// first.
#[derive(Drop)]
pub struct Both<A, B> {
    /// The pass that comes first.
    pub first: A,
    /// The pass that comes after it.
    pub second: B,
}

impl<A: Traverse, B: Traverse> Pass for Both<A, B> {
    ghost log = { λ both. A.log both.first };

    ghost trace = { A.trace };

    fn at_node(
        &mut self,
        hook: Hook,
        node: &mut Node,
        ctx: &mut TraverseCtx,
    ) -> Result<(), OutOfMemory> {
        run_at_node(&mut self.first, hook, node, ctx)?;
        run_at_node(&mut self.second, hook, node, ctx)
    }

    fn at_statements(
        &mut self,
        hook: Hook,
        statements: &mut Vec<Part>,
        ctx: &mut TraverseCtx,
    ) -> Result<(), OutOfMemory> {
        run_at_statements(&mut self.first, hook, statements, ctx)?;
        run_at_statements(&mut self.second, hook, statements, ctx)
    }
}
