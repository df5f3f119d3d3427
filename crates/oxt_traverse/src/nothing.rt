//! A pass that does nothing.

use oxt_ctx::context::TraverseCtx;
use oxt_ctx::hook::Hook;
use oxt_ctx::pass::Pass;
use oxt_names::ids::OutOfMemory;
use oxt_tree::tree::{Node, Part};

/// The pass that leaves each tree as it is.
#[derive(Clone, Copy)]
pub struct Nothing;

impl Pass for Nothing {
    ghost use Rattle.std.specs.Prelude.{true};

    ghost watches = { true };

    fn at_node(
        &mut self,
        _hook: Hook,
        _node: &mut Node,
        _ctx: &mut TraverseCtx,
    ) -> Result<(), OutOfMemory> {
        Ok(())
    }

    fn at_statements(
        &mut self,
        _hook: Hook,
        _statements: &mut Vec<Part>,
        _ctx: &mut TraverseCtx,
    ) -> Result<(), OutOfMemory> {
        Ok(())
    }
}
