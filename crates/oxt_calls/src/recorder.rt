//! A pass that writes down each hook.

use oxt_ctx::context::TraverseCtx;
use oxt_ctx::hook::Hook;
use oxt_ctx::pass::Pass;
use oxt_names::ids::OutOfMemory;
use oxt_tree::tree::{Node, Part};
use std::alloc::Global;

/// A line for each hook that ran: its name, the number of its node, 0 for a list of statements, and the
/// numbers of the nodes around it, the innermost first.
#[derive(Drop)]
pub struct Recorder {
    alloc: Global,
    /// The lines.
    pub lines: String,
}

impl Recorder {
    /// No lines.
    pub fn new(alloc: Global) -> Recorder {
        Recorder {
            alloc,
            lines: String::new(alloc),
        }
    }

    // A line more.
    fn note(&mut self, hook: Hook, number: u64, ctx: &TraverseCtx) -> Result<(), OutOfMemory> {
        let line = format!(in self.alloc; "{hook:?} {number}")?;
        self.lines.push_str(line.as_str())?;
        self.note_around(ctx)?;
        self.lines.push('\n')?;
        Ok(())
    }

    // The numbers of the nodes around: a tree that is read has no more levels.
    fn note_around(&mut self, ctx: &TraverseCtx) -> Result<(), OutOfMemory> {
        for level in 0..1024 {
            match ctx.ancestor(level) {
                Some(record) => {
                    let number = format!(in self.alloc; " {}", record.node.0)?;
                    self.lines.push_str(number.as_str())?;
                }
                None => return Ok(()),
            }
        }
        Ok(())
    }
}

impl Pass for Recorder {
    fn at_node(
        &mut self,
        hook: Hook,
        node: &mut Node,
        ctx: &mut TraverseCtx,
    ) -> Result<(), OutOfMemory> {
        self.note(hook, node.id.0, ctx)
    }

    fn at_statements(
        &mut self,
        hook: Hook,
        _statements: &mut Vec<Part>,
        ctx: &mut TraverseCtx,
    ) -> Result<(), OutOfMemory> {
        self.note(hook, 0, ctx)
    }
}
