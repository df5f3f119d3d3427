//! The hooks that a walk runs on a tree with a node of each kind.

use crate::context::of_table;
use crate::recorder::Recorder;
use oxt_ctx::context::TraverseCtx;
use oxt_lines::lines::Lines;
use oxt_lines::stopped::Stopped;
use oxt_lines::table::Table;
use oxt_names::ids::OutOfMemory;
use oxt_resolve::resolve::resolve;
use oxt_scoping::scoping::Scoping;
use oxt_tree::tree::{Node, Program};
use oxt_walk::walk::walk_program;
use std::alloc::Global;

/// A line for each hook, in their order.
pub fn print_hooks(alloc: Global, table: &Table, lines: &mut Lines) -> Result<(), Stopped> {
    lines.heading(
        "hooks of a walk, each with the number of its node, 0 for a list of statements, and of those around",
    );
    let mut program = table.tree(alloc, "a node of each kind")?;
    let text = hooks_of(alloc, &mut program)?;
    lines.add(text.as_str());
    Ok(())
}

/// The lines of the hooks that a walk of the program runs.
fn hooks_of(alloc: Global, program: &mut Program) -> Result<String, OutOfMemory> {
    let table = resolve(alloc, &program.root, false)?;
    hooks_by(alloc, table, &mut program.root)
}

fn hooks_by(alloc: Global, table: Scoping, root: &mut Node) -> Result<String, OutOfMemory> {
    let mut ctx = of_table(alloc, table);
    let lines = hooks_in(alloc, root, &mut ctx);
    drop(ctx);
    lines
}

/// The lines of the hooks that a walk in that context runs.
fn hooks_in(alloc: Global, root: &mut Node, ctx: &mut TraverseCtx) -> Result<String, OutOfMemory> {
    let mut recorder = Recorder::new(alloc);
    match walk_program(&mut recorder, root, ctx) {
        Ok(()) => Ok(recorder.lines),
        Err(error) => {
            drop(recorder);
            Err(error)
        }
    }
}
